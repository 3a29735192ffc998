//! Which rows match a query, whatever their hashes, by joining the posting lists of its terms.

ghost use Rattle.std.specs.Prelude.{ℕ, ◌-◌, ◌≤◌, List, All, IfOk, IsTrue};
ghost use Rattle.sc_record.specs.Writes.{Write};
ghost use Rattle.sc_journal.specs.Legal.{HasTerms};
ghost use Rattle.std.specs.List.Sorted.{IsStrictlyIncreasing};
ghost use Rattle.sc_rows.specs.Joining.{IsJoin};
ghost use Rattle.sc_eval.specs.Criteria.{Criterion, criterion_of};
ghost use Rattle.sc_eval.specs.Operands.{pair_criterion};
ghost use Rattle.sc_eval.specs.Numbers.{numbers_of, is_match, AreNumbersOf, AreStepsOfLeaves};
ghost use Rattle.sc_eval.specs.Unjoined.{WillBeNumbersOf};

use crate::bound::Bound;
use crate::numbers::Numbers;
use crate::operand::{Operand, Pair, Right, first_operand, pair_of_terms};
use crate::unjoined::Unjoined;
use sc_keys::Steps;
use sc_rows::Kept;
use sc_snapshot::{Snapshot, TermKey};
use std::alloc::{AllocError, Global};
use std::sync::ledger::Ledger;

/// The numbers of the live rows that match the query. A step is one comparison of terms, and no row is read. A posting list is
/// copied nowhere: it is lent, or joined with another. Where nothing is found to the left of an AND, what is to the right of it is not
/// looked up. The only error is that memory was refused.
pub(crate) fn matching<'a, L: Ledger>(
    alloc: Global,
    query: &Bound,
    snapshot: &'a Snapshot,
    steps: &mut Steps<L>,
) -> Result<Numbers<'a>, AllocError>
    requires { All (λ (row : Write). HasTerms row.id row.doc row.terms) snapshot.now.rows }
    ensures numbers { IfOk result (λ found. AreNumbersOf (is_match (criterion_of query.now)) snapshot.now.rows (numbers_of found)) }
    ensures counted { steps.old ≤ steps.new }
    ensures bound { AreStepsOfLeaves (criterion_of query.now) snapshot.now.rows (steps.new - steps.old) }
{
    unjoined(alloc, query, snapshot, steps)?.joined(alloc)
}

/// The numbers of the live rows that match the query, looked up as by `matching`, where the outermost join is not made yet. For a query
/// that joins two terms no memory is taken.
pub(crate) fn unjoined<'a, L: Ledger>(
    alloc: Global,
    query: &Bound,
    snapshot: &'a Snapshot,
    steps: &mut Steps<L>,
) -> Result<Unjoined<'a>, AllocError>
    requires { All (λ (row : Write). HasTerms row.id row.doc row.terms) snapshot.now.rows }
    ensures numbers { IfOk result (WillBeNumbersOf (is_match (criterion_of query.now)) snapshot.now.rows) }
    ensures counted { steps.old ≤ steps.new }
    ensures bound { AreStepsOfLeaves (criterion_of query.now) snapshot.now.rows (steps.new - steps.old) }
{
    match pair_of_terms(query) {
        Some(pair) => Ok(unjoined_pair(pair, snapshot, steps)),
        None => unjoined_operands(alloc, query, snapshot, steps),
    }
}

// The numbers of the live rows that match two terms, which are not joined yet. Where nothing is found to the left of an AND, the right one
// is not looked up.
fn unjoined_pair<'a, L: Ledger>(
    pair: Pair<'_>,
    snapshot: &'a Snapshot,
    steps: &mut Steps<L>,
) -> Unjoined<'a>
    requires { All (λ (row : Write). HasTerms row.id row.doc row.terms) snapshot.now.rows }
    ensures numbers { WillBeNumbersOf (is_match (pair_criterion pair.entry)) snapshot.now.rows result }
    ensures counted { steps.old ≤ steps.new }
    ensures bound { AreStepsOfLeaves (pair_criterion pair.entry) snapshot.now.rows (steps.new - steps.old) }
{
    let left = numbers_with(pair.left, snapshot, steps);
    if stays_empty(pair.how, &left) {
        return Unjoined::One(left);
    }
    let right = numbers_with(pair.right, snapshot, steps);
    Unjoined::Two {
        how: pair.how,
        left,
        right,
        end: None,
    }
}

// The numbers of the live rows that match any query: what stands leftmost is looked up, and then what waits to the right of it.
#[inline(never)]
fn unjoined_operands<'a, L: Ledger>(
    alloc: Global,
    query: &Bound,
    snapshot: &'a Snapshot,
    steps: &mut Steps<L>,
) -> Result<Unjoined<'a>, AllocError>
    requires { All (λ (row : Write). HasTerms row.id row.doc row.terms) snapshot.now.rows }
    ensures numbers { IfOk result (WillBeNumbersOf (is_match (criterion_of query.now)) snapshot.now.rows) }
    ensures counted { steps.old ≤ steps.new }
    ensures bound { AreStepsOfLeaves (criterion_of query.now) snapshot.now.rows (steps.new - steps.old) }
{
    let mut waiting = Vec::new(alloc);
    let mut found = match first_operand(&mut waiting, query)? {
        Operand::All => Unjoined::One(Numbers::Lent(snapshot.live())),
        Operand::Leaf(key) => Unjoined::One(numbers_with(key, snapshot, steps)),
        Operand::Not(operand) => {
            let left_out = unjoined_operands(alloc, operand, snapshot, steps)?.joined(alloc)?;
            all_but(snapshot, left_out)
        }
    };
    while let Some(Right { how, operand }) = waiting.pop() {
        let left = found.joined(alloc)?;
        found = if stays_empty(how, &left) {
            Unjoined::One(left)
        } else {
            let right = unjoined_operands(alloc, operand, snapshot, steps)?.joined(alloc)?;
            Unjoined::Two {
                how,
                left,
                right,
                end: None,
            }
        };
    }
    Ok(found)
}

/// The numbers of the live rows that have the term of the key.
pub(crate) fn numbers_with<'a, L: Ledger>(
    key: &TermKey,
    snapshot: &'a Snapshot,
    steps: &mut Steps<L>,
) -> Numbers<'a>
    requires { All (λ (row : Write). HasTerms row.id row.doc row.terms) snapshot.now.rows }
    ensures numbers { AreNumbersOf (is_match (Criterion.Leaf key.now.term)) snapshot.now.rows (numbers_of result) }
    ensures counted { steps.old ≤ steps.new }
    ensures bound { AreStepsOfLeaves (Criterion.Leaf key.now.term) snapshot.now.rows (steps.new - steps.old) }
{
    Numbers::Lent(snapshot.postings(key, steps))
}

// Whether the left list is empty and so is what is kept of it and of any right one.
fn stays_empty(how: Kept, left: &Numbers<'_>) -> bool
    ensures { IsTrue result → (right : List ℕ) → IsJoin how (numbers_of left.now) right (numbers_of left.now) }
{
    how != Kept::Either && left.as_slice().is_empty()
}

// The numbers of all live rows but these, which are still to be left out.
fn all_but<'a>(snapshot: &'a Snapshot, left_out: Numbers<'a>) -> Unjoined<'a>
    requires { IsStrictlyIncreasing (numbers_of left_out) }
    ensures { (operand : Criterion) → AreNumbersOf (is_match operand) snapshot.now.rows (numbers_of left_out.entry)
        → WillBeNumbersOf (is_match (Criterion.Not operand)) snapshot.now.rows result }
{
    let live = Numbers::Lent(snapshot.live());
    Unjoined::Two {
        how: Kept::LeftAlone,
        left: live,
        right: left_out,
        end: None,
    }
}
