ghost use Rattle.std.specs.Prelude.{◌≡◌, ◌+◌, ◌-◌, ◌≤◌, true, map, filter, length, slice_get, is_some, option_copied, option_map, option_to_list, IfOk, All};
ghost use Rattle.std.specs.Bool.{OnTrue};
ghost use Rattle.std.specs.Arc.{arc_value};
ghost use Rattle.std.specs.List.{flat_map};
ghost use Rattle.sc_hash.specs.Bounds.{bounds, contains};
ghost use Rattle.sc_record.specs.Writes.{Write};
ghost use Rattle.sc_journal.specs.Legal.{HasTerms};
ghost use Rattle.sc_eval.specs.Criteria.{criterion_of};
ghost use Rattle.sc_eval.specs.Matching.{finds};
ghost use Rattle.sc_eval.specs.Numbers.{numbers_of, row_in, AreMatches, AreStepsOfSearch};
ghost use Rattle.sc_eval.specs.Unjoined.{WillBeNumbersOf};

use crate::bound::Bound;
use crate::matching::{matching, numbers_with, unjoined};
use crate::numbers::{Matches, Numbers};
use crate::unjoined::Unjoined;
use sc_hash::Range;
use sc_keys::Steps;
use sc_record::{Cell, List};
use sc_snapshot::Snapshot;
use std::alloc::{AllocError, Global};
use std::sync::Arc;
use std::sync::ledger::Ledger;

/// How many rows the query finds in the range, and the numbers of the first of them, `most` or all, counted from 0 and ascending, so in
/// the order of their ids. A step is one comparison of terms, or one row that is read: none is where the hashes of all rows are in the
/// range, and then the start of a term's posting list is lent as it is, and of the outermost join of the query no more numbers are
/// kept. The only error is that memory was refused.
pub fn find<'a, L: Ledger>(
    alloc: Global,
    query: &Bound,
    snapshot: &'a Snapshot,
    range: &Range,
    most: usize,
    steps: &mut Steps<L>,
) -> Result<Matches<'a>, AllocError>
    requires { All (λ (row : Write). HasTerms row.id row.doc row.terms) snapshot.now.rows }
    ensures found { IfOk result (AreMatches range.now (criterion_of query.now) snapshot.now.rows most) }
    ensures counted { steps.old ≤ steps.new }
    ensures bound { AreStepsOfSearch (criterion_of query.now) snapshot.now.rows (steps.new - steps.old) }
{
    if has_all(range, snapshot) {
        if let Bound::Leaf(key) = query {
            return Ok(numbers_with(key, snapshot, steps).start(most));
        }
    }
    look_up(alloc, query, snapshot, range, steps)?.start(alloc, most)
}

/// The numbers of the rows that the query finds in the range, where the outermost join is not made yet: so the terms of a query can be
/// looked up in several snapshots before the outermost lists are joined. A step is one comparison of terms, or one row that is read: none is
/// where the hashes of all rows are in the range. The only error is that memory was refused.
#[inline(always)]
pub fn look_up<'a, L: Ledger>(
    alloc: Global,
    query: &Bound,
    snapshot: &'a Snapshot,
    range: &Range,
    steps: &mut Steps<L>,
) -> Result<Unjoined<'a>, AllocError>
    requires { All (λ (row : Write). HasTerms row.id row.doc row.terms) snapshot.now.rows }
    ensures found { IfOk result (WillBeNumbersOf (finds range.now (criterion_of query.now)) snapshot.now.rows) }
    ensures counted { steps.old ≤ steps.new }
    ensures bound { AreStepsOfSearch (criterion_of query.now) snapshot.now.rows (steps.new - steps.old) }
{
    if has_all(range, snapshot) {
        return unjoined(alloc, query, snapshot, steps);
    }
    let numbers = matching(alloc, query, snapshot, steps)?;
    let found = numbers_in(alloc, snapshot, range, numbers.as_slice(), steps)?;
    Ok(Unjoined::One(found))
}

/// The rows of a snapshot that the query finds in the range, in their order, so ascending by the ids' bytes. Each row that
/// matches the query is read once, no other is, and each that is found is shared. The only error is that memory was refused.
pub fn evaluate<L: Ledger>(
    alloc: Global,
    query: &Bound,
    snapshot: &Snapshot,
    range: &Range,
    steps: &mut Steps<L>,
) -> Result<List<Cell>, AllocError>
    requires { All (λ (row : Write). HasTerms row.id row.doc row.terms) snapshot.now.rows }
    ensures found { IfOk result (λ found. map arc_value found ≡ filter (finds range.now (criterion_of query.now)) snapshot.now.rows) }
    ensures counted { steps.old ≤ steps.new }
    ensures bound { AreStepsOfSearch (criterion_of query.now) snapshot.now.rows (steps.new - steps.old) }
{
    let numbers = matching(alloc, query, snapshot, steps)?;
    cells_in(alloc, snapshot, range, numbers.as_slice(), steps)
}

// Whether the range has the hashes of all rows.
fn has_all(range: &Range, snapshot: &Snapshot) -> bool
    ensures { OnTrue result (All (λ (row : Write). contains row.hash (bounds range.now) ≡ true) snapshot.now.rows) }
{
    range.contains(snapshot.least_hash()) && range.contains(snapshot.greatest_hash())
}

// Those of the numbers whose rows have their hashes in the range. Each row is read.
fn numbers_in<'a, L: Ledger>(
    alloc: Global,
    snapshot: &Snapshot,
    range: &Range,
    numbers: &[u32],
    steps: &mut Steps<L>,
) -> Result<Numbers<'a>, AllocError>
    ensures found { IfOk result (λ found.
        numbers_of found ≡ filter (λ number. is_some (row_in range.now (slice_get snapshot.now.rows number))) numbers.now) }
    ensures counted { steps.old ≤ steps.new }
    ensures bound { steps.new ≤ steps.old + length numbers.now }
{
    let mut found = Vec::new(alloc);
    for number in numbers {
        if row_in(snapshot, range, *number, steps).is_some() {
            found.push(*number)?;
        }
    }
    Ok(Numbers::Made(found))
}

// The rows of the numbers, each shared, where their hashes are in the range. Each row is read.
fn cells_in<L: Ledger>(
    alloc: Global,
    snapshot: &Snapshot,
    range: &Range,
    numbers: &[u32],
    steps: &mut Steps<L>,
) -> Result<List<Cell>, AllocError>
    ensures found { IfOk result (λ found.
        map arc_value found ≡ flat_map (λ number. option_to_list (row_in range.now (slice_get snapshot.now.rows number))) numbers.now) }
    ensures counted { steps.old ≤ steps.new }
    ensures bound { steps.new ≤ steps.old + length numbers.now }
{
    let mut found = List::new(alloc);
    for number in numbers {
        if let Some(row) = row_in(snapshot, range, *number, steps) {
            found.push(Arc::try_clone(row)?)?;
        }
    }
    Ok(found)
}

// The row of this number, where its hash is in the range. It takes one step.
fn row_in<'a, L: Ledger>(
    snapshot: &'a Snapshot,
    range: &Range,
    number: u32,
    steps: &mut Steps<L>,
) -> Option<&'a Cell>
    ensures row { option_map arc_value (option_copied result) ≡ row_in range.now (slice_get snapshot.now.rows number) }
    ensures counted { steps.new ≡ steps.old + 1 }
{
    match snapshot.row(number, steps) {
        Some(row) if is_in(range, row) => Some(row),
        _ => None,
    }
}

// Whether the row's hash is in the range.
fn is_in(range: &Range, row: &Cell) -> bool
    ensures { result ≡ contains (arc_value row.now).hash (bounds range.now) }
{
    range.contains(row.hash())
}
