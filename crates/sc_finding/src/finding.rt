ghost use Rattle.std.specs.Prelude.{◌≤◌, ◌-◌, length, All, IfOk};
ghost use Rattle.sc_record.specs.Writes.{Write};
ghost use Rattle.sc_eval.specs.Criteria.{criterion_of};
ghost use Rattle.sc_eval.specs.Matching.{finds};
ghost use Rattle.sc_eval.specs.Numbers.{AreStepsOfSearch};
ghost use Rattle.sc_eval.specs.Unjoined.{WillBeNumbersOf};
ghost use Rattle.sc_journal.specs.Legal.{HasTerms};
ghost use Rattle.sc_snapshot.specs.Rows.{AreRows};
ghost use Rattle.sc_finding.specs.Hits.{HasFound, HasMatches};
ghost use Rattle.sc_replicas.specs.Searchers.{searcher_rows};
ghost use Rattle.sc_finding.specs.SearcherRows.{HaveTerms};
ghost use Rattle.sc_finding.specs.Steps.{AreStepsOfSearches};

use crate::hits::{Found, Hits, Looked};
use sc_eval::{Bound, Matches, Numbers, Unjoined, find, look_up};
use sc_keys::Steps;
use sc_replicas::Searcher;
use std::alloc::{AllocError, Global};
use std::sync::ledger::Ledger;

/// What the query finds with these searchers, one after another. A step is one comparison of terms, or one row that is read. The only
/// error is that memory was refused.
pub(crate) fn find_all<'a, L: Ledger>(
    alloc: Global,
    query: &Bound,
    searchers: &'a [Searcher],
    most: usize,
    steps: &mut Steps<L>,
) -> Result<Found<'a>, AllocError>
    requires terms { All HaveTerms searchers.now }
    requires few { length searchers.now ≤ 65536 }
    ensures found { IfOk result (HasFound (criterion_of query.now) most searchers.now) }
    ensures counted { steps.old ≤ steps.new }
    ensures bound { AreStepsOfSearches (criterion_of query.now) searchers.now (steps.new - steps.old) }
{
    match query {
        Bound::All | Bound::Leaf(_) => find_at_once(alloc, query, searchers, most, steps),
        _ => find_by_joins(alloc, query, searchers, most, steps),
    }
}

// What a query finds that joins lists. All terms are looked up before any outermost lists are joined, and one row in each line of memory of
// both lists is read in a loop of their own: so the processor waits for all of them at once.
fn find_by_joins<'a, L: Ledger>(
    alloc: Global,
    query: &Bound,
    searchers: &'a [Searcher],
    most: usize,
    steps: &mut Steps<L>,
) -> Result<Found<'a>, AllocError>
    requires terms { All HaveTerms searchers.now }
    requires few { length searchers.now ≤ 65536 }
    ensures found { IfOk result (HasFound (criterion_of query.now) most searchers.now) }
    ensures counted { steps.old ≤ steps.new }
    ensures bound { AreStepsOfSearches (criterion_of query.now) searchers.now (steps.new - steps.old) }
{
    let mut looked = Vec::with_capacity(alloc, searchers.len())?;
    for searcher in searchers {
        let unjoined = look_in(alloc, query, searcher, steps)?;
        looked.push(Looked { searcher, unjoined })?;
    }
    for waiting in looked.iter_mut() {
        waiting.unjoined.note_end();
    }
    let mut count: u64 = 0;
    let mut hits = Vec::with_capacity(alloc, searchers.len())?;
    for one in looked {
        let begun = one.unjoined.start(alloc, most)?;
        count += begun.count as u64;
        hits.push(Hits {
            searcher: one.searcher,
            numbers: begun.first,
        })?;
    }
    Ok(Found { count, hits })
}

// The numbers of a searcher's rows that the query finds, where the outermost join is not made yet. Where there are no rows, no term is
// looked up.
fn look_in<'a, L: Ledger>(
    alloc: Global,
    query: &Bound,
    searcher: &'a Searcher,
    steps: &mut Steps<L>,
) -> Result<Unjoined<'a>, AllocError>
    requires { HaveTerms searcher.now }
    ensures found { IfOk result (WillBeNumbersOf (finds searcher.now.range (criterion_of query.now)) (searcher_rows searcher.now)) }
    ensures rows { AreRows (searcher_rows searcher.now) }
    ensures counted { steps.old ≤ steps.new }
    ensures bound { AreStepsOfSearch (criterion_of query.now) (searcher_rows searcher.now) (steps.new - steps.old) }
{
    if searcher.snapshot.rows() == 0 {
        return Ok(Unjoined::One(Numbers::Lent(&[])));
    }
    look_up(alloc, query, &searcher.snapshot, &searcher.range, steps)
}

// What a query finds that joins no lists: of each searcher one list is looked up, and its start is lent.
fn find_at_once<'a, L: Ledger>(
    alloc: Global,
    query: &Bound,
    searchers: &'a [Searcher],
    most: usize,
    steps: &mut Steps<L>,
) -> Result<Found<'a>, AllocError>
    requires terms { All HaveTerms searchers.now }
    requires few { length searchers.now ≤ 65536 }
    ensures found { IfOk result (HasFound (criterion_of query.now) most searchers.now) }
    ensures counted { steps.old ≤ steps.new }
    ensures bound { AreStepsOfSearches (criterion_of query.now) searchers.now (steps.new - steps.old) }
{
    let mut count: u64 = 0;
    let mut hits = Vec::with_capacity(alloc, searchers.len())?;
    for searcher in searchers {
        let found = find_in(alloc, query, searcher, most, steps)?;
        count += found.count as u64;
        hits.push(Hits {
            searcher,
            numbers: found.first,
        })?;
    }
    Ok(Found { count, hits })
}

// How many of a searcher's rows the query finds, and the numbers of the first of them, `most` or all. Where there are no rows, no term is
// looked up.
fn find_in<'a, L: Ledger>(
    alloc: Global,
    query: &Bound,
    searcher: &'a Searcher,
    most: usize,
    steps: &mut Steps<L>,
) -> Result<Matches<'a>, AllocError>
    requires { HaveTerms searcher.now }
    ensures found { IfOk result (HasMatches (criterion_of query.now) most searcher.now) }
    ensures rows { AreRows (searcher_rows searcher.now) }
    ensures counted { steps.old ≤ steps.new }
    ensures bound { AreStepsOfSearch (criterion_of query.now) (searcher_rows searcher.now) (steps.new - steps.old) }
{
    if searcher.snapshot.rows() == 0 {
        return Ok(Matches {
            count: 0,
            first: Numbers::Lent(&[]),
        });
    }
    find(
        alloc,
        query,
        &searcher.snapshot,
        &searcher.range,
        most,
        steps,
    )
}
