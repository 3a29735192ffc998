ghost use Rattle.std.specs.Prelude.{◌≡◌, ◌<◌, ◌∷◌, List, length, map, not, All, IfOk, vec_len};
ghost use Rattle.sc_record.specs.Writes.{Write};
ghost use Rattle.sc_keys.specs.Fresh.{IsFresh};
ghost use Rattle.sc_finding.specs.Lists.{AreFound, IsStartOf, all_of};
ghost use Rattle.sc_finding.specs.Merging.{gathered, goes_before};
ghost use Rattle.sc_replicas.specs.Searchers.{searcher_rows};
ghost use Rattle.sc_snapshot.specs.Rows.{lent};
ghost use Rattle.sc_finding.specs.Hits.{BeginAlike, FrontAscends, HitsAscend, IsLeast, LeadAscends, front_rows, hit_rows, lead_left, lead_rows, leads_of, lent_in, rows_numbered, rows_left};

use crate::hits::{Front, Hits, Lead};
use sc_keys::{Steps, front_number};
use sc_record::Cell;
use sc_replicas::Searcher;
use std::alloc::{AllocError, Global};
use std::sync::ledger::{Blank, Ledger};

/// The first documents, `most` or all, of all of which the hits have the first `most`. Each is the least of the first rows that the
/// searchers have left: so of a searcher one row is read, and one more for each that is taken, but none where none is asked for. No
/// document is shared, only what lends it is copied. Room for so many of these is made at once.
pub fn first_of_all<'a, L: Ledger>(
    alloc: Global,
    all: &[Hits<'a>],
    most: usize,
    room: usize,
    blank: Blank,
) -> Result<Vec<&'a Cell>, AllocError>
    requires fresh { IsFresh blank L.name L.parts }
    requires ascend { All HitsAscend all.now }
    ensures { IfOk result (λ kept. (wholes : List (List Write)) → All AreFound wholes → BeginAlike most wholes (map hit_rows all.now)
        → IsStartOf (all_of wholes) most (lent_in kept)) }
{
    let mut kept = Vec::with_capacity(alloc, room)?;
    if most == 0 {
        return Ok(kept);
    }
    let mut steps = Steps::<L>::new(blank);
    let mut fronts = fronts_of(alloc, all, &mut steps)?;
    'taking: while kept.len() < most && !fronts.is_empty() {
        let row = take_first(&mut fronts, &mut steps);
        kept.push(row)?;
    }
    Ok(kept)
}

// The fronts of the hits that have rows. All first rows are found before the id of any is read, and all ids are read before any are
// compared: so the processor waits for several of them at once.
fn fronts_of<'a, 'b, L: Ledger>(
    alloc: Global,
    all: &'b [Hits<'a>],
    steps: &mut Steps<L>,
) -> Result<Vec<Front<'a, 'b>>, AllocError>
    requires { All HitsAscend all.now }
    ensures rows { IfOk result (λ fronts. gathered goes_before (map front_rows fronts.items) ≡ gathered goes_before (map hit_rows all.now)) }
    ensures ascend { IfOk result (λ fronts. All FrontAscends fronts.items) }
{
    let leads = leads_in(alloc, all, steps)?;
    let fronts = with_heads(alloc, leads.as_slice())?;
    Ok(fronts)
}

// The leads of the hits that have rows.
fn leads_in<'a, 'b, L: Ledger>(
    alloc: Global,
    all: &'b [Hits<'a>],
    steps: &mut Steps<L>,
) -> Result<Vec<Lead<'a, 'b>>, AllocError>
    requires { All HitsAscend all.now }
    ensures rows { IfOk result (λ leads. gathered goes_before (map lead_rows leads.items) ≡ gathered goes_before (map hit_rows all.now)) }
    ensures ascend { IfOk result (λ leads. All LeadAscends leads.items) }
{
    let mut leads = Vec::with_capacity(alloc, all.len())?;
    for hits in all {
        let lead = lead_at(hits.searcher, hits.numbers.as_slice(), steps);
        if let Some(lead) = lead {
            leads.push(lead)?;
        }
    }
    Ok(leads)
}

// The fronts of these leads.
fn with_heads<'a, 'b>(
    alloc: Global,
    leads: &[Lead<'a, 'b>],
) -> Result<Vec<Front<'a, 'b>>, AllocError>
    requires { All LeadAscends leads.now }
    ensures rows { IfOk result (λ fronts. map front_rows fronts.items ≡ map lead_rows leads.now) }
    ensures ascend { IfOk result (λ fronts. All FrontAscends fronts.items) }
{
    let mut fronts = Vec::with_capacity(alloc, leads.len())?;
    for lead in leads {
        fronts.push(front_of(*lead))?;
    }
    Ok(fronts)
}

// The lead at the first of these numbers that a row has, if one has.
fn lead_at<'a, 'b, L: Ledger>(
    searcher: &'a Searcher,
    numbers: &'b [u32],
    steps: &mut Steps<L>,
) -> Option<Lead<'a, 'b>>
    ensures { lead_left result ≡ rows_numbered (searcher_rows searcher.now) numbers.now }
{
    for at in 0..numbers.len() {
        if let Some(row) = searcher.snapshot.row(numbers[at], steps) {
            return Some(Lead {
                searcher,
                row,
                write: row,
                rest: &numbers[at + 1..],
            });
        }
    }
    None
}

// The front of a lead.
fn front_of<'a, 'b>(lead: Lead<'a, 'b>) -> Front<'a, 'b>
    ensures { front_rows result ≡ lead_rows lead.entry }
{
    Front {
        searcher: lead.searcher,
        lead: lead.row,
        head: front_number(lead.write.id().as_str().as_bytes()),
        rest: lead.rest,
    }
}

// The front at the first of these numbers that a row has, if one has.
fn front_at<'a, 'b, L: Ledger>(
    searcher: &'a Searcher,
    numbers: &'b [u32],
    steps: &mut Steps<L>,
) -> Option<Front<'a, 'b>>
    ensures { rows_left result ≡ rows_numbered (searcher_rows searcher.now) numbers.now }
{
    match lead_at(searcher, numbers, steps) {
        Some(lead) => Some(front_of(lead)),
        None => None,
    }
}

// Takes the least of the first rows of these fronts, of which there is one. A front that has no more rows is left out from then on.
fn take_first<'a, 'b, L: Ledger>(fronts: &mut Vec<Front<'a, 'b>>, steps: &mut Steps<L>) -> &'a Cell
    requires some { 0 < vec_len fronts.old }
    requires ascend { All FrontAscends fronts.old.items }
    ensures first { gathered goes_before (map front_rows fronts.old.items)
        ≡ lent result ∷ gathered goes_before (map front_rows fronts.new.items) }
    ensures ascend { All FrontAscends fronts.new.items }
{
    let at = least(fronts.as_slice());
    let front = fronts[at];
    match front_at(front.searcher, front.rest, steps) {
        Some(next) => fronts[at] = next,
        None => {
            let _ended = fronts.remove(at);
        }
    }
    front.lead
}

// Where the least of the first rows stands, the first of them where several are.
fn least(fronts: &[Front<'_, '_>]) -> usize
    requires { 0 < length fronts.now }
    ensures within { result < length fronts.now }
    ensures least { IsLeast (leads_of fronts.now) (length fronts.now) result }
{
    let mut least = 0;
    for at in 1..fronts.len() {
        if is_before(&fronts[at], &fronts[least]) {
            least = at;
        }
    }
    least
}

// Whether the first row of a front is less than that of another. Their ids are compared only where they begin alike.
#[inline(always)]
fn is_before(one: &Front<'_, '_>, other: &Front<'_, '_>) -> bool
    ensures { result ≡ not (goes_before (lent other.now.lead) (lent one.now.lead)) }
{
    if one.head == other.head {
        one.lead.id() < other.lead.id()
    } else {
        one.head < other.head
    }
}
