ghost use Rattle.std.specs.Prelude.{◌≡◌, ◌+◌, ◌≤◌, List, length, map, take, drop, All, IfOk};
ghost use Rattle.std.specs.Arc.{arc_value};
ghost use Rattle.sc_record.specs.Writes.{Write};
ghost use Rattle.sc_eval.specs.Criteria.{criterion_of};
ghost use Rattle.sc_finding.specs.Lists.{AreFound, all_of};
ghost use Rattle.sc_fanout.specs.Pages.{IsPageOf};
ghost use Rattle.sc_bucket.specs.Taking.{lent};
ghost use Rattle.sc_finding.specs.Hits.{AreHits, lists_of};

use crate::ask::Ask;
use crate::shown::Page;
use sc_finding::{Hits, first_of_all};
use sc_record::{Cell, List};
use std::alloc::{AllocError, Global};
use std::marker::Brand;
use std::sync::Arc;
use std::sync::ledger::Blank;

/// The page that is asked for, of all that the searchers of these hits find, of which `found` is the count. Of each searcher no more
/// rows are read than the page can show, only the first where none comes in, and none where the page is empty; the documents of the page
/// alone are shared. The only error is that memory was refused.
pub(crate) fn page(alloc: Global, ask: &Ask, found: u64, all: &[Hits]) -> Result<Page, AllocError>
    requires counted { found ≡ length (all_of (lists_of (criterion_of ask.now.query) all.now)) }
    requires may_be { All AreFound (lists_of (criterion_of ask.now.query) all.now) }
    requires kept { All (AreHits (criterion_of ask.now.query) (ask.now.start + ask.now.rows)) all.now }
    ensures { IfOk result (IsPageOf (all_of (lists_of (criterion_of ask.now.query) all.now)) ask.now.start ask.now.rows) }
{
    let most = reach(ask, found);
    let room = most.min(found as usize);
    let kept = first_of_all::<Brand>(alloc, all, most, room, Blank::new(1))?;
    let docs = shared(alloc, between(kept.as_slice(), ask.start as usize, most))?;
    Ok(Page { found, docs })
}

// How many documents are merged: as many as are needed to show the page, and none where it is empty.
fn reach(ask: &Ask, found: u64) -> usize
    ensures few { result ≤ ask.now.start + ask.now.rows }
    ensures enough { (sorted : List Write) → length sorted ≡ found
        → drop ask.now.start (take result sorted) ≡ take ask.now.rows (drop ask.now.start sorted) }
{
    let start = ask.start;
    let rows = ask.rows;
    if rows == 0 || found <= u64::from(start) {
        0
    } else {
        start as usize + rows as usize
    }
}

// The cells from one place to another, or to the end.
fn between<'a>(cells: &'a [&'a Cell], from: usize, to: usize) -> &'a [&'a Cell]
    ensures { map lent result.now ≡ drop from (take to (map lent cells.now)) }
{
    let end = to.min(cells.len());
    let begin = from.min(end);
    &cells[begin..end]
}

// The cells, each shared, in a list that has room for just these.
fn shared(alloc: Global, cells: &[&Cell]) -> Result<List<Cell>, AllocError>
    ensures { IfOk result (λ docs. map arc_value docs ≡ map lent cells.now) }
{
    let mut docs = Vec::with_capacity(alloc, cells.len())?;
    for cell in cells {
        docs.push(Arc::try_clone(*cell)?)?;
    }
    Ok(List::from_vec(docs))
}
