ghost use Rattle.std.specs.Prelude.{◌≡◌, ◌+◌, ◌≤◌, [], length, All};
ghost use Rattle.sc_snapshot.specs.Rows.{AreRows};
ghost use Rattle.sc_replicas.specs.Searchers.{searcher_rows};
ghost use Rattle.sc_replicas.specs.declared.standing.Searcher.{Searcher};
ghost use Rattle.sc_seen.specs.Moments.{view_of};
ghost use Rattle.sc_collection.specs.Desks.{nothing_out, IsDeskAtRest};
ghost use Rattle.sc_collection.specs.Kept.{trail_room};
ghost use Rattle.sc_fanout.specs.Searches.{SearchesBuckets};

use crate::ask::Ask;
use crate::pages::page;
use crate::shown::Page;
use sc_collection::{Desk, Trail, take_searchers};
use sc_finding::{find_in_parts, parts_for};
use sc_replicas::Searcher;
use std::alloc::{AllocError, Global};
use std::thread::Threads;

/// Searches all buckets: first of each bucket, one after another, the searchers that the route asks for are taken, in one hold, whose
/// stop is kept. The query's terms are looked up in them once all buckets were given back, in parts at once where that is worth threads.
/// What is found is counted, and of each searcher only as many numbers of rows are kept as the page can show; these rows are merged by
/// id, and the page is cut from them. It waits for the threads of its parts alone, and for none where there is one part. The only error
/// is that memory was refused; the stops up to then are kept.
pub fn search<R: Threads + Sync, D: Desk>(
    rt: &R,
    alloc: Global,
    desk: &mut D,
    trail: &mut Trail,
    ask: &Ask,
) -> Result<Page, AllocError>
    requires nothing_out { D.out desk.old ≡ nothing_out }
    requires room { length trail.old.stops + (D.layout desk.old).buckets ≤ trail_room }
    ensures searched { SearchesBuckets (D.layout desk.old) (view_of (D.seen desk.old) trail.old.stops) (view_of (D.seen desk.new) trail.new.stops) ask.now result }
    ensures layout { D.layout desk.new ≡ D.layout desk.old }
    ensures rest { IsDeskAtRest (D.layout desk.new) (D.out desk.new) (D.seen desk.new) }
    ensures requests { trail.new.requests ≡ trail.old.requests }
{
    let most = ask.start as usize + ask.rows as usize;
    let mut searchers = with_room(alloc, desk.buckets());
    for b in 0..desk.buckets() {
        take_searchers(desk, trail, b, &ask.route, &mut searchers)?;
    }
    let parts = parts_for(rows_of(searchers.as_slice()));
    let found = find_in_parts(rt, alloc, &ask.query, searchers.as_slice(), most, parts)?;
    page(alloc, ask, found.count, found.hits.as_slice())
}

// No searchers, and room for so many, where there is memory for it.
fn with_room(alloc: Global, count: u32) -> Vec<Searcher>
    ensures { result.items ≡ [] }
{
    match Vec::with_capacity(alloc, count as usize) {
        Ok(searchers) => searchers,
        Err(_) => Vec::new(alloc),
    }
}

// How many rows the searchers have in all, or 2^64 - 1 where there are more.
fn rows_of(searchers: &[Searcher]) -> u64
    ensures { All (λ (searcher : Searcher). AreRows (searcher_rows searcher)) searchers.now }
{
    let mut rows: u64 = 0;
    for searcher in searchers {
        rows = rows.saturating_add(u64::from(searcher.snapshot.rows()));
    }
    rows
}
