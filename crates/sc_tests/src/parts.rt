//! `sc_finding`: a search in several parts finds what it finds in one.

ghost use Rattle.std.specs.Prelude.{◌≡◌, ◌≤◌, length, All, IfOk};
ghost use Rattle.std.specs.Arc.{arc_value};
ghost use Rattle.sc_journal.specs.Legal.{HasTerms};
ghost use Rattle.sc_finding.specs.SearcherRows.{HaveTerms};

use crate::support::assert_same;
use sc_eval::Bound;
use sc_finding::{Found, find_in_parts};
use sc_hash::Range;
use sc_record::{Cell, Doc, Id, List, Term, Write};
use sc_replicas::Searcher;
use sc_schema::terms_of;
use sc_snapshot::{Snapshot, TermKey};
use std::alloc::{AllocError, Global};
use std::process::Abort;
use std::sync::Arc;
use std::test::Fail;
use std::thread::Threads;

// A document of its id alone.
fn document(alloc: Global, id: &str) -> Result<Cell, AllocError>
    ensures { IfOk result (λ cell. HasTerms (arc_value cell).id (arc_value cell).doc (arc_value cell).terms) }
{
    let Ok(id) = Id::new(alloc, id) else {
        return Err(AllocError);
    };
    let doc = Doc::new(alloc, &[])?;
    let terms = terms_of(alloc, &id, &doc)?;
    let write = Write::new(alloc, id, 0, 1, &doc, &terms)?;
    Ok(Arc::new(alloc, write)?)
}

// The snapshot of this document alone.
fn snapshot(alloc: Global, id: &str) -> Result<Snapshot, AllocError>
    ensures { IfOk result (λ snapshot. All (λ row. HasTerms row.id row.doc row.terms) snapshot.rows) }
{
    let mut cells = List::new(alloc);
    cells.push(document(alloc, id)?)?;
    Snapshot::from_list(alloc, 1, cells)
}

// A searcher of this document alone.
fn searcher(alloc: Global, id: &str) -> Result<Searcher, AllocError>
    ensures { IfOk result HaveTerms }
{
    let snapshot = Arc::new(alloc, snapshot(alloc, id)?)?;
    Ok(Searcher {
        next: 0,
        range: Range {
            min: i32::MIN,
            max: i32::MAX,
        },
        snapshot,
    })
}

// Four searchers of one document each: `a`, `b`, `c` and `d`.
fn searchers(alloc: Global) -> Result<Vec<Searcher>, AllocError>
    ensures terms { IfOk result (λ searchers. All HaveTerms searchers.items) }
    ensures few { IfOk result (λ searchers. length searchers.items ≤ 4) }
{
    let mut searchers = Vec::new(alloc);
    searchers.push(searcher(alloc, "a")?)?;
    searchers.push(searcher(alloc, "b")?)?;
    searchers.push(searcher(alloc, "c")?)?;
    searchers.push(searcher(alloc, "d")?)?;
    Ok(searchers)
}

// The first term that the write is found by.
fn first_term(alloc: Global, write: &Write) -> Result<Term, AllocError> {
    match write.terms().next() {
        Some(term) => term.to_term(alloc),
        None => Err(AllocError),
    }
}

// Each document but `b`.
fn all_but_b(alloc: Global) -> Result<Bound, AllocError> {
    let b = document(alloc, "b")?;
    let term = first_term(alloc, &b)?;
    let key = TermKey::of(&term)?;
    Ok(Bound::Not(Box::new(alloc, Bound::Leaf(key))?))
}

// Of each searcher but the second one its document is found.
fn assert_found(rt: &impl Abort, found: &Found) {
    assert_same(rt, found.count, 3);
    assert_same(rt, found.hits.len(), 4);
    for at in 0..found.hits.len() {
        let wanted: &[u32] = if at == 1 { &[] } else { &[0] };
        assert_same(rt, found.hits[at].numbers.as_slice(), wanted);
    }
}

// The same in so many parts.
fn find_in<R: Threads + Sync + Abort>(
    rt: &R,
    alloc: Global,
    query: &Bound,
    searchers: &[Searcher],
    parts: usize,
) -> Result<(), AllocError>
    requires terms { All HaveTerms searchers.now }
    requires few { length searchers.now ≤ 4 }
    requires parts { 1 ≤ parts }
{
    let found = find_in_parts(rt, alloc, query, searchers, 10, parts)?;
    assert_found(rt, &found);
    drop(found);
    Ok(())
}

#[test]
fn parts_find_what_one_part_finds(rt: HostRuntime) -> Result<(), Fail> {
    let searchers = searchers(rt.alloc())?;
    let query = all_but_b(rt.alloc())?;
    for parts in 1..6 {
        find_in(&rt, rt.alloc(), &query, searchers.as_slice(), parts)?;
    }
    drop(query);
    drop(searchers);
    Ok(())
}
