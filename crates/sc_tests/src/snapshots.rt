//! `sc_snapshot`: the rows of a snapshot in a range of hashes.

use crate::support::assert_same;
use sc_hash::Range;
use sc_record::{Cell, CoreId, Doc, Id, SliceId, TermsBuilder, Write};
use sc_replica::Replica;
use sc_snapshot::Snapshot;
use sc_ulog::Mode;
use std::alloc::Global;
use std::process::Abort;
use std::sync::Arc;
use std::test::Fail;

/// A write of the id: a document without fields and terms, or a deletion.
fn write(alloc: Global, id: &str, hash: i32, live: bool) -> Result<Cell, Fail> {
    let id = Id::new(alloc, id)?;
    if !live {
        let gone = Write::deletion(alloc, id, hash, 1);
        return Ok(Arc::new(alloc, gone)?);
    }
    let doc = Doc::new(alloc, &[])?;
    let terms = TermsBuilder::new(alloc, &id, &doc).finish();
    let write = Write::new(alloc, id, hash, 1, &doc, &terms)?;
    Ok(Arc::new(alloc, write)?)
}

/// Feeds the core a write.
fn feed(replica: &mut Replica, write: Cell) -> Result<(), Fail> {
    replica.reserve(1)?;
    replica.feed(write);
    Ok(())
}

/// Feeds the core three writes: of documents `a` and `c`, and of `b`, which was deleted. Their hashes are 1, 3 and 2.
fn feed_three(alloc: Global, replica: &mut Replica) -> Result<(), Fail> {
    feed(replica, write(alloc, "c", 3, true)?)?;
    feed(replica, write(alloc, "b", 2, false)?)?;
    feed(replica, write(alloc, "a", 1, true)?)
}

/// The snapshot of the core's cells, of which there are three.
fn whole(rt: &impl Abort, alloc: Global, replica: &Replica) -> Result<Snapshot, Fail> {
    let cells = replica.cells().share(alloc)?;
    assert!(rt; cells.len() == 3);
    let whole = Snapshot::of(alloc, 3, &cells);
    drop(cells);
    Ok(whole?)
}

/// The rows of the core whose hashes are 2 and 3, once it was fed the three writes.
fn part_of(rt: &impl Abort, alloc: Global, replica: &mut Replica) -> Result<Snapshot, Fail> {
    feed_three(alloc, replica)?;
    let whole = whole(rt, alloc, replica)?;
    let part = whole.within(alloc, &Range { min: 2, max: 3 });
    drop(whole);
    Ok(part?)
}

/// These rows of such a core.
fn part(rt: &impl Abort, alloc: Global) -> Result<Snapshot, Fail> {
    let core = CoreId {
        slice: SliceId(0),
        replica: 1,
    };
    let mut replica = Replica::new(alloc, core, Mode::Active);
    let part = part_of(rt, alloc, &mut replica);
    drop(replica);
    part
}

/// Two rows are there, of which the first is a deletion, between the hashes of both.
fn assert_part(rt: &impl Abort, part: &Snapshot) {
    assert_same(rt, part.place(), 3);
    assert_eq!(rt; part.rows(), 2);
    assert!(rt; !part.is_live(0) && part.is_live(1));
    assert_same(rt, part.live(), &[1]);
    assert_same(rt, part.least_hash(), 2);
    assert_same(rt, part.greatest_hash(), 3);
}

#[test]
fn a_part_has_the_rows_of_its_range(rt: HostRuntime) -> Result<(), Fail> {
    let part = part(&rt, rt.alloc())?;
    assert_part(&rt, &part);
    drop(part);
    Ok(())
}
