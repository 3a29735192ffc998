//! `sc_replica`: a core keeps the newest write of each id, and its cells ascend by the ids' bytes.

ghost use Rattle.std.specs.Prelude.{◌≡◌, pos, ◌<ℤ◌, IfOk};
ghost use Rattle.std.specs.Arc.{arc_value};

use crate::support::{assert_same, assert_text};
use sc_record::{Cell, CoreId, Id, SliceId, Write};
use sc_replica::Replica;
use sc_ulog::Mode;
use std::alloc::{AllocError, Global};
use std::process::Abort;
use std::sync::Arc;
use std::test::Fail;

/// A timestamp of 1,000 milliseconds, as a version.
const VERSION: i64 = 1_048_576_000;

/// The first follower of slice 0, without cells.
fn follower(alloc: Global) -> Replica {
    let core = CoreId {
        slice: SliceId(0),
        replica: 2,
    };
    Replica::new(alloc, core, Mode::Active)
}

/// A deletion of the id.
fn deletion(alloc: Global, id: &str, version: i64) -> Result<Cell, Fail>
    requires { pos 0 <ℤ version }
    ensures { IfOk result (λ cell. (arc_value cell).version ≡ version) }
{
    let write = Write::deletion(alloc, Id::new(alloc, id)?, 0, version);
    Ok(Arc::new(alloc, write)?)
}

/// The version of the id's cell.
fn version_of(alloc: Global, core: &Replica, id: &str) -> Result<Option<i64>, Fail> {
    let id = Id::new(alloc, id)?;
    match core.cell(&id) {
        Some(cell) => Ok(Some(cell.version())),
        None => Ok(None),
    }
}

// A follower that is sent the versions v1, v0 and v1 of one id keeps v1.
#[test]
fn drops_the_older(rt: HostRuntime) -> Result<(), Fail> {
    let mut core = follower(rt.alloc());
    let kept = keeps_newest_of_three(&rt, rt.alloc(), &mut core);
    drop(core);
    kept
}

/// The core keeps the newest of three versions, and has no other id.
fn keeps_newest_of_three(rt: &impl Abort, alloc: Global, core: &mut Replica) -> Result<(), Fail> {
    keeps_newest(rt, alloc, core, VERSION + 1)?;
    keeps_newest(rt, alloc, core, VERSION)?;
    keeps_newest(rt, alloc, core, VERSION + 1)?;
    assert_same(rt, version_of(alloc, core, "abd")?, None);
    assert_same(rt, core.core().replica, 2);
    Ok(())
}

/// The core is sent a version of `abc`, and has the newest of those that it was sent.
fn keeps_newest(
    rt: &impl Abort,
    alloc: Global,
    core: &mut Replica,
    version: i64,
) -> Result<(), Fail>
    requires { pos 0 <ℤ version }
{
    core.reserve(1)?;
    core.receive(deletion(alloc, "abc", version)?);
    assert_same(rt, version_of(alloc, core, "abc")?, Some(VERSION + 1));
    assert_same(rt, core.clock(), VERSION + 1);
    assert_same(rt, core.cells().len(), 1);
    Ok(())
}

// Ids that are led and fed in another order ascend by their bytes.
#[test]
fn cells_ascend(rt: HostRuntime) -> Result<(), Fail> {
    let mut core = follower(rt.alloc());
    let kept = keeps_order(&rt, rt.alloc(), &mut core);
    drop(core);
    kept
}

/// The core has the ids that it is sent in the order of their bytes. The last is led, as a deletion that is newer than all it has.
fn keeps_order(rt: &impl Abort, alloc: Global, core: &mut Replica) -> Result<(), Fail> {
    feed_each(alloc, core, "m é b aa z a ma B b")?;
    core.reserve(1)?;
    let led = deletion(alloc, "c", VERSION + 1)?;
    assert!(rt; core.clock() < VERSION + 1);
    core.lead(led);
    assert_text(rt, ids_of(alloc, core)?.as_str(), "B a aa b c m ma z é ");
    Ok(())
}

/// Feeds the core a deletion of each of these ids.
fn feed_each(alloc: Global, core: &mut Replica, ids: &str) -> Result<(), Fail> {
    for id in ids.split(' ') {
        core.reserve(1)?;
        let write = deletion(alloc, id, VERSION)?;
        core.feed(write);
    }
    Ok(())
}

/// The ids of the core's cells, each before a space.
fn ids_of(alloc: Global, core: &Replica) -> Result<String, AllocError> {
    let mut ids = String::new(alloc);
    for cell in core.cells().share(alloc)?.as_slice() {
        ids.push_str(cell.id().as_str())?;
        ids.push_str(" ")?;
    }
    Ok(ids)
}
