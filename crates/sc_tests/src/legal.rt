//! `sc_legal`: for each kind of entry where it may come and where it may not.

ghost use Rattle.std.specs.Prelude.{IfOk, All};
ghost use Rattle.sc_journal.specs.Computed.{HasComputed};

use crate::support::assert_line;
use sc_cluster::ClusterMap;
use sc_legal::check_all;
use sc_record::{CoreId, Entry, Id, List, SliceId, SubSlice, Text, Write};
use sc_router::route_hash;
use std::alloc::Global;
use std::process::Abort;
use std::sync::Arc;
use std::test::Fail;

// Journals of a bucket with one slice of two replicas, and after an arrow whether they are legal, or the place of the entry that may not
// come there.
fn journals() -> &'static str {
    "committed -> legal
write a 5 -> legal
write a 5, write a 5 -> 1
write a 5, write a 4 -> 1
write a 5, write a 6 -> legal
write a 5, write b 5 -> legal
write a 4611686018426339329 -> legal
write a 4611686018426339330 -> 0
write b 5, write a 4611686018426339330 -> legal
write a 5, settled 0 -> legal
settled 0 -> 0
committed, settled 0 -> 1
write a 5, settled 1 -> 1
write a 5, settled 0, settled 0 -> 2
begun 1 -> legal
begun 2 -> 0
begun 1, begun 1 -> 1
begun 1, write a 5, switched 0 -> legal
switched 0 -> 0
begun 1, switched 1 -> 1
begun 1, switched 0, switched 0 -> 2
begun 1, failed 0 -> legal
failed 0 -> 0
begun 1, failed 0, failed 0 -> 2
begun 1, failed 0, begun 1 -> legal
begun 1, switched 0, dropped 0 -> legal
dropped 0 -> 0
begun 1, dropped 0 -> 1
begun 1, switched 0, dropped 1 -> 2
begun 1, switched 0, dropped 0, dropped 0 -> 3
down 0 2 -> legal
down 0 1 -> 0
down 0 3 -> 0
down 1 2 -> 0
down 0 2, down 0 2 -> 1
begun 1, down 1 2 -> 1
begun 1, switched 0, down 1 2, down 2 2 -> legal
down 0 2, up 0 2 -> legal
up 0 2 -> 0
down 0 2, up 0 2, up 0 2 -> 2
down 0 2, begun 1, up 0 2 -> 2
led 0 2 -> legal
led 0 2, led 0 2 -> 1
led 0 2, up 0 2, led 0 2 -> legal
down 0 2, led 0 2 -> 1
begun 1, led 0 2 -> 1"
}

// A number that is written out.
fn number_of(text: &str) -> Result<u32, Fail> {
    Ok(text.parse::<u32>().ok().ok_or("a number is meant")?)
}

// The deletion of an id under a version.
fn write_of(alloc: Global, text: &str) -> Result<Entry, Fail>
    ensures { IfOk result HasComputed }
{
    let (id, version) = text.split_once(' ').ok_or("an id and a version are meant")?;
    let version = version.parse::<i64>().ok().ok_or("a version is meant")?;
    if version <= 0 {
        Err("a version is above 0")?;
    }
    let id = Id::new(alloc, id)?;
    let hash = route_hash(id.as_str());
    let write = Write::deletion(alloc, id, hash, version);
    Ok(Entry::Write(Arc::new(alloc, write)?))
}

// The two halves of the slice, as a split makes them that gives them this id and the next.
fn halves(alloc: Global, first: u32) -> Result<List<SubSlice>, Fail> {
    let mut subs = List::new(alloc);
    let name = Text::new(alloc, "shard1_0")?;
    subs.push(SubSlice {
        id: SliceId(first),
        name,
        min: i32::MIN,
        max: -1,
        replicas: 2,
        node: 1,
    })?;
    let name = Text::new(alloc, "shard1_1")?;
    subs.push(SubSlice {
        id: SliceId(first.wrapping_add(1)),
        name,
        min: 0,
        max: i32::MAX,
        replicas: 2,
        node: 1,
    })?;
    Ok(subs)
}

// The core of a slice and a replica.
fn core_of(text: &str) -> Result<CoreId, Fail> {
    let (slice, replica) = text
        .split_once(' ')
        .ok_or("a slice and a replica are meant")?;
    let replica = replica.parse::<u8>().ok().ok_or("a replica is meant")?;
    if replica == 0 {
        Err("a replica is counted from 1")?;
    }
    Ok(CoreId {
        slice: SliceId(number_of(slice)?),
        replica,
    })
}

// An entry of a slice alone.
fn entry_of_slice(kind: &str, slice: SliceId) -> Result<Entry, Fail>
    ensures { IfOk result HasComputed }
{
    match kind {
        "switched" => Ok(Entry::Switched { parent: slice }),
        "failed" => Ok(Entry::Failed { parent: slice }),
        "dropped" => Ok(Entry::Dropped { slice }),
        _ => Err("an entry is meant")?,
    }
}

// An entry of a core.
fn entry_of_core(kind: &str, core: CoreId) -> Result<Entry, Fail>
    ensures { IfOk result HasComputed }
{
    match kind {
        "down" => Ok(Entry::Down { core }),
        "up" => Ok(Entry::Up { core }),
        _ => Ok(Entry::Led { core }),
    }
}

// The entry that a text means: its kind, and what that asks for.
fn entry_of(alloc: Global, text: &str) -> Result<Entry, Fail>
    ensures { IfOk result HasComputed }
{
    let (kind, rest) = text.split_once(' ').unwrap_or((text, ""));
    match kind {
        "committed" => Ok(Entry::Committed),
        "write" => write_of(alloc, rest),
        "settled" => Ok(Entry::Settled {
            place: u64::from(number_of(rest)?),
        }),
        "begun" => Ok(Entry::Begun {
            parent: SliceId(0),
            subs: halves(alloc, number_of(rest)?)?,
        }),
        "down" | "up" | "led" => entry_of_core(kind, core_of(rest)?),
        _ => entry_of_slice(kind, SliceId(number_of(rest)?)),
    }
}

// The entries that a line means.
fn entries_of(alloc: Global, line: &str) -> Result<Vec<Entry>, Fail>
    ensures { IfOk result (λ entries. All HasComputed entries.items) }
{
    let mut entries = Vec::new(alloc);
    for text in line.split(", ") {
        entries.push(entry_of(alloc, text)?)?;
    }
    Ok(entries)
}

// What the journal of a line is found to be.
fn said_of(alloc: Global, line: &str) -> Result<String, Fail> {
    let map = ClusterMap::new(alloc, 1, 2, 1)?;
    let entries = entries_of(alloc, line)?;
    match check_all(alloc, &map, entries.as_slice())? {
        None => Ok(String::from_str(alloc, "legal")?),
        Some(place) => Ok(format!(in alloc; "{place}")?),
    }
}

// The journal before the arrow is what stands after it.
fn assert_says(rt: &impl Abort, alloc: Global, line: &str) -> Result<(), Fail> {
    let (entries, wanted) = line.split_once(" -> ").unwrap_or((line, ""));
    assert_line(rt, line, said_of(alloc, entries)?.as_str(), wanted);
    Ok(())
}

#[test]
fn each_entry_comes_where_it_may(rt: HostRuntime) -> Result<(), Fail> {
    for line in journals().lines() {
        assert_says(&rt, rt.alloc(), line)?;
    }
    Ok(())
}
