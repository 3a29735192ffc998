//! How many entries a journal has still to get.

ghost use Rattle.std.specs.Prelude.{◌≡◌, ◌+◌, ◌≤◌, ◌<◌, ◌^◌, ℕ, [], None, IfOk, length, count_by, not, if◌then◌else◌};
ghost use Rattle.sc_cluster.specs.Slices.{forming, is_inactive};
ghost use Rattle.sc_journal.specs.Down.{is_down, follower_keys, count_up};
ghost use Rattle.sc_journal.specs.Legal.{IsLegal};
ghost use Rattle.sc_journal.specs.Splits.{open_split, owed};

use crate::map::map_after;
use crate::marks::{is_down, marks_among};
use crate::unsettled::unsettled_of;
use sc_cluster::{ClusterMap, Slice, State};
use sc_record::{CoreId, Entry};
use std::alloc::{AllocError, Global};

/// How many entries a journal in which no split is open has still to get, whose first map is this: by it a caller knows what limit a bucket
/// of it needs. An error means out of memory.
pub fn owed_after(alloc: Global, map: &ClusterMap, entries: &[Entry]) -> Result<u64, AllocError>
    requires idle { forming map.now ≡ [] }
    requires legal { IsLegal map.now entries.now }
    requires ended { open_split entries.now ≡ None }
    requires few { length entries.now ≤ 2 ^ 24 }
    ensures { IfOk result (λ count. count ≡ owed map.now entries.now) }
{
    let slices = map_after(alloc, map, entries)?;
    let unsettled = unsettled_of(alloc, entries)?;
    let marks = marks_among(alloc, entries)?;
    Ok(owed_by(&slices, marks.as_slice(), unsettled.len() as u64))
}

/// How many entries the journal has still to get where no split is open, by its map, by its entries of cores, and by how many of its writes
/// are not settled.
pub(crate) fn owed_by(map: &ClusterMap, marks: &[Entry], unsettled: u64) -> u64
    requires { unsettled ≤ 2 ^ 24 }
    ensures { result ≡ unsettled + (count_by is_inactive map.now + count_up map.now marks.now) }
{
    let mut owed = unsettled;
    for at in 0..map.len() {
        owed += owed_of(map.get(at).unwrap(), marks);
    }
    owed
}

// How many of them are of a slice: one that drops it, where it is inactive, else one of each follower that is not down.
fn owed_of(slice: &Slice, marks: &[Entry]) -> u64
    ensures count { result ≡ (if is_inactive slice.now then 1
        else count_by (λ (key : ℕ × ℕ). not (is_down marks.now key)) (follower_keys slice.now)) }
    ensures few { result < 256 }
{
    if slice.state == State::Inactive {
        1
    } else {
        followers_up(slice, marks)
    }
}

// How many followers of the slice are not down.
fn followers_up(slice: &Slice, marks: &[Entry]) -> u64
    ensures count { result ≡ count_by (λ (key : ℕ × ℕ). not (is_down marks.now key)) (follower_keys slice.now) }
    ensures few { result < 256 }
{
    let mut up = 0;
    for below in 0..slice.replicas - 1 {
        let seat = CoreId {
            slice: slice.id,
            replica: below + 2,
        };
        if !is_down(marks, seat) {
            up += 1;
        }
    }
    up
}
