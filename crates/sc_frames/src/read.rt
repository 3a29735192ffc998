ghost use Rattle.std.specs.Prelude.{◌≡◌, ◌≤◌, ◌<◌, length, IfOk, List, map, All};
ghost use Rattle.sc_frames.specs.Stored.{Stored, stored, stored_sub, switched, failed, dropped, down, up, led};
ghost use Rattle.sc_frames.specs.Entries.{AreEntries};
ghost use Rattle.sc_journal.specs.Computed.{HasComputed};
ghost use Rattle.sc_frames.specs.Reading.{Gives, core_at, entry_at, place_at, seat_at, slice_at, split_at, sub_at, subs_at, write_at};
ghost use Rattle.sc_spelling.specs.Reading.{number_at};
ghost use Rattle.std.specs.Int.{w32};

use crate::fault::BodyFault;
use crate::number::{byte_of, text_of, u32_of, u64_of};
use crate::write::write_of;
use sc_record::{CoreId, Entry, List, SliceId, SubSlice, Text};
use std::alloc::Global;
use std::sync::Arc;

/// The entries that the bytes are, one or more, with their hashes and terms computed.
pub fn read_body(alloc: Global, body: &[u8]) -> Result<List<Entry>, BodyFault>
    ensures found { IfOk result (λ entries. AreEntries body.now (map stored entries)) }
    ensures computed { IfOk result (All HasComputed) }
    ensures refused { result ≡ Err BodyFault.NotEntries → (entries : List Stored) → AreEntries body.now entries → ⊥ }
{
    if body.is_empty() {
        return Err(BodyFault::NotEntries);
    }
    let mut entries = List::new(alloc);
    let mut rest = body;
    while !rest.is_empty() {
        let (entry, after) = entry_of(alloc, rest)?;
        entries.push(entry)?;
        rest = after;
    }
    Ok(entries)
}

// The entry that the bytes begin with, and the bytes after it.
#[tactic(auto, unfolding(crate::specs::Reading::entry_at))]
fn entry_of(alloc: Global, bytes: &[u8]) -> Result<(Entry, &[u8]), BodyFault>
    ensures read { Gives (λ x. (stored x.0, x.1.now)) result (entry_at bytes.now) }
    ensures computed { IfOk result (λ x. HasComputed x.0) }
{
    let (kind, rest) = byte_of(bytes)?;
    match kind {
        1 => cell_of(alloc, true, rest),
        2 => cell_of(alloc, false, rest),
        3 => place_of(rest),
        4 => Ok((Entry::Committed, rest)),
        5 => split_of(alloc, rest),
        6 => switched_of(rest),
        7 => failed_of(rest),
        8 => dropped_of(rest),
        9 => down_of(rest),
        10 => up_of(rest),
        11 => led_of(rest),
        _ => Err(BodyFault::NotEntries),
    }
}

// A write, with or without a document.
fn cell_of(alloc: Global, has_doc: bool, bytes: &[u8]) -> Result<(Entry, &[u8]), BodyFault>
    ensures read { Gives (λ x. (stored x.0, x.1.now)) result (write_at has_doc bytes.now) }
    ensures computed { IfOk result (λ x. HasComputed x.0) }
{
    let (write, rest) = write_of(alloc, has_doc, bytes)?;
    let cell = Arc::new(alloc, write)?;
    Ok((Entry::Write(cell), rest))
}

// An entry that settles a write.
fn place_of(bytes: &[u8]) -> Result<(Entry, &[u8]), BodyFault>
    ensures read { Gives (λ x. (stored x.0, x.1.now)) result (place_at bytes.now) }
    ensures computed { IfOk result (λ x. HasComputed x.0) }
{
    let (place, rest) = u64_of(bytes)?;
    Ok((Entry::Settled { place }, rest))
}

// A split that took its parent's place.
fn switched_of(bytes: &[u8]) -> Result<(Entry, &[u8]), BodyFault>
    ensures read { Gives (λ x. (stored x.0, x.1.now)) result (slice_at switched bytes.now) }
    ensures computed { IfOk result (λ x. HasComputed x.0) }
{
    let (slice, rest) = slice_of(bytes)?;
    Ok((Entry::Switched { parent: slice }, rest))
}

// A split that ended.
fn failed_of(bytes: &[u8]) -> Result<(Entry, &[u8]), BodyFault>
    ensures read { Gives (λ x. (stored x.0, x.1.now)) result (slice_at failed bytes.now) }
    ensures computed { IfOk result (λ x. HasComputed x.0) }
{
    let (slice, rest) = slice_of(bytes)?;
    Ok((Entry::Failed { parent: slice }, rest))
}

// A slice that is gone.
fn dropped_of(bytes: &[u8]) -> Result<(Entry, &[u8]), BodyFault>
    ensures read { Gives (λ x. (stored x.0, x.1.now)) result (slice_at dropped bytes.now) }
    ensures computed { IfOk result (λ x. HasComputed x.0) }
{
    let (slice, rest) = slice_of(bytes)?;
    Ok((Entry::Dropped { slice }, rest))
}

// A core that is down.
fn down_of(bytes: &[u8]) -> Result<(Entry, &[u8]), BodyFault>
    ensures read { Gives (λ x. (stored x.0, x.1.now)) result (core_at down bytes.now) }
    ensures computed { IfOk result (λ x. HasComputed x.0) }
{
    let (core, rest) = core_of(bytes)?;
    Ok((Entry::Down { core }, rest))
}

// A core that is fed anew.
fn up_of(bytes: &[u8]) -> Result<(Entry, &[u8]), BodyFault>
    ensures read { Gives (λ x. (stored x.0, x.1.now)) result (core_at up bytes.now) }
    ensures computed { IfOk result (λ x. HasComputed x.0) }
{
    let (core, rest) = core_of(bytes)?;
    Ok((Entry::Up { core }, rest))
}

// A core that leads.
fn led_of(bytes: &[u8]) -> Result<(Entry, &[u8]), BodyFault>
    ensures read { Gives (λ x. (stored x.0, x.1.now)) result (core_at led bytes.now) }
    ensures computed { IfOk result (λ x. HasComputed x.0) }
{
    let (core, rest) = core_of(bytes)?;
    Ok((Entry::Led { core }, rest))
}

// The name of a slice.
fn slice_of(bytes: &[u8]) -> Result<(SliceId, &[u8]), BodyFault>
    ensures { Gives (λ x. (x.0.0, x.1.now)) result (number_at w32 bytes.now) }
{
    let (number, rest) = u32_of(bytes)?;
    Ok((SliceId(number), rest))
}

// The name of a core, whose replica is counted from 1.
#[tactic(auto, unfolding(crate::specs::Reading::seat_at))]
fn core_of(bytes: &[u8]) -> Result<(CoreId, &[u8]), BodyFault>
    ensures { Gives (λ x. ((x.0.slice.0, x.0.replica), x.1.now)) result (seat_at bytes.now) }
{
    let (slice, rest) = slice_of(bytes)?;
    let (replica, rest) = byte_of(rest)?;
    if replica == 0 {
        return Err(BodyFault::NotEntries);
    }
    Ok((CoreId { slice, replica }, rest))
}

// The beginning of a split.
#[tactic(auto, unfolding(crate::specs::Reading::split_at))]
fn split_of(alloc: Global, bytes: &[u8]) -> Result<(Entry, &[u8]), BodyFault>
    ensures read { Gives (λ x. (stored x.0, x.1.now)) result (split_at bytes.now) }
    ensures computed { IfOk result (λ x. HasComputed x.0) }
{
    let (parent, rest) = u32_of(bytes)?;
    let (count, rest) = u32_of(rest)?;
    let (subs, rest) = subs_of(alloc, count, rest)?;
    let parent = SliceId(parent);
    Ok((Entry::Begun { parent, subs }, rest))
}

// So many slices that a split makes.
fn subs_of(alloc: Global, count: u32, bytes: &[u8]) -> Result<(List<SubSlice>, &[u8]), BodyFault>
    ensures { Gives (λ x. (map stored_sub x.0, x.1.now)) result (subs_at count bytes.now) }
{
    let mut subs = List::new(alloc);
    let mut rest = bytes;
    for _ in 0..count {
        let (sub, after) = sub_of(alloc, rest)?;
        subs.push(sub)?;
        rest = after;
    }
    Ok((subs, rest))
}

// A slice that a split makes.
#[tactic(auto, unfolding(crate::specs::Reading::sub_at))]
fn sub_of(alloc: Global, bytes: &[u8]) -> Result<(SubSlice, &[u8]), BodyFault>
    ensures { Gives (λ x. (stored_sub x.0, x.1.now)) result (sub_at bytes.now) }
{
    let (id, rest) = u32_of(bytes)?;
    let (name, rest) = text_of(rest)?;
    let (min, rest) = u32_of(rest)?;
    let (max, rest) = u32_of(rest)?;
    let (replicas, rest) = byte_of(rest)?;
    let (node, rest) = u32_of(rest)?;
    let (min, max) = (min.cast_signed(), max.cast_signed());
    if max < min || replicas == 0 || node == 0 {
        return Err(BodyFault::NotEntries);
    }
    let name = Text::new(alloc, name)?;
    let id = SliceId(id);
    let sub = SubSlice {
        id,
        name,
        min,
        max,
        replicas,
        node,
    };
    Ok((sub, rest))
}
