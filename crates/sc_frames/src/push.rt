ghost use Rattle.std.specs.Prelude.{◌≡◌, ◌++◌, ◌∷◌, ◌<◌, ◌^◌, length, map, OnOk, OnErr};
ghost use Rattle.std.specs.Int.{w32, w64, to_le_bytes};
ghost use Rattle.std.specs.List.{AllByRecursion, flat_map};
ghost use Rattle.sc_frames.specs.Stored.{FitsCore, FitsEntry, FitsSub, IsIdText, IsVersion, stored, stored_sub, stored_write};
ghost use Rattle.sc_frames.specs.Entries.{after_name, spelling_of_core, spelling_of_entry, spelling_of_split, spelling_of_sub, spelling_of_write, write_head};
ghost use Rattle.sc_spelling.specs.Spellings.{Extends};

use sc_record::{CoreId, Entry, SliceId, SubSlice, Write};
use sc_spelling::{push_name, push_text};
use std::alloc::AllocError;

/// Puts the spelling of the entry at the end. Where a length or a number in it does not fit its bytes, that counts as want of
/// memory.
pub fn push_entry(out: &mut Vec<u8>, entry: &Entry) -> Result<(), AllocError>
    ensures fits { OnOk result (FitsEntry (stored entry.now)) }
    ensures bytes { OnOk result (out.new.items ≡ out.old.items ++ spelling_of_entry (stored entry.now)) }
    ensures err { OnErr result (out.new.items ≡ out.old.items) }
{
    let start = out.len();
    let pushed = push_some(out, entry);
    if pushed.is_err() {
        out.truncate(start);
    }
    pushed
}

// The same, but after an error some of the bytes may stand at the end.
fn push_some(out: &mut Vec<u8>, entry: &Entry) -> Result<(), AllocError>
    ensures fits { OnOk result (FitsEntry (stored entry.now)) }
    ensures bytes { OnOk result (out.new.items ≡ out.old.items ++ spelling_of_entry (stored entry.now)) }
    ensures err { OnErr result (Extends out.old.items out.new.items) }
{
    match entry {
        Entry::Write(cell) => push_write(out, cell),
        Entry::Settled { place } => push_place(out, *place),
        Entry::Committed => out.extend_from_slice(&[4]),
        Entry::Begun { parent, subs } => push_split(out, *parent, subs.as_slice()),
        Entry::Switched { parent } => push_slice(out, 6, *parent),
        Entry::Failed { parent } => push_slice(out, 7, *parent),
        Entry::Dropped { slice } => push_slice(out, 8, *slice),
        Entry::Down { core } => push_core(out, 9, *core),
        Entry::Up { core } => push_core(out, 10, *core),
        Entry::Led { core } => push_core(out, 11, *core),
    }
}

// Puts the bytes of a write at the end: of one with a document, or of a deletion.
fn push_write(out: &mut Vec<u8>, write: &Write) -> Result<(), AllocError>
    ensures fits { OnOk result (FitsEntry (stored_write write.now)) }
    ensures bytes { OnOk result (out.new.items ≡ out.old.items ++ spelling_of_write write.now.id write.now.version write.now.doc) }
    ensures err { OnErr result (Extends out.old.items out.new.items) }
{
    match write.doc_bytes() {
        Some(bytes) => {
            push_write_head(out, 1, write)?;
            out.extend_from_slice(bytes)
        }
        None => push_write_head(out, 2, write),
    }
}

// Puts the kind, the id and the version of a write at the end.
fn push_write_head(out: &mut Vec<u8>, kind: u8, write: &Write) -> Result<(), AllocError>
    ensures id { OnOk result (IsIdText write.now.id) }
    ensures version { OnOk result (IsVersion write.now.version) }
    ensures bytes { OnOk result (out.new.items ≡ out.old.items ++ kind ∷ write_head write.now.id write.now.version) }
    ensures err { OnErr result (Extends out.old.items out.new.items) }
{
    out.extend_from_slice(&[kind])?;
    push_name(out, write.id().as_str())?;
    out.extend_from_slice(&write.version().to_le_bytes())
}

// Puts the bytes of an entry that settles a write at the end.
fn push_place(out: &mut Vec<u8>, place: u64) -> Result<(), AllocError>
    ensures fits { OnOk result (place < 2 ^ 64) }
    ensures bytes { OnOk result (out.new.items ≡ out.old.items ++ 3 ∷ to_le_bytes w64 place) }
    ensures err { OnErr result (Extends out.old.items out.new.items) }
{
    out.extend_from_slice(&[3])?;
    out.extend_from_slice(&place.to_le_bytes())
}

// Puts the bytes of an entry that names a slice alone at the end.
fn push_slice(out: &mut Vec<u8>, kind: u8, slice: SliceId) -> Result<(), AllocError>
    ensures fits { OnOk result (slice.0 < 2 ^ 32) }
    ensures bytes { OnOk result (out.new.items ≡ out.old.items ++ kind ∷ to_le_bytes w32 slice.0) }
    ensures err { OnErr result (Extends out.old.items out.new.items) }
{
    out.extend_from_slice(&[kind])?;
    out.extend_from_slice(&slice.0.to_le_bytes())
}

// Puts the bytes of an entry that names a core at the end.
fn push_core(out: &mut Vec<u8>, kind: u8, core: CoreId) -> Result<(), AllocError>
    ensures fits { OnOk result (FitsCore core.slice.0 core.replica) }
    ensures bytes { OnOk result (out.new.items ≡ out.old.items ++ kind ∷ spelling_of_core core.slice.0 core.replica) }
    ensures err { OnErr result (Extends out.old.items out.new.items) }
{
    out.extend_from_slice(&[kind])?;
    out.extend_from_slice(&core.slice.0.to_le_bytes())?;
    out.extend_from_slice(&[core.replica])
}

// Puts the bytes of an entry that begins a split at the end.
fn push_split(out: &mut Vec<u8>, parent: SliceId, subs: &[SubSlice]) -> Result<(), AllocError>
    ensures parent { OnOk result (parent.0 < 2 ^ 32) }
    ensures count { OnOk result (length subs.now < 2 ^ 32) }
    ensures fits { OnOk result (AllByRecursion FitsSub (map stored_sub subs.now)) }
    ensures bytes { OnOk result (out.new.items ≡ out.old.items ++ 5 ∷ spelling_of_split parent.0 (map stored_sub subs.now)) }
    ensures err { OnErr result (Extends out.old.items out.new.items) }
{
    let Ok(count) = u32::try_from(subs.len()) else {
        return Err(AllocError);
    };
    out.extend_from_slice(&[5])?;
    out.extend_from_slice(&parent.0.to_le_bytes())?;
    out.extend_from_slice(&count.to_le_bytes())?;
    push_subs(out, subs)
}

// Puts the bytes of the slices that a split makes at the end.
fn push_subs(out: &mut Vec<u8>, subs: &[SubSlice]) -> Result<(), AllocError>
    ensures fits { OnOk result (AllByRecursion FitsSub (map stored_sub subs.now)) }
    ensures bytes { OnOk result (out.new.items ≡ out.old.items ++ flat_map spelling_of_sub (map stored_sub subs.now)) }
    ensures err { OnErr result (Extends out.old.items out.new.items) }
{
    for sub in subs {
        push_sub(out, sub)?;
    }
    Ok(())
}

// Puts the bytes of a slice that a split makes at the end.
fn push_sub(out: &mut Vec<u8>, sub: &SubSlice) -> Result<(), AllocError>
    ensures fits { OnOk result (FitsSub (stored_sub sub.now)) }
    ensures bytes { OnOk result (out.new.items ≡ out.old.items ++ spelling_of_sub (stored_sub sub.now)) }
    ensures err { OnErr result (Extends out.old.items out.new.items) }
{
    out.extend_from_slice(&sub.id.0.to_le_bytes())?;
    push_text(out, sub.name.as_str())?;
    out.extend_from_slice(&after_name(sub.min, sub.max, sub.replicas, sub.node))
}

// The bytes of a slice that a split makes after its name.
#[tactic(auto, unfolding(crate::specs::Entries::after_name))]
fn after_name(min: i32, max: i32, replicas: u8, node: u32) -> [u8; 13]
    ensures { result ≡ after_name min max replicas node }
{
    let [a0, a1, a2, a3] = min.to_le_bytes();
    let [b0, b1, b2, b3] = max.to_le_bytes();
    let [n0, n1, n2, n3] = node.to_le_bytes();
    [a0, a1, a2, a3, b0, b1, b2, b3, replicas, n0, n1, n2, n3]
}
