//! The places of the writes of a journal that no entry settles.

ghost use Rattle.std.specs.Prelude.{◌≡◌, ◌<◌, ◌==◌, ◌||◌, ℕ, false, length, get_or, IfOk, OnOk, [], ◌∷◌, ◌++◌};
ghost use Rattle.sc_journal.specs.Journal.{is_settled, unsettled};

use sc_bucket::Unsettled;
use sc_record::Entry;
use std::alloc::{AllocError, Global};

/// The places of the writes that no entry settles, ascending. An error means out of memory.
pub(crate) fn unsettled_of(alloc: Global, entries: &[Entry]) -> Result<Unsettled, AllocError>
    ensures { IfOk result (λ places. places.places ≡ unsettled entries.now) }
{
    let settled = settled_places(alloc, entries)?;
    let mut places = Unsettled::new(alloc);
    for (i, entry) in entries.iter().enumerate() {
        if let Entry::Write(_) = entry {
            if !settled[i] {
                put(&mut places, i as u64)?;
            }
        }
    }
    Ok(places)
}

// Puts the place at the end. An error means out of memory.
fn put(places: &mut Unsettled, place: u64) -> Result<(), AllocError>
    ensures { OnOk result (places.new.places ≡ places.old.places ++ place ∷ []) }
{
    places.reserve(1)?;
    places.append(place);
    Ok(())
}

// Of each place of the journal whether an entry settles it. An error means out of memory.
fn settled_places(alloc: Global, entries: &[Entry]) -> Result<Vec<bool>, AllocError>
    ensures length { IfOk result (λ marks. length marks.items ≡ length entries.now) }
    ensures marks { IfOk result (λ marks. (k : ℕ) → k < length entries.now → get_or marks.items k false ≡ is_settled entries.now k) }
{
    let mut marks = vec![in alloc; false; entries.len()]?;
    for entry in entries {
        if let Entry::Settled { place } = entry {
            mark(&mut marks, *place);
        }
    }
    Ok(marks)
}

// Marks the place, where it is one of these.
fn mark(marks: &mut [bool], place: u64)
    ensures length { length marks.new ≡ length marks.old }
    ensures marks { (k : ℕ) → k < length marks.old → get_or marks.new k false ≡ (get_or marks.old k false || (place == k)) }
{
    if place < marks.len() as u64 {
        marks[place as usize] = true;
    }
}
