ghost use Rattle.std.specs.Prelude.{◌≡◌, ◌<◌, ◌≤◌, ℕ, List, [], ◌∷◌, ◌++◌, length, take, slice_get, Some, IfOk, OnOk};
ghost use Rattle.std.specs.declared.cmp.Ordering.TheVariants.{Less};
ghost use Rattle.sc_keys.specs.Fresh.{IsFresh};
ghost use Rattle.sc_rows.specs.Moving.{KeepsOrder};
ghost use Rattle.sc_segment.specs.Carrying.{IsCarried, IsAbove, AreBefore, OthersStay, StayAt};
ghost use Rattle.sc_segment.specs.Flat.{entry_for};
ghost use Rattle.sc_segment.specs.Index.{IsInOrder, HasRows};
ghost use Rattle.sc_segment.specs.Storing.{IsCarriedAt};

use crate::flat_index::{FlatIndex, KeptIndex};
use crate::segment::Segment;
use crate::staying::which_stay;
use sc_keys::{Key, Keys, Steps, search};
use sc_rows::Moved;
use std::alloc::{AllocError, Global};
use std::marker::Brand;
use std::sync::ledger::{Blank, Ledger};

impl<K: Key + Drop> Segment<K> {
    /// What becomes of a segment when some rows change: its rows under new numbers, and beside them those of another segment, which
    /// has the rows that are new or changed. `moved` has the new number of each old row, and None where it is gone; a row past its
    /// end is gone too. A key whose rows are all gone is left out. Each row that stays is looked up once in `moved`, and only the
    /// keys that are added are sought. The keys are shared by whole pieces. An error means out of memory, or that there might be more
    /// than 2^32 - 1 rows, those of each key counted, or stored keys.
    pub fn carried(
        &self,
        alloc: Global,
        moved: &Moved,
        added: &Segment<K>,
    ) -> Result<Segment<K>, AllocError>
        requires { KeepsOrder moved.now }
        ensures { IfOk result (λ new. IsCarried K.order moved.now self.now added.now new) }
    {
        self.carried_by(alloc, moved, &[], added)
    }

    /// The same as `carried`, where each row that stays keeps its number: `lost` has the keys of the rows that are gone. The rows of all
    /// other keys are copied as they are, with no look-up for each. The keys of `lost` are sought too.
    pub fn carried_in_place(
        &self,
        alloc: Global,
        moved: &Moved,
        lost: &Segment<K>,
        added: &Segment<K>,
    ) -> Result<Segment<K>, AllocError>
        requires order { KeepsOrder moved.now }
        requires others { OthersStay K.order moved.now self.now lost.now }
        ensures { IfOk result (λ new. IsCarried K.order moved.now self.now added.now new) }
    {
        let stays = which_stay::<K, Brand>(alloc, &self.index, &lost.index, Blank::new(1))?;
        self.carried_by(alloc, moved, stays.as_slice(), added)
    }

    // The same, where the rows of each key that is told to stay keep their numbers. Nothing is known of a key past the end of `stays`.
    fn carried_by(
        &self,
        alloc: Global,
        moved: &Moved,
        stays: &[bool],
        added: &Segment<K>,
    ) -> Result<Segment<K>, AllocError>
        requires moved { KeepsOrder moved.now }
        requires stays { StayAt moved.now self.now stays.now }
        ensures { IfOk result (λ new. IsCarried K.order moved.now self.now added.now new) }
    {
        let old = &self.index;
        let more = &added.index;
        let keys = old.keys().len().saturating_add(more.keys().len());
        let rows = old.row_count().saturating_add(more.row_count());
        let mut index = FlatIndex::with_room(alloc, keys, rows)?;
        carry_all::<K, Brand>(&mut index, old, moved, stays, more, Blank::new(1))?;
        let kept = KeptIndex::of_places(alloc, index, old, more)?;
        Ok(Segment::new(kept))
    }
}

// Carries all keys of an index, with those that are added among them, and writes for each its place among the stored keys of both. How
// often keys are compared is counted for proofs alone.
fn carry_all<K: Key + Drop, L: Ledger>(
    index: &mut FlatIndex<u32>,
    old: &KeptIndex<K>,
    moved: &Moved,
    stays: &[bool],
    added: &KeptIndex<K>,
    blank: Blank,
) -> Result<(), AllocError>
    requires fresh { IsFresh blank L.name L.parts }
    requires moved { KeepsOrder moved.now }
    requires stays { StayAt moved.now old.now.entries stays.now }
    requires old { IsInOrder K.order old.now.entries }
    requires added { IsInOrder K.order added.now.entries }
    requires empty { index.old ≡ record { entries = []; pending = [] } }
    ensures { OnOk result (IsCarriedAt K.order (old.now.stored ++ added.now.stored) moved.now old.now.entries added.now.entries index.new.entries) }
{
    let mut steps = Steps::<L>::new(blank);
    let keys = added.keys();
    let mut from = 0;
    'adding: for at in 0..keys.len() {
        let place = place_after(old.keys(), keys, at)?;
        let rows = added.rows_of(at);
        from = carry_to_key(
            index,
            old,
            from,
            moved,
            stays,
            keys.get(at),
            place,
            rows,
            &mut steps,
        )?;
    }
    index.carry(old, from, old.keys().len(), moved, stays)?;
    Ok(())
}

// The place of an added key among the stored keys of both lists. An error means that there are more than 2^32 - 1 of them.
fn place_after<K: Key>(old: &Keys<K>, added: &Keys<K>, at: usize) -> Result<u32, AllocError>
    requires { at < length added.now.keys }
    ensures { IfOk result (λ place. slice_get (old.now.stored ++ added.now.stored) place ≡ slice_get added.now.keys at) }
{
    let own = added.places()[at];
    let place = old.stored().checked_add(own).ok_or(AllocError)?;
    Ok(place)
}

// Carries the keys up to the one that is added, and then this one with the rows of both. Gives the place of the old keys after it.
fn carry_to_key<K: Key + Drop, L: Ledger>(
    index: &mut FlatIndex<u32>,
    old: &KeptIndex<K>,
    from: usize,
    moved: &Moved,
    stays: &[bool],
    key: &K,
    place: u32,
    added: &[u32],
    steps: &mut Steps<L>,
) -> Result<usize, AllocError>
    requires moved { KeepsOrder moved.now }
    requires stays { StayAt moved.now old.now.entries stays.now }
    requires old { IsInOrder K.order old.now.entries }
    requires within { from ≤ length old.now.entries }
    requires above { IsAbove K.order key.now (take from old.now.entries) }
    requires rows { HasRows (key.now, added.now) }
    requires none { index.old.pending ≡ [] }
    ensures within { IfOk result (λ to. to ≤ length old.now.entries) }
    ensures none { OnOk result (index.new.pending ≡ []) }
    ensures passed { IfOk result (λ to. (later : K) → K.order key.now later ≡ Less → IsAbove K.order later (take to old.now.entries)) }
    ensures before { IfOk result (λ to. (before : List (K × List ℕ)) → AreBefore K.order before old.now.entries from
        → AreBefore K.order (before ++ (key.now, added.now) ∷ []) old.now.entries to) }
    ensures carried { IfOk result (λ to. (more : List K) (before : List (K × List ℕ)) → slice_get (old.now.stored ++ more) place ≡ Some key.now
        → AreBefore K.order before old.now.entries from → IsAbove K.order key.now before
        → IsCarriedAt K.order (old.now.stored ++ more) moved.now (take from old.now.entries) before index.old.entries
        → IsCarriedAt K.order (old.now.stored ++ more) moved.now (take to old.now.entries) (before ++ (key.now, added.now) ∷ []) index.new.entries) }
{
    match search(old.keys(), from, key, steps) {
        Ok(at) => {
            index.carry(old, from, at, moved, stays)?;
            index.add_merged(old.rows_of(at), moved, added)?;
            close_at(index, place)?;
            Ok(at + 1)
        }
        Err(at) => {
            index.carry(old, from, at, moved, stays)?;
            index.add_rows(added)?;
            close_at(index, place)?;
            Ok(at)
        }
    }
}

// Puts the place of a key at the end, where rows wait for it.
#[inline(always)]
fn close_at(index: &mut FlatIndex<u32>, place: u32) -> Result<(), AllocError>
    ensures none { OnOk result (index.new.pending ≡ []) }
    ensures entries { OnOk result (index.new.entries ≡ index.old.entries ++ entry_for place index.old.pending) }
{
    if index.has_pending() {
        index.close(place)?;
    }
    Ok(())
}
