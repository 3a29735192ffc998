ghost use Rattle.std.specs.Prelude.{◌≡◌, ℕ, ◌+◌, ◌^◌, ◌<◌, ◌≤◌, ◌↔◌, IsTrue, List, [], ◌∷◌, ◌++◌, length, take, slice_get, slice_index, Some, IfOk, OnOk, ◌-◌, vec_len, vec_capacity};
ghost use Rattle.std.specs.List.Sorted.{IsStrictlyIncreasing};
ghost use Rattle.std.specs.Map.{keys_of};
ghost use Rattle.sc_keys.specs.Storing.{ArePlaces};
ghost use Rattle.sc_rows.specs.declared.joining.Kept.TheVariants.{Either};
ghost use Rattle.sc_rows.specs.Joining.{IsJoin};
ghost use Rattle.sc_rows.specs.Moving.{new_numbers, KeepsOrder};
ghost use Rattle.sc_segment.specs.Carrying.{AreBefore, StayAt};
ghost use Rattle.sc_segment.specs.Flat.{FlatState, IsLaidOut, AreAllClosed, PutsKey, entries_from, key_ends, rows_among};
ghost use Rattle.sc_segment.specs.Index.{IsInOrder};
ghost use Rattle.sc_segment.specs.Storing.{AreEntriesAlike, IsCarriedAt, entries_of_places};

use sc_keys::{Key, Keys};
use sc_rows::{Moved, Runs, merge_moved, push_ahead};
use std::alloc::{AllocError, Global};
use std::marker::Model;
use std::mem;

/// An index while it is written, in three lists, whatever the number of its keys: the keys, or else their places, where the rows of each
/// key end, and the rows of all keys one after another. It is written key after key: first the rows of a key, and then `close` with the key.
#[derive(Drop)]
pub(crate) struct FlatIndex<K> {
    keys: Vec<K>,
    ends: Vec<u32>,
    rows: Vec<u32>,
}

impl<K> Model for FlatIndex<K> {
    ghost use Rattle.std.specs.Prelude.{◌≡◌, length, drop};
    ghost use Rattle.sc_segment.specs.Flat.{FlatState, entries_from, last_end, AreEnds};

    ghost Value = { FlatState K };

    ghost view = { λ a. record { entries = entries_from 0 a.keys.items a.ends.items a.rows.items; pending = drop (last_end 0 a.ends.items) a.rows.items } };

    ghost invariant = { λ a. (length a.keys.items ≡ length a.ends.items) × AreEnds 0 a.ends.items (length a.rows.items) };
}

impl<K: Drop> FlatIndex<K> {
    /// An index without entries, with room for so many keys and rows.
    pub(crate) fn with_room(alloc: Global, keys: usize, rows: usize) -> Result<Self, AllocError>
        ensures { IfOk result (λ index. index ≡ record { entries = []; pending = [] }) }
    {
        Ok(FlatIndex {
            keys: Vec::with_capacity(alloc, keys)?,
            ends: Vec::with_capacity(alloc, keys)?,
            rows: Vec::with_capacity(alloc, rows)?,
        })
    }

    /// The index of these keys, where the rows of each end here.
    pub(crate) fn of(keys: Vec<K>, ends: Vec<u32>, rows: Vec<u32>) -> Self
        requires { IsLaidOut keys.items ends.items rows.items }
        ensures { result.entries ≡ entries_from 0 keys.items ends.items rows.items }
    {
        FlatIndex { keys, ends, rows }
    }

    /// The new numbers of rows, with the rows that are added among them, as the rows of the next key, of which none waits.
    pub(crate) fn add_merged(
        &mut self,
        rows: &[u32],
        moved: &Moved,
        added: &[u32],
    ) -> Result<(), AllocError>
        requires moved { KeepsOrder moved.now }
        requires rows { IsStrictlyIncreasing rows.now }
        requires added { IsStrictlyIncreasing added.now }
        requires none { self.old.pending ≡ [] }
        ensures entries { OnOk result (self.new.entries ≡ self.old.entries) }
        ensures rows { OnOk result (IsJoin Either (new_numbers moved.now rows.now) added.now self.new.pending) }
    {
        merge_moved(&mut self.rows, rows, moved, added)?;
        Ok(())
    }

    /// Rows more of the next key.
    pub(crate) fn add_rows(&mut self, rows: &[u32]) -> Result<(), AllocError>
        ensures { OnOk result (self.new ≡ record { entries = self.old.entries; pending = self.old.pending ++ rows.now }) }
    {
        self.rows.extend_from_slice(rows)?;
        Ok(())
    }

    /// Puts a key at the end, whose rows are those that were added since the key before it. An error means out of memory, or that all
    /// keys so far have more than 2^32 - 1 rows.
    #[inline(always)]
    pub(crate) fn close(&mut self, key: K) -> Result<(), AllocError>
        ensures { OnOk result (self.new ≡ record { entries = self.old.entries ++ (key, self.old.pending) ∷ []; pending = [] }) }
    {
        let end = as_end(self.rows.len())?;
        self.keys.reserve(1)?;
        self.ends.reserve(1)?;
        self.ends.push_reserved(end);
        self.keys.push_reserved(key);
        Ok(())
    }
}

impl FlatIndex<u32> {
    /// Carries the keys of another index from one place up to another, each where rows of it are left, and is written with the places of
    /// its stored keys. The rows of a key that is told to stay keep their numbers, and nothing is known of one past the end of `stays`.
    /// Room is made once for all of them. An error means out of memory, or that there might be more than 2^32 - 1 rows.
    pub(crate) fn carry<K: Key + Drop>(
        &mut self,
        old: &KeptIndex<K>,
        from: usize,
        to: usize,
        moved: &Moved,
        stays: &[bool],
    ) -> Result<(), AllocError>
        requires moved { KeepsOrder moved.now }
        requires stays { StayAt moved.now old.now.entries stays.now }
        requires old { IsInOrder K.order old.now.entries }
        requires rises { from ≤ to }
        requires within { to ≤ length old.now.entries }
        requires none { self.old.pending ≡ [] }
        ensures none { OnOk result (self.new.pending ≡ []) }
        ensures carried { OnOk result ((more : List K) (before : List (K × List ℕ)) → AreBefore K.order before old.now.entries from
            → IsCarriedAt K.order (old.now.stored ++ more) moved.now (take from old.now.entries) before self.old.entries
            → IsCarriedAt K.order (old.now.stored ++ more) moved.now (take to old.now.entries) before self.new.entries) }
    {
        let count = to - from;
        self.keys.reserve(count)?;
        self.ends.reserve(count)?;
        let more = old.rows_before(to) - old.rows_before(from);
        self.rows.reserve(more)?;
        as_end(self.rows.len() + more)?;
        let alloc = *self.rows.allocator();
        let places = mem::replace(&mut self.keys, Vec::new(alloc));
        let ends = mem::replace(&mut self.ends, Vec::new(alloc));
        let (places, ends) = carry_range(places, ends, &mut self.rows, old, from, to, moved, stays);
        self.keys = places;
        self.ends = ends;
        Ok(())
    }
}

impl<K> FlatIndex<K> {
    /// Whether rows wait for their key.
    pub(crate) fn has_pending(&self) -> bool
        ensures { IsTrue result ↔ (0 < length self.now.pending) }
    {
        start_of(&self.ends, self.ends.len()) < self.rows.len()
    }
}

/// An index that is only read: the keys, where the rows of each key end, and the rows of all keys one after another.
#[derive(Drop)]
pub(crate) struct KeptIndex<K: Key> {
    keys: Keys<K>,
    ends: Vec<u32>,
    rows: Vec<u32>,
}

impl<K: Key> Model for KeptIndex<K> {
    ghost use Rattle.std.specs.Prelude.{◌≡◌, length};
    ghost use Rattle.sc_segment.specs.Flat.{entries_from, AreEnds};
    ghost use Rattle.sc_segment.specs.Storing.{KeptState};

    ghost Value = { KeptState K };

    ghost view = { λ a. record { stored = a.keys.stored; entries = entries_from 0 a.keys.keys a.ends.items a.rows.items } };

    ghost invariant = { λ a. (length a.keys.keys ≡ length a.ends.items) × AreEnds 0 a.ends.items (length a.rows.items) };
}

impl<K: Key> KeptIndex<K> {
    // How many rows the keys before this place have.
    fn rows_before(&self, at: usize) -> usize
        requires { at ≤ length self.now.entries }
        ensures { result ≡ rows_among (take at self.now.entries) }
    {
        start_of(&self.ends, at)
    }

    /// The keys.
    pub(crate) fn keys(&self) -> &Keys<K>
        ensures stored { result.now.stored ≡ self.now.stored }
        ensures keys { result.now.keys ≡ keys_of self.now.entries }
    {
        &self.keys
    }

    /// How many rows there are, those of each key counted.
    pub(crate) fn row_count(&self) -> usize {
        self.rows.len()
    }

    /// The rows of the key at this place.
    pub(crate) fn rows_of(&self, at: usize) -> &[u32]
        requires { at < length self.now.entries }
        ensures { (key : K) → slice_get (keys_of self.now.entries) at ≡ Some key → slice_get self.now.entries at ≡ Some (key, result.now) }
    {
        let start = start_of(&self.ends, at);
        let end = self.ends[at] as usize;
        &self.rows[start..end]
    }
}

impl<K: Key + Drop> KeptIndex<K> {
    /// The index that was written with its keys. The room that is not used is given back. An error is one of `Keys::of`.
    pub(crate) fn of_written(alloc: Global, index: FlatIndex<K>) -> Result<KeptIndex<K>, AllocError>
        ensures { IfOk result (λ kept. kept.entries ≡ index.entries) }
    {
        let FlatIndex {
            mut keys,
            mut ends,
            mut rows,
        } = index;
        keys.shrink_to_fit();
        ends.shrink_to_fit();
        rows.shrink_to_fit();
        let keys = Keys::of(alloc, keys)?;
        Ok(KeptIndex { keys, ends, rows })
    }
}

impl<K: Key + Drop> KeptIndex<K> {
    /// The index that was written with places for its keys, among the stored keys of an old index and those of an added one after them.
    /// The room that is not used is given back. An error is one of `Keys::at`.
    pub(crate) fn of_places(
        alloc: Global,
        index: FlatIndex<u32>,
        old: &KeptIndex<K>,
        added: &KeptIndex<K>,
    ) -> Result<KeptIndex<K>, AllocError>
        requires { ArePlaces (old.now.stored ++ added.now.stored) (keys_of index.entries) }
        ensures { IfOk result (λ kept. AreEntriesAlike K.order (entries_of_places (old.now.stored ++ added.now.stored) index.entries) kept.entries) }
    {
        let FlatIndex {
            keys: mut places,
            mut ends,
            mut rows,
        } = index;
        places.shrink_to_fit();
        ends.shrink_to_fit();
        rows.shrink_to_fit();
        let keys = Keys::at(alloc, &old.keys, &added.keys, places)?;
        Ok(KeptIndex { keys, ends, rows })
    }
}

// Where the rows of the key at this place begin, or those that follow the last key.
fn start_of(ends: &[u32], at: usize) -> usize
    requires { at ≤ length ends.now }
    ensures first { at ≡ 0 → result ≡ 0 }
    ensures later { 0 < at → result ≡ slice_index ends.now (at - 1) }
{
    if at == 0 { 0 } else { ends[at - 1] as usize }
}

// Where the rows of a key end that has the last of so many rows. An error means that there are more than 2^32 - 1.
fn as_end(rows: usize) -> Result<u32, AllocError>
    ensures end { IfOk result (λ end. end ≡ rows) }
    ensures fits { OnOk result (rows < 2 ^ 32) }
{
    match u32::try_from(rows) {
        Ok(end) => Ok(end),
        Err(_) => Err(AllocError),
    }
}

// Carries the keys of an index from one place up to another to the three lists of an index of places, which have room for all of them.
// Rows are put there ahead of their keys, up to the first that is gone or to the end of the keys that stay, so that many short lists cost as
// much as a long one. The places and the ends are the function's own and given back, so that the loop over keys keeps their lengths in
// registers.
#[inline(always)]
fn carry_range<K: Key + Drop>(
    places: Vec<u32>,
    ends: Vec<u32>,
    rows: &mut Vec<u32>,
    old: &KeptIndex<K>,
    from: usize,
    to: usize,
    moved: &Moved,
    stays: &[bool],
) -> (Vec<u32>, Vec<u32>)
    requires moved { KeepsOrder moved.now }
    requires stays { StayAt moved.now old.now.entries stays.now }
    requires old { IsInOrder K.order old.now.entries }
    requires rises { from ≤ to }
    requires within { to ≤ length old.now.entries }
    requires laid_out { IsLaidOut places.items ends.items rows.old.items }
    requires none { AreAllClosed ends.items rows.old.items }
    requires room_for_places { vec_len places + to ≤ vec_capacity places + from }
    requires room_for_ends { vec_len ends + to ≤ vec_capacity ends + from }
    requires room_for_rows { vec_len rows.old + rows_among (take to old.now.entries) ≤ vec_capacity rows.old + rows_among (take from old.now.entries) }
    requires fits { vec_len rows.old + rows_among (take to old.now.entries) < 2 ^ 32 + rows_among (take from old.now.entries) }
    ensures laid_out { IsLaidOut result.0.items result.1.items rows.new.items }
    ensures none { AreAllClosed result.1.items rows.new.items }
    ensures carried { (more : List K) (before : List (K × List ℕ)) → AreBefore K.order before old.now.entries from
        → IsCarriedAt K.order (old.now.stored ++ more) moved.now (take from old.now.entries) before (entries_from 0 places.items ends.items rows.old.items)
        → IsCarriedAt K.order (old.now.stored ++ more) moved.now (take to old.now.entries) before (entries_from 0 result.0.items result.1.items rows.new.items) }
{
    let old_places = old.keys.places();
    let old_ends = old.ends.as_slice();
    let old_rows = &old.rows.as_slice()[..start_of(old_ends, to)];
    let runs = Runs {
        stays,
        ends: old_ends,
        before: to,
    };
    let mut places = places;
    let mut ends = ends;
    let mut passed = start_of(old_ends, from);
    let mut start = rows.len();
    'carrying: for at in from..to {
        let old_end = old_ends[at] as usize;
        passed = push_ahead(rows, old_rows, moved, &runs, at, passed, old_end);
        let end = rows.len() - (passed - old_end);
        put_place(&mut places, &mut ends, old_places[at], start, end);
        start = end;
    }
    (places, ends)
}

// Puts a place at the end, and where the rows of its key end, unless it has none.
#[inline(always)]
fn put_place(places: &mut Vec<u32>, ends: &mut Vec<u32>, place: u32, start: usize, end: usize)
    requires room_for_place { vec_len places.old < vec_capacity places.old }
    requires room_for_end { vec_len ends.old < vec_capacity ends.old }
    requires fits { end < 2 ^ 32 }
    ensures puts { (rows : List ℕ) → end ≡ start + length rows
        → PutsKey place rows end (key_ends places.old.items ends.old.items) (key_ends places.new.items ends.new.items) }
    ensures place_room { (vec_capacity places.new ≡ vec_capacity places.old) × (vec_len places.new ≤ vec_len places.old + 1) }
    ensures end_room { (vec_capacity ends.new ≡ vec_capacity ends.old) × (vec_len ends.new ≤ vec_len ends.old + 1) }
{
    if start < end {
        ends.push_reserved(end as u32);
        places.push_reserved(place);
    }
}
