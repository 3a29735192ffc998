ghost use Rattle.std.specs.Prelude.{◌≡◌, ◌+◌, ◌*◌, ◌/◌, ◌<◌, ◌≤◌, ◌++◌, length, map, take, slice_get, Some, IfOk, IfSome, IsFalse, OnOk};
ghost use Rattle.sc_keys.specs.Heads.{AreTops};
ghost use Rattle.sc_keys.specs.Storing.{AreAlike, ArePlaces, AreTrim, HasPlaces, keys_at, keys_in, stored_in};

use crate::heads::Head;
use crate::key::Key;
use std::alloc::{AllocError, Global};
use std::marker::Model;
use std::sync::Arc;

/// The pieces of keys are made anew once there are more of them than this.
const MOST_PIECES: usize = 64;

/// They are made anew once the keys without a place are more than one for so many that have one, and more than the second number.
const KEPT_FOR_GONE: usize = 16;

const ALWAYS_GONE: usize = 64;

/// One head of so many is a top, and stands in a list of its own too, in which a key is sought first. So the list of the tops of some ten
/// thousand keys stays in the processor's caches, and between two tops four lines of memory are left, or five.
pub(crate) const HEADS_OF_A_TOP: usize = 32;

/// Keys that are shared as one.
#[derive(Drop)]
struct Piece<K> {
    keys: Arc<Vec<K>>,
}

impl<K> Piece<K> {
    // The same keys once more.
    fn share(&self) -> Result<Piece<K>, AllocError>
        ensures { IfOk result (λ piece. keys_in piece ≡ keys_in self.now) }
    {
        Ok(Piece {
            keys: Arc::try_clone(&self.keys)?,
        })
    }
}

/// The keys of an index in their order, each by its head and by its place among stored keys. These stand in pieces that are shared with
/// the indexes from which this one was carried. Not each stored key has a place. The last head of each whole block of heads is a top.
#[derive(Drop)]
pub struct Keys<K: Key> {
    pieces: Vec<Piece<K>>,
    stored: u32,
    places: Vec<u32>,
    heads: Vec<Head>,
    tops: Vec<Head>,
}

impl<K: Key> Model for Keys<K> {
    ghost use Rattle.std.specs.Prelude.{◌≡◌, length, map};
    ghost use Rattle.sc_keys.specs.Heads.{AreTops};
    ghost use Rattle.sc_keys.specs.Storing.{KeysState, ArePlaces, keys_at, stored_in};

    ghost Value = { KeysState K };

    ghost view = { λ a. record {
      stored = stored_in a.pieces.items;
      keys = keys_at (stored_in a.pieces.items) a.places.items;
      pieces = length a.pieces.items;
    } };

    ghost invariant = { λ a. (a.stored ≡ length (stored_in a.pieces.items)) × ArePlaces (stored_in a.pieces.items) a.places.items
        × (a.heads.items ≡ map K.heading (keys_at (stored_in a.pieces.items) a.places.items)) × AreTops a.heads.items a.tops.items };
}

impl<K: Key> Keys<K> {
    /// How many keys there are.
    pub fn len(&self) -> usize
        ensures { result ≡ length self.now.keys }
    {
        self.places.len()
    }

    /// The key with this number.
    pub fn get(&self, at: usize) -> &K
        requires { at < length self.now.keys }
        ensures { slice_get self.now.keys at ≡ Some result.now }
    {
        stored_key(&self.pieces, self.places[at] as usize)
    }

    /// The head of the key with this number.
    #[inline(always)]
    pub(crate) fn head(&self, at: usize) -> Head
        requires { at < length self.now.keys }
        ensures { (key : K) → slice_get self.now.keys at ≡ Some key → result ≡ K.heading key }
    {
        self.heads[at]
    }

    /// How many tops there are, one for each whole block of keys.
    pub(crate) fn top_count(&self) -> usize
        ensures { result ≡ length self.now.keys / 32 }
    {
        self.tops.len()
    }

    /// The top with this number: the head of the last key of the block with this number.
    #[inline(always)]
    pub(crate) fn top(&self, block: usize) -> Head
        requires { 32 * block + 31 < length self.now.keys }
        ensures { (key : K) → slice_get self.now.keys (32 * block + 31) ≡ Some key → result ≡ K.heading key }
    {
        self.tops[block]
    }

    // The first number from this one on whose key stands at this place, or else how many keys there are. Nothing but time depends on it.
    #[inline(always)]
    fn pass_to(&self, from: usize, place: u32) -> usize {
        for at in from..self.places.len() {
            if self.places[at] == place {
                return at;
            }
        }
        self.places.len()
    }

    // The head of the stored key at this place, if it is the key with this number.
    #[inline(always)]
    fn head_at(&self, at: usize, place: u32) -> Option<Head>
        ensures { IfSome result (λ head. (key : K) → slice_get self.now.stored place ≡ Some key → head ≡ K.heading key) }
    {
        if at < self.places.len() && self.places[at] == place {
            Some(self.heads[at])
        } else {
            None
        }
    }

    // The heads of the keys from this number on, as many as stand at these places one after another. The number decides only how many they are.
    #[inline(always)]
    fn heads_of_run(&self, from: usize, places: &[u32]) -> &[Head]
        ensures within { length result.now ≤ length places.now }
        ensures are_places { ArePlaces self.now.stored (take (length result.now) places.now) }
        ensures heads { result.now ≡ map K.heading (keys_at self.now.stored (take (length result.now) places.now)) }
    {
        let first = from.min(self.places.len());
        let run = same_count(&self.places[first..], places);
        &self.heads[first..first + run]
    }

    /// The places of the keys.
    pub fn places(&self) -> &[u32]
        ensures { HasPlaces self.now result.now }
    {
        self.places.as_slice()
    }

    /// How many stored keys there are.
    pub fn stored(&self) -> u32
        ensures { result ≡ length self.now.stored }
    {
        self.stored
    }
}

impl<K: Key + Drop> Keys<K> {
    /// These keys, as one piece. An error means out of memory, or that there are more than 2^32 - 1.
    pub fn of(alloc: Global, keys: Vec<K>) -> Result<Keys<K>, AllocError>
        ensures keys { IfOk result (λ state. state.keys ≡ keys.items) }
        ensures trim { IfOk result AreTrim }
    {
        let Ok(stored) = u32::try_from(keys.len()) else {
            return Err(AllocError);
        };
        let places = places_of(alloc, keys.as_slice(), stored)?;
        let heads = heads_of(alloc, keys.as_slice())?;
        let tops = tops_of(alloc, heads.as_slice())?;
        let mut pieces = Vec::new(alloc);
        pieces.push(Piece {
            keys: Arc::new(alloc, keys)?,
        })?;
        Ok(Keys {
            pieces,
            stored,
            places,
            heads,
            tops,
        })
    }

    /// The keys at these places among those that are stored with old keys, and those that are stored with added ones after them. Both
    /// are shared by whole pieces, and so all keep their places, unless too many have none or they stand in too many pieces: each key is
    /// shared alone then, and those without a place are let go. An error means out of memory, or that more than 2^32 - 1 are stored.
    pub fn at(
        alloc: Global,
        old: &Keys<K>,
        added: &Keys<K>,
        places: Vec<u32>,
    ) -> Result<Keys<K>, AllocError>
        requires { ArePlaces (old.now.stored ++ added.now.stored) places.items }
        ensures alike { IfOk result (λ state. AreAlike K.order (keys_at (old.now.stored ++ added.now.stored) places.items) state.keys) }
        ensures trim { IfOk result AreTrim }
    {
        let pieces = pieces_of_both(alloc, old, added)?;
        let stored = old.stored.checked_add(added.stored).ok_or(AllocError)?;
        let heads = heads_at(alloc, old, added, pieces.as_slice(), places.as_slice())?;
        let tops = tops_of(alloc, heads.as_slice())?;
        let keys = Keys {
            pieces,
            stored,
            places,
            heads,
            tops,
        };
        if keys.is_worn() {
            keys.renewed(alloc)
        } else {
            Ok(keys)
        }
    }

    // Whether it is time to share each key alone.
    fn is_worn(&self) -> bool
        ensures { IsFalse result → AreTrim self.now }
    {
        let count = self.places.len();
        let gone = (self.stored as usize).saturating_sub(count);
        MOST_PIECES < self.pieces.len() || (count / KEPT_FOR_GONE).max(ALWAYS_GONE) < gone
    }

    // Keys that compare equal to these, each shared alone, in one piece without any other.
    fn renewed(&self, alloc: Global) -> Result<Keys<K>, AllocError>
        ensures alike { IfOk result (λ state. AreAlike K.order self.now.keys state.keys) }
        ensures trim { IfOk result AreTrim }
    {
        let count = self.len();
        let mut keys = Vec::with_capacity(alloc, count)?;
        for at in 0..count {
            let shared = self.get(at).share()?;
            keys.push(shared)?;
        }
        Keys::of(alloc, keys)
    }
}

// The places of keys that are stored in their own order.
fn places_of<K>(alloc: Global, keys: &[K], count: u32) -> Result<Vec<u32>, AllocError>
    requires { count ≡ length keys.now }
    ensures places { IfOk result (λ places. ArePlaces keys.now places.items) }
    ensures keys { IfOk result (λ places. keys_at keys.now places.items ≡ keys.now) }
{
    let mut places = Vec::with_capacity(alloc, keys.len())?;
    for at in 0..count {
        places.push(at)?;
    }
    Ok(places)
}

// The heads of keys.
fn heads_of<K: Key>(alloc: Global, keys: &[K]) -> Result<Vec<Head>, AllocError>
    ensures { IfOk result (λ heads. heads.items ≡ map K.heading keys.now) }
{
    let mut heads = Vec::with_capacity(alloc, keys.len())?;
    for key in keys {
        heads.push(key.head())?;
    }
    Ok(heads)
}

// The tops of heads, in a list with room for no more.
fn tops_of(alloc: Global, heads: &[Head]) -> Result<Vec<Head>, AllocError>
    ensures { IfOk result (λ tops. AreTops heads.now tops.items) }
{
    let count = heads.len() / HEADS_OF_A_TOP;
    let mut tops = Vec::with_capacity(alloc, count)?;
    for block in 0..count {
        tops.push(heads[HEADS_OF_A_TOP * block + (HEADS_OF_A_TOP - 1)])?;
    }
    Ok(tops)
}

// How many first numbers of these two lists are the same.
#[inline(always)]
fn same_count(one: &[u32], other: &[u32]) -> usize
    ensures one { result ≤ length one.now }
    ensures other { result ≤ length other.now }
    ensures same { take result one.now ≡ take result other.now }
{
    let count = one.len().min(other.len());
    for at in 0..count {
        if one[at] != other[at] {
            return at;
        }
    }
    count
}

// The heads of the keys at these places among those that are stored with both lists. The places of each list's keys come mostly in the
// order of its keys, so that both lists are passed once and no key is touched; and those of the old list come in long runs, so that the
// heads of a run are copied at once.
fn heads_at<K: Key>(
    alloc: Global,
    old: &Keys<K>,
    added: &Keys<K>,
    pieces: &[Piece<K>],
    places: &[u32],
) -> Result<Vec<Head>, AllocError>
    requires stored { stored_in pieces.now ≡ old.now.stored ++ added.now.stored }
    requires places { ArePlaces (stored_in pieces.now) places.now }
    ensures { IfOk result (λ heads. heads.items ≡ map K.heading (keys_at (stored_in pieces.now) places.now)) }
{
    let mut heads = Vec::with_capacity(alloc, places.len())?;
    let mut at = 0;
    let mut low: usize = 0;
    let mut high = 0;
    'copying: while at < places.len() {
        let run = old.heads_of_run(low, &places[at..]);
        if run.is_empty() {
            let head = head_of(old, added, &mut low, &mut high, pieces, places[at]);
            heads.push_reserved(head);
            at += 1;
        } else {
            heads.extend_from_slice(run)?;
            low = low.saturating_add(run.len());
            at += run.len();
        }
    }
    Ok(heads)
}

// The head of the key at this place, which is read from the key itself only where neither list has it after the numbers that were passed.
#[inline(always)]
fn head_of<K: Key>(
    old: &Keys<K>,
    added: &Keys<K>,
    low: &mut usize,
    high: &mut usize,
    pieces: &[Piece<K>],
    place: u32,
) -> Head
    requires stored { stored_in pieces.now ≡ old.now.stored ++ added.now.stored }
    requires within { place < length (stored_in pieces.now) }
    ensures { (key : K) → slice_get (stored_in pieces.now) place ≡ Some key → result ≡ K.heading key }
{
    match known_head(old, added, low, high, place) {
        Some(head) => head,
        None => stored_key(pieces, place as usize).head(),
    }
}

// The head of the key at this place, if one of the lists has it after the numbers that were passed. Its number is passed then.
#[inline(always)]
fn known_head<K: Key>(
    old: &Keys<K>,
    added: &Keys<K>,
    low: &mut usize,
    high: &mut usize,
    place: u32,
) -> Option<Head>
    ensures { IfSome result (λ head. (key : K) → slice_get (old.now.stored ++ added.now.stored) place ≡ Some key → head ≡ K.heading key) }
{
    let count = old.stored();
    if place < count {
        let at = old.pass_to(*low, place);
        *low = at.saturating_add(1);
        old.head_at(at, place)
    } else {
        let own = place - count;
        let at = added.pass_to(*high, own);
        *high = at.saturating_add(1);
        added.head_at(at, own)
    }
}

// A share of each piece of both lists.
fn pieces_of_both<K: Key + Drop>(
    alloc: Global,
    old: &Keys<K>,
    added: &Keys<K>,
) -> Result<Vec<Piece<K>>, AllocError>
    ensures { IfOk result (λ pieces. stored_in pieces.items ≡ old.now.stored ++ added.now.stored) }
{
    let mut pieces = Vec::new(alloc);
    push_shares(&mut pieces, &old.pieces)?;
    push_shares(&mut pieces, &added.pieces)?;
    Ok(pieces)
}

// Puts a share of each of these pieces at the end.
fn push_shares<K: Drop>(list: &mut Vec<Piece<K>>, pieces: &[Piece<K>]) -> Result<(), AllocError>
    ensures { OnOk result (stored_in list.new.items ≡ stored_in list.old.items ++ stored_in pieces.now) }
{
    for piece in pieces {
        let share = piece.share()?;
        list.push(share)?;
    }
    Ok(())
}

// The stored key at this place.
#[inline(always)]
fn stored_key<K>(pieces: &[Piece<K>], place: usize) -> &K
    requires { place < length (stored_in pieces.now) }
    ensures { slice_get (stored_in pieces.now) place ≡ Some result.now }
{
    let mut at = 0;
    let mut rest = place;
    'passing: while pieces[at].keys.len() <= rest {
        rest -= pieces[at].keys.len();
        at += 1;
    }
    &pieces[at].keys[rest]
}
