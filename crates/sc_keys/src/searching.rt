ghost use Rattle.std.specs.Prelude.{◌≡◌, ℕ, ◌+◌, ◌-◌, ◌*◌, ◌/◌, ◌^◌, ◌<◌, ◌≤◌, length, slice_get, Some, IfOk, MatchResult};
ghost use Rattle.std.specs.declared.cmp.Ordering.TheVariants.{Greater};
ghost use Rattle.std.specs.List.Sorted.{IsStrictlySortedBy};
ghost use Rattle.sc_keys.specs.Searching.{IsKeyPlace, IsRangeFor, StandsAt};

use crate::heads::Head;
use crate::key::Key;
use crate::keys::{HEADS_OF_A_TOP, Keys};
use crate::steps::Steps;
use std::cmp::Ordering;
use std::sync::ledger::Ledger;

/// Where the key stands among keys that ascend, or else where it would have to stand. It is sought from a place on, before which all
/// keys are below it: first among the tops, and then among the less than 32 keys between two of them or after the last one.
pub fn search<K: Key, L: Ledger>(
    keys: &Keys<K>,
    from: usize,
    key: &K,
    steps: &mut Steps<L>,
) -> Result<usize, usize>
    requires ascending { IsStrictlySortedBy K.order keys.now.keys }
    requires within { from ≤ length keys.now.keys }
    requires before { (i : ℕ) → (k : K) → i < from → slice_get keys.now.keys i ≡ Some k → K.order key.now k ≡ Greater }
    ensures place { IsKeyPlace K.order keys.now.keys key.now result }
    ensures from { MatchResult result (λ at. from ≤ at) (λ at. from ≤ at) }
    ensures fits { IfOk result (λ at. at + 1 < 2 ^ 64) }
    ensures counted { steps.old ≤ steps.new }
    ensures bound { 2 ^ (steps.new - steps.old) ≤ 2 * length keys.now.keys + 1 }
{
    let count = keys.len();
    let head = key.head();
    match block_of(keys, from / HEADS_OF_A_TOP, key, head, steps) {
        Ok(at) => Ok(at),
        Err(block) => {
            let start = HEADS_OF_A_TOP * block;
            let end = start + (count - start).min(HEADS_OF_A_TOP - 1);
            search_between(keys, start.max(from), end, key, head, steps)
        }
    }
}

// Where the key stands if it is one of those that a top is of, or else in which block it would have to stand, before this block's top.
// The key is sought among the tops from a block on, before which all keys are below it.
fn block_of<K: Key, L: Ledger>(
    keys: &Keys<K>,
    first: usize,
    key: &K,
    head: Head,
    steps: &mut Steps<L>,
) -> Result<usize, usize>
    requires ascending { IsStrictlySortedBy K.order keys.now.keys }
    requires within { 32 * first ≤ length keys.now.keys }
    requires fits { length keys.now.keys < 2 ^ 64 }
    requires head { head ≡ K.heading key.now }
    requires before { (i : ℕ) → (k : K) → i < 32 * first → slice_get keys.now.keys i ≡ Some k → K.order key.now k ≡ Greater }
    ensures place { MatchResult result (StandsAt K.order keys.now.keys key.now) (λ block. IsRangeFor K.order keys.now.keys key.now (32 * block) (32 * block + 31)) }
    ensures from { MatchResult result (λ at. 32 * first + 31 ≤ at) (λ block. first ≤ block) }
    ensures within { MatchResult result (λ at. at < length keys.now.keys) (λ block. 32 * block ≤ length keys.now.keys) }
    ensures counted { steps.old ≤ steps.new }
    ensures bound { 2 ^ (steps.new - steps.old) ≤ 2 * (length keys.now.keys / 32) + 1 }
{
    let mut low = first;
    let mut high = keys.top_count();
    'halving: while low < high {
        let block = low + (high - low) / 2;
        let at = HEADS_OF_A_TOP * block + (HEADS_OF_A_TOP - 1);
        match compare_at(keys, at, keys.top(block), key, head, steps) {
            Ordering::Less => high = block,
            Ordering::Equal => return Ok(at),
            Ordering::Greater => low = block + 1,
        }
    }
    Err(low)
}

// Where the key stands, or else where it would have to stand, sought between two places: all keys before the first are below it, and all
// from the second on above it.
fn search_between<K: Key, L: Ledger>(
    keys: &Keys<K>,
    from: usize,
    to: usize,
    key: &K,
    head: Head,
    steps: &mut Steps<L>,
) -> Result<usize, usize>
    requires ascending { IsStrictlySortedBy K.order keys.now.keys }
    requires in_order { from ≤ to }
    requires within { to ≤ length keys.now.keys }
    requires head { head ≡ K.heading key.now }
    requires range { IsRangeFor K.order keys.now.keys key.now from to }
    ensures place { IsKeyPlace K.order keys.now.keys key.now result }
    ensures from { MatchResult result (λ at. from ≤ at) (λ at. from ≤ at) }
    ensures within { IfOk result (λ at. at < length keys.now.keys) }
    ensures counted { steps.old ≤ steps.new }
    ensures bound { 2 ^ (steps.new - steps.old) ≤ 2 * (to - from) + 1 }
{
    let mut low = from;
    let mut high = to;
    'halving: while low < high {
        let middle = low + (high - low) / 2;
        match compare_at(keys, middle, keys.head(middle), key, head, steps) {
            Ordering::Less => high = middle,
            Ordering::Equal => return Ok(middle),
            Ordering::Greater => low = middle + 1,
        }
    }
    Err(low)
}

// How the key with this head compares to the one with this number and its head: by their heads, and by the keys only where the heads are
// the same.
#[inline(always)]
fn compare_at<K: Key, L: Ledger>(
    keys: &Keys<K>,
    at: usize,
    other: Head,
    key: &K,
    head: Head,
    steps: &mut Steps<L>,
) -> Ordering
    requires within { at < length keys.now.keys }
    requires other { (found : K) → slice_get keys.now.keys at ≡ Some found → other ≡ K.heading found }
    requires head { head ≡ K.heading key.now }
    ensures answer { (found : K) → slice_get keys.now.keys at ≡ Some found → result ≡ K.order key.now found }
    ensures counted { steps.new ≡ steps.old + 1 }
{
    match head.compare(&other, steps) {
        Ordering::Less => Ordering::Less,
        Ordering::Equal => key.compare(keys.get(at), steps),
        Ordering::Greater => Ordering::Greater,
    }
}
