ghost use Rattle.std.specs.Prelude.{◌≡◌, ℕ, ◌+◌, ◌<◌, ◌≤◌, length, slice_get, false, true, Some, IfOk};
ghost use Rattle.std.specs.declared.cmp.Ordering.TheVariants.{Less, Greater};
ghost use Rattle.std.specs.List.Sorted.{IsStrictlySortedBy};
ghost use Rattle.std.specs.Ordering.{is_eq};
ghost use Rattle.sc_keys.specs.Fresh.{IsFresh};
ghost use Rattle.sc_segment.specs.Carrying.{LoseNone};
ghost use Rattle.sc_segment.specs.Index.{IsInOrder};

use crate::flat_index::KeptIndex;
use sc_keys::{Key, Keys, Steps, search};
use std::alloc::{AllocError, Global};
use std::sync::ledger::{Blank, Ledger};

/// Which keys of an index stay as they are: true for each, but for those that an index of lost rows has. Only the keys of the latter are
/// sought. The only error is that memory was refused. How often keys are compared is counted for proofs alone.
pub(crate) fn which_stay<K: Key + Drop, L: Ledger>(
    alloc: Global,
    old: &KeptIndex<K>,
    lost: &KeptIndex<K>,
    blank: Blank,
) -> Result<Vec<bool>, AllocError>
    requires fresh { IsFresh blank L.name L.parts }
    requires old { IsInOrder K.order old.now.entries }
    requires lost { IsInOrder K.order lost.now.entries }
    ensures { IfOk result (λ stays. LoseNone K.order stays.items old.now.entries lost.now.entries) }
{
    let mut stays = vec![in alloc; true; old.keys().len()]?;
    leave_lost::<K, L>(stays.as_mut_slice(), old, lost, blank);
    Ok(stays)
}

// No key that an index of lost rows has is told to stay.
fn leave_lost<K: Key + Drop, L: Ledger>(
    stays: &mut [bool],
    old: &KeptIndex<K>,
    lost: &KeptIndex<K>,
    blank: Blank,
)
    requires fresh { IsFresh blank L.name L.parts }
    requires old { IsInOrder K.order old.now.entries }
    requires lost { IsInOrder K.order lost.now.entries }
    requires as_long { length stays.old ≡ length old.now.entries }
    ensures as_long { length stays.new ≡ length stays.old }
    ensures lost { LoseNone K.order stays.new old.now.entries lost.now.entries }
{
    let mut steps = Steps::<L>::new(blank);
    let keys = lost.keys();
    let mut from = 0;
    'seeking: for at in 0..keys.len() {
        from = leave_key(stays, old.keys(), from, keys.get(at), &mut steps);
    }
}

// No key that compares equal to this one is told to stay. It is sought from a place on, before which all keys are below it. Gives the place
// after it.
fn leave_key<K: Key, L: Ledger>(
    stays: &mut [bool],
    keys: &Keys<K>,
    from: usize,
    key: &K,
    steps: &mut Steps<L>,
) -> usize
    requires ascending { IsStrictlySortedBy K.order keys.now.keys }
    requires as_long { length stays.old ≡ length keys.now.keys }
    requires within { from ≤ length keys.now.keys }
    requires before { (i : ℕ) → (k : K) → i < from → slice_get keys.now.keys i ≡ Some k → K.order key.now k ≡ Greater }
    ensures as_long { length stays.new ≡ length stays.old }
    ensures within { result ≤ length keys.now.keys }
    ensures passed { (i : ℕ) (k later : K) → i < result → slice_get keys.now.keys i ≡ Some k → K.order key.now later ≡ Less → K.order later k ≡ Greater }
    ensures still { (i : ℕ) → slice_get stays.new i ≡ Some true → slice_get stays.old i ≡ Some true }
    ensures apart { (i : ℕ) (k : K) → slice_get keys.now.keys i ≡ Some k → slice_get stays.new i ≡ Some true → is_eq (K.order key.now k) ≡ false }
{
    match search(keys, from, key, steps) {
        Ok(at) => {
            stays[at] = false;
            at + 1
        }
        Err(at) => at,
    }
}
