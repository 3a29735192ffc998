ghost use Rattle.std.specs.Prelude.{◌≡◌, ℕ, ◌+◌, ◌-◌, ◌*◌, ◌^◌, ◌≤◌, ◌↔◌, List, length, Contains};
ghost use Rattle.std.specs.List.Sorted.{IsStrictlyIncreasing};
ghost use Rattle.sc_segment.specs.Index.{IsIndexOf, IsInOrder, rows_with, WasAddedWith};

use crate::flat_index::KeptIndex;
use sc_keys::{Key, Steps, search};
use std::marker::Model;
use std::sync::ledger::Ledger;

/// For each distinct key the list of its rows, the keys in ascending order.
#[derive(Drop)]
pub struct Segment<K: Key> {
    pub(crate) index: KeptIndex<K>,
}

impl<K: Key> Model for Segment<K> {
    ghost use Rattle.std.specs.Prelude.{ℕ, List};
    ghost use Rattle.sc_segment.specs.Index.{IsInOrder};

    ghost Value = { List (K × List ℕ) };

    ghost view = { λ a. a.index.entries };

    ghost invariant = { λ a. IsInOrder K.order a.index.entries };
}

impl<K: Key> Segment<K> {
    pub(crate) fn new(index: KeptIndex<K>) -> Self
        requires { IsInOrder K.order index.entries }
        ensures { result ≡ index.entries }
    {
        Segment { index }
    }

    /// The rows that were added with a key that compares equal, none where no row was. The key is sought by
    /// halving, so that among a thousand keys it is compared at most ten times.
    pub fn postings<L: Ledger>(&self, key: &K, steps: &mut Steps<L>) -> &[u32]
        ensures rows { (added : List (ℕ × K)) → IsIndexOf K.order added self.now → result.now ≡ rows_with K.order added key.now }
        ensures members { (added : List (ℕ × K)) → IsIndexOf K.order added self.now → (row : ℕ) → Contains result.now row ↔ WasAddedWith K.order added key.now row }
        ensures ascending { IsStrictlyIncreasing result.now }
        ensures counted { steps.old ≤ steps.new }
        ensures bound { 2 ^ (steps.new - steps.old) ≤ 2 * length self.now + 1 }
    {
        match search(self.index.keys(), 0, key, steps) {
            Ok(at) => self.index.rows_of(at),
            Err(_) => &[],
        }
    }
}
