//! The lock, and how it is made.
ghost use Rattle.std.specs.Prelude.{◌≡◌};

use crate::doors::Doors;
use crate::keeper::Keeper;
use crate::kept::Kept;
use crate::pass::Pass;
use crate::steps::{LockRule, SplitFirst};
use crate::view::{LockSeat, View};
use atomic_table::Table;
use std::alloc::{AllocError, Global};
use std::snapshot::Snapshot;

/// A ticket lock round one value, and the value.
///
/// Its table has three words, the number of tickets drawn and served, modulo 2^64, and the journal's
/// length, and one slot, where the value is while nobody holds it. A hold and its give by a lone
/// thread are five atomic steps, take no memory and move the value; a thread that waits spins for a
/// short time and then sleeps until a give lets its ticket in, which wakes it and at most those few whose
/// tickets share its door (one of 64). Dropping a lock drops its value once;
/// a value that is out when the lock is dropped is its holder's.
#[derive(Drop)]
pub struct Lock<K: Kept> {
    pub(crate) table: Table<Option<K>, View<K, K::Entry, K::Part>, Snapshot<K>, LockRule, Global>,
    pub(crate) doors: Doors,
    ghost counts: { (table.shared.table_id.words ≡ 3) × (table.shared.table_id.slots ≡ 1) },
}

impl<K: Kept + Drop> Lock<K> {
    ghost use Rattle.std.specs.Prelude.{◌^◌, IfOk};
    ghost use Rattle.sc_lock.specs.Tokens.{lock_id, lock_name};
    ghost use Rattle.sc_lock.specs.Calls.{IsNewPassOf, IsNewKeeperOf};

    /// Puts a value behind a lock of its own, with the first pass and the one keeper.
    ///
    /// It fails only where memory runs out, and the value is dropped then.
    pub fn new(alloc: Global, value: K) -> Result<(Lock<K>, Pass<K>, Keeper<K>), AllocError>
        requires sound { K.sound value }
        ensures name { IfOk result (λ r. lock_name K.name r.0 ≡ K.name value) }
        ensures pass { IfOk result (λ r. IsNewPassOf (lock_id r.0) (K.journal value) (2 ^ 31) r.1) }
        ensures keeper { IfOk result (λ r. IsNewKeeperOf (lock_id r.0) (K.journal value) (K.part value) r.2) }
    {
        // The snapshot has no bytes: by it proofs name the value that the lock was made with.
        let origin = Snapshot::of(&value);
        let words = [0, 0, value.entries()];
        let mut slots = Vec::new(alloc);
        slots.push(Some(value))?;
        let Ok((table, seat)) = Table::new(alloc, &words, slots, &origin) else {
            return Err(AllocError);
        };
        let doors = Doors::new(alloc)?;
        let lock = Lock { table, doors };
        let (pass, keeper) = lock.split_first(seat);
        Ok((lock, pass, keeper))
    }
}

impl<K: Kept> Lock<K> {
    ghost use Rattle.std.specs.Prelude.{◌^◌, []};
    ghost use Rattle.sc_lock.specs.Views.{first_view};
    ghost use Rattle.sc_lock.specs.Tokens.{origin_of, lock_id, IsOfTable};
    ghost use Rattle.sc_lock.specs.Calls.{IsNewPassOf, IsNewKeeperOf};

    // Splits the first seat in two: the keeper's, and the pass's with all splits.
    fn split_first(&self, mut seat: LockSeat<K>) -> (Pass<K>, Keeper<K>)
        requires lock { IsOfTable self.now seat }
        requires first { seat.me ≡ (first_view K.Kept (origin_of self.now), []) }
        ensures pass { IsNewPassOf (lock_id self.now) (K.journal (origin_of self.now)) (2 ^ 31) result.0 }
        ensures keeper { IsNewKeeperOf (lock_id self.now) (K.journal (origin_of self.now)) (K.part (origin_of self.now)) result.1 }
    {
        let plain = self.table.shared.split_seat::<SplitFirst>(&mut seat);
        (Pass { seat: plain }, Keeper { seat })
    }
}
