//! Who holds the lock and may change the keeper's part.
ghost use Rattle.std.specs.Prelude.{◌≡◌, Some};
ghost use Rattle.sc_lock.specs.Journal.{places_after, IsLongest};
ghost use Rattle.sc_lock.specs.Tokens.{lock_id, IsPassOf, IsFree, seen, own_places, splits_left, IsKeeperOf, IsFreeKeeper, keeper_seen, keeper_places, keeper_part, IsTurnOfKeeper, handed};
ghost use Rattle.sc_lock.specs.Calls.{PassKnowsTheSame, KeeperKnowsTheSame, IsFoundBy, MayBeGiven};

use crate::kept::Kept;
use crate::lock::Lock;
use crate::pass::Pass;
use crate::steps::SplitSeen;
use crate::turn::Turn;
use crate::view::LockSeat;
use std::sync::Wait;

/// The one right to hold a lock and change the value's part. It knows what a pass does, and the part
/// that it left. It has no bytes.
#[derive(Drop)]
pub struct Keeper<K: Kept> {
    pub(crate) seat: LockSeat<K>,
}

impl<K: Kept> Lock<K> {
    /// Waits for the lock and hands out the value, whose part is the one that the keeper left.
    pub fn hold_keeper<R: Wait>(&self, rt: &R, keeper: &mut Keeper<K>) -> (K, Turn<K>)
        requires keeper { IsKeeperOf (lock_id self.now) keeper.old × IsFreeKeeper keeper.old }
        ensures found { IsFoundBy K.Kept self.now (keeper_seen keeper.old) (keeper_places keeper.old) result.0 }
        ensures left { keeper_part keeper.old ≡ Some (K.part result.0) }
        ensures turn { IsTurnOfKeeper K.name keeper.new result.1 }
        ensures handed { handed result.1 ≡ result.0 }
        ensures keeper { IsKeeperOf (lock_id self.now) keeper.new }
        ensures same { KeeperKnowsTheSame keeper.old keeper.new }
    {
        self.take_turn(rt, &mut keeper.seat)
    }

    /// Gives the value back, changed by one step or not at all, and lets the next holder in.
    pub fn give_keeper(&self, keeper: &mut Keeper<K>, turn: Turn<K>, value: K)
        requires keeper { IsKeeperOf (lock_id self.now) keeper.old }
        requires turn { IsTurnOfKeeper K.name keeper.old turn }
        requires value { MayBeGiven K.Kept (keeper_places keeper.old) (handed turn) value }
        ensures keeper { IsKeeperOf (lock_id self.now) keeper.new × IsFreeKeeper keeper.new }
        ensures seen { keeper_seen keeper.new ≡ K.journal value }
        ensures places { keeper_places keeper.new
            ≡ places_after (keeper_places keeper.old) (K.journal (handed turn)) (K.journal value) }
        ensures part { keeper_part keeper.new ≡ Some (K.part value) }
    {
        self.give_back(&mut keeper.seat, turn, value);
    }

    /// Lets the keeper have seen what a pass has, in three atomic steps. It waits for nobody and takes no memory.
    pub fn show(&self, pass: &mut Pass<K>, keeper: &mut Keeper<K>)
        requires pass { IsPassOf (lock_id self.now) pass.old × IsFree pass.old }
        requires keeper { IsKeeperOf (lock_id self.now) keeper.old × IsFreeKeeper keeper.old }
        ensures seen { IsLongest (keeper_seen keeper.old) (seen pass.old) (keeper_seen keeper.new) }
        ensures pass { IsPassOf (lock_id self.now) pass.new × IsFree pass.new }
        ensures pass_rest { PassKnowsTheSame pass.old pass.new }
        ensures keeper { IsKeeperOf (lock_id self.now) keeper.new × IsFreeKeeper keeper.new }
        ensures keeper_rest { (keeper_places keeper.new ≡ keeper_places keeper.old) × (keeper_part keeper.new ≡ keeper_part keeper.old) }
    {
        let from_pass = self.table.shared.split_seat::<SplitSeen>(&mut pass.seat);
        self.join_seats(&mut keeper.seat, from_pass);
    }

    /// Lets a pass and the keeper have seen the same, in six atomic steps. It waits for nobody and
    /// takes no memory.
    pub fn meet(&self, pass: &mut Pass<K>, keeper: &mut Keeper<K>)
        requires pass { IsPassOf (lock_id self.now) pass.old × IsFree pass.old }
        requires keeper { IsKeeperOf (lock_id self.now) keeper.old × IsFreeKeeper keeper.old }
        ensures same { keeper_seen keeper.new ≡ seen pass.new }
        ensures seen { IsLongest (seen pass.old) (keeper_seen keeper.old) (seen pass.new) }
        ensures pass { IsPassOf (lock_id self.now) pass.new × IsFree pass.new }
        ensures pass_rest { (own_places pass.new ≡ own_places pass.old) × (splits_left pass.new ≡ splits_left pass.old) }
        ensures keeper { IsKeeperOf (lock_id self.now) keeper.new × IsFreeKeeper keeper.new }
        ensures keeper_rest { (keeper_places keeper.new ≡ keeper_places keeper.old) × (keeper_part keeper.new ≡ keeper_part keeper.old) }
    {
        // Each passes on what it has seen by a seat that is split off it.
        let from_pass = self.table.shared.split_seat::<SplitSeen>(&mut pass.seat);
        let from_keeper = self.table.shared.split_seat::<SplitSeen>(&mut keeper.seat);
        self.join_seats(&mut pass.seat, from_keeper);
        self.join_seats(&mut keeper.seat, from_pass);
    }
}
