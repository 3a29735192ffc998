//! Those who hold the lock and leave the keeper's part as it is.
ghost use Rattle.std.specs.Prelude.{◌≡◌, ◌+◌, ◌<◌};
ghost use Rattle.sc_lock.specs.Journal.{AreDisjoint, merged_places, places_after, IsLongest};
ghost use Rattle.sc_lock.specs.Tokens.{lock_id, IsPassOf, IsFree, seen, own_places, splits_left, IsTurnOf, handed};
ghost use Rattle.sc_lock.specs.Calls.{IsNewPassOf, PassKnowsTheSame, IsFoundBy, MayBeGiven};

use crate::kept::Kept;
use crate::lock::Lock;
use crate::steps::SplitPass;
use crate::turn::Turn;
use crate::view::LockSeat;
use std::sync::Wait;

/// A right to hold one lock. It knows how much of the journal it has seen, the places of its own
/// entries, and how many passes may be split off. It has no bytes.
#[derive(Drop)]
pub struct Pass<K: Kept> {
    pub(crate) seat: LockSeat<K>,
}

impl<K: Kept> Lock<K> {
    /// Waits for the lock and hands out the value.
    pub fn hold<R: Wait>(&self, rt: &R, pass: &mut Pass<K>) -> (K, Turn<K>)
        requires pass { IsPassOf (lock_id self.now) pass.old × IsFree pass.old }
        ensures found { IsFoundBy K.Kept self.now (seen pass.old) (own_places pass.old) result.0 }
        ensures turn { IsTurnOf K.name pass.new result.1 }
        ensures handed { handed result.1 ≡ result.0 }
        ensures pass { IsPassOf (lock_id self.now) pass.new }
        ensures same { PassKnowsTheSame pass.old pass.new }
    {
        self.take_turn(rt, &mut pass.seat)
    }

    /// Gives the value back, changed by one step or not at all, and lets the next holder in.
    pub fn give(&self, pass: &mut Pass<K>, turn: Turn<K>, value: K)
        requires pass { IsPassOf (lock_id self.now) pass.old }
        requires turn { IsTurnOf K.name pass.old turn }
        requires value { MayBeGiven K.Kept (own_places pass.old) (handed turn) value }
        requires part { K.part value ≡ K.part (handed turn) }
        ensures pass { IsPassOf (lock_id self.now) pass.new × IsFree pass.new }
        ensures seen { seen pass.new ≡ K.journal value }
        ensures places { own_places pass.new
            ≡ places_after (own_places pass.old) (K.journal (handed turn)) (K.journal value) }
        ensures splits { splits_left pass.new ≡ splits_left pass.old }
    {
        self.give_back(&mut pass.seat, turn, value);
    }

    /// Splits a pass off, for another thread, in one atomic step. It takes no memory.
    pub fn split_pass(&self, pass: &mut Pass<K>) -> Pass<K>
        requires pass { IsPassOf (lock_id self.now) pass.old × IsFree pass.old }
        requires left { 0 < splits_left pass.old }
        ensures pass { IsPassOf (lock_id self.now) pass.new × IsFree pass.new }
        ensures seen { seen pass.new ≡ seen pass.old }
        ensures places { own_places pass.new ≡ own_places pass.old }
        ensures splits { splits_left pass.new + 1 ≡ splits_left pass.old }
        ensures new { IsNewPassOf (lock_id self.now) (seen pass.old) 0 result }
    {
        let seat = self.table.shared.split_seat::<SplitPass>(&mut pass.seat);
        Pass { seat }
    }

    /// Lets one pass have what two have seen and the entries of both, in two atomic steps. It takes no
    /// memory.
    pub fn join_pass(&self, into: &mut Pass<K>, from: Pass<K>)
        requires pass { IsPassOf (lock_id self.now) into.old × IsFree into.old }
        requires from { IsPassOf (lock_id self.now) from × IsFree from }
        ensures pass { IsPassOf (lock_id self.now) into.new × IsFree into.new }
        ensures seen { IsLongest (seen into.old) (seen from) (seen into.new) }
        ensures disjoint { AreDisjoint (own_places into.old) (own_places from) }
        ensures places { own_places into.new ≡ merged_places (own_places into.old) (own_places from) }
        ensures splits { splits_left into.new ≡ splits_left into.old + splits_left from + 1 }
    {
        let Pass { seat } = from;
        self.join_seats(&mut into.seat, seat);
    }
}
