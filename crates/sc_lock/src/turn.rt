//! The right to give back what was handed out, and what a pass and the keeper have in common: how
//! a seat holds the lock and gives the value back.
ghost use Rattle.std.specs.Prelude.{◌≡◌, None, Some};
ghost use Rattle.sc_lock.specs.Journal.{places_after};
ghost use Rattle.sc_lock.specs.Views.{part_after};
ghost use Rattle.sc_lock.specs.Tokens.{lock_id, seat_seen, seat_places, seat_part, seat_weight, IsIdleSeat, IsSeatOf, IsTurnAt, handed};
ghost use Rattle.sc_lock.specs.Calls.{SeatKnowsTheSame, IsFoundBy, MayBeGiven};

use crate::kept::Kept;
use crate::lock::Lock;
use crate::view::LockSeat;
use std::snapshot::Snapshot;
use std::sync::Wait;

/// It comes with each value that a lock hands out, and has to be given back with it: it can't be
/// dropped. It has no bytes.
pub struct Turn<K: Kept> {
    pub(crate) handed: Snapshot<K>,
    pub(crate) seat: Snapshot<LockSeat<K>>,
}

impl<K: Kept> Lock<K> {
    // Draws a ticket, waits until it is served, and hands out the value.
    pub(crate) fn take_turn<R: Wait>(&self, rt: &R, seat: &mut LockSeat<K>) -> (K, Turn<K>)
        requires seat { IsSeatOf (lock_id self.now) seat.old × IsIdleSeat seat.old }
        ensures found { IsFoundBy K.Kept self.now (seat_seen seat.old) (seat_places seat.old) result.0 }
        ensures left { (p : K.Part) → seat_part seat.old ≡ Some p → K.part result.0 ≡ p }
        ensures turn { IsTurnAt K.name seat.new result.1 }
        ensures handed { handed result.1 ≡ result.0 }
        ensures seat { IsSeatOf (lock_id self.now) seat.new }
        ensures same { SeatKnowsTheSame seat.old seat.new }
    {
        let ticket = self.draw(seat);
        let value = self.wait(rt, seat, ticket);
        // The snapshots have no bytes: by them proofs name what was handed out, and to which seat.
        let turn = Turn {
            handed: Snapshot::of(&value),
            seat: Snapshot::of(seat),
        };
        (value, turn)
    }

    // Puts the value back, passes the turn on, and wakes the one whose turn it is.
    pub(crate) fn give_back(&self, seat: &mut LockSeat<K>, turn: Turn<K>, value: K)
        requires seat { IsSeatOf (lock_id self.now) seat.old }
        requires turn { IsTurnAt K.name seat.old turn }
        requires value { MayBeGiven K.Kept (seat_places seat.old) (handed turn) value }
        requires part { seat_part seat.old ≡ None → K.part value ≡ K.part (handed turn) }
        ensures seat { IsSeatOf (lock_id self.now) seat.new × IsIdleSeat seat.new }
        ensures seen { seat_seen seat.new ≡ K.journal value }
        ensures places { seat_places seat.new
            ≡ places_after (seat_places seat.old) (K.journal (handed turn)) (K.journal value) }
        ensures part { seat_part seat.new ≡ part_after (seat_part seat.old) (K.part value) }
        ensures weight { seat_weight seat.new ≡ seat_weight seat.old }
    {
        // A turn can't be dropped, so it is taken apart here.
        let Turn { handed: _, seat: _ } = turn;
        let served = self.put_back(seat, value);
        self.wake(served);
    }
}
