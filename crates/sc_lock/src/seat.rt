//! The lock's steps, each by one seat.
ghost use Rattle.std.specs.Prelude.{◌≡◌, ℕ, ◌%◌, ◌^◌, ◌<◌, [], ◌∷◌, Some, None, MatchBool};
ghost use Rattle.sc_lock.specs.declared.view.Stage.TheVariants.{Idle, Waiting, Holding};
ghost use Rattle.sc_lock.specs.Journal.{AreDisjoint, ArePlacesIn, IsLongest, longer, places_after};
ghost use Rattle.sc_lock.specs.Views.{with_stage, joined};
ghost use Rattle.sc_lock.specs.Steps.{IsWaitingFor, HasTaken, IsHandedOut, MayPutBack, noted};
ghost use Rattle.sc_lock.specs.Tokens.{IsIdleSeat, IsOfTable, IsSameSeat, origin_of};

use crate::kept::Kept;
use crate::lock::Lock;
use crate::steps::{Draw, JoinSeats, Look, Note, PassOn, Settle};
use crate::view::LockSeat;
use std::hint;
use std::sync::Wait;

/// The word of the tickets drawn, modulo 2^64.
pub const NEXT: usize = 0;

/// The word of the tickets served, modulo 2^64.
pub const SERVED: usize = 1;

/// The word of the journal's length.
pub const LENGTH: usize = 2;

/// The slot of the value.
pub const VALUE: usize = 0;

// Looks between which a waiter spins, twice as long each time; after them it sleeps.
const SPINS: u32 = 7;

// Spins for a time that doubles with each look.
fn spin(looks: u32)
    requires { looks < 32 }
{
    for _ in 0..1u32 << looks {
        hint::spin_loop();
    }
}

impl<K: Kept> Lock<K> {
    // Draws a ticket, and answers its remainder modulo 2^64.
    pub(crate) fn draw(&self, seat: &mut LockSeat<K>) -> u64
        requires lock { IsOfTable self.now seat.old }
        requires idle { IsIdleSeat seat.old × (0 < seat.old.me.0.weight) }
        ensures seat { IsSameSeat seat.old seat.new }
        ensures drawn { (t : ℕ) × (result ≡ t % 2 ^ 64) × (seat.new.me ≡ (with_stage seat.old.me.0 (Waiting t), [])) }
    {
        self.table.shared.fetch_add::<Draw>(seat, NEXT, 1)
    }

    // Whether the ticket is served; where it is, the seat has the value's slot.
    fn look(&self, seat: &mut LockSeat<K>, ticket: u64) -> bool
        requires lock { IsOfTable self.now seat.old }
        requires waits { IsWaitingFor ticket seat.old.me }
        ensures seat { IsSameSeat seat.old seat.new }
        ensures turn { MatchBool result
            ((x : K) × HasTaken seat.old.me seat.new.me x × IsHandedOut K.Kept seat.old.me.0 x)
            (seat.new.me ≡ seat.old.me) }
    {
        self.table.shared.load::<Look>(seat, SERVED) == ticket
    }

    // Moves the value out of the slot that the seat has.
    fn take_value(&self, seat: &mut LockSeat<K>) -> K
        requires lock { IsOfTable self.now seat.old }
        requires holds { (x : K) × (seat.old.me.1 ≡ (0, Some x) ∷ []) }
        ensures seat { IsSameSeat seat.old seat.new }
        ensures value { (seat.old.me.1 ≡ (0, Some result) ∷ []) × (seat.new.me ≡ (seat.old.me.0, (0, None) ∷ [])) }
    {
        self.table.shared.exchange(seat, VALUE, None).unwrap()
    }

    // Moves the value into the slot that the seat has.
    fn put_value(&self, seat: &mut LockSeat<K>, value: K)
        requires lock { IsOfTable self.now seat.old }
        requires holds { seat.old.me.1 ≡ (0, None) ∷ [] }
        ensures seat { IsSameSeat seat.old seat.new }
        ensures value { seat.new.me ≡ (seat.old.me.0, (0, Some value) ∷ []) }
    {
        // What was in the slot can't just be let go, since a value need not be `Drop`: it is none.
        match self.table.shared.exchange(seat, VALUE, Some(value)) {
            None => {}
            Some(_) => unreachable!(),
        }
    }

    // Waits until the ticket is served, and moves the value out.
    pub(crate) fn wait<R: Wait>(&self, rt: &R, seat: &mut LockSeat<K>, ticket: u64) -> K
        requires lock { IsOfTable self.now seat.old }
        requires waits { IsWaitingFor ticket seat.old.me }
        ensures seat { IsSameSeat seat.old seat.new }
        ensures found { (t : ℕ) × (seat.new.me ≡ (with_stage seat.old.me.0 (Holding t result), (0, None) ∷ [])) }
        ensures finds { IsHandedOut K.Kept seat.old.me.0 result }
    {
        let mut looks = 0;
        for _ in rt.forever() {
            if self.look(seat, ticket) {
                return self.take_value(seat);
            }
            if looks < SPINS {
                spin(looks);
                looks += 1;
            } else {
                self.sleep(rt, ticket);
            }
        }
        // `forever` has no end.
        unreachable!()
    }

    // Puts the value back with its journal noted, passes the turn on, and answers the number served
    // until then.
    pub(crate) fn put_back(&self, seat: &mut LockSeat<K>, value: K) -> u64
        requires lock { IsOfTable self.now seat.old × (seat.old.me.0.origin ≡ Some (origin_of self.now)) }
        requires named { K.name value ≡ K.name (origin_of self.now) }
        requires holds { MayPutBack K.Kept seat.old.me value }
        ensures seat { IsSameSeat seat.old seat.new }
        ensures noted { (t : ℕ) (x : K) → seat.old.me.0.stage ≡ Holding t x
            → seat.new.me ≡ (with_stage (noted K.Kept seat.old.me.0 t x value) Idle, []) }
        ensures places { (t : ℕ) (x : K) → seat.old.me.0.stage ≡ Holding t x
            → ArePlacesIn (places_after seat.old.me.0.places (K.journal x) (K.journal value)) (K.journal value) }
    {
        let entries = value.entries();
        self.put_value(seat, value);
        self.table.shared.store::<Note>(seat, LENGTH, entries);
        self.table.shared.fetch_add::<PassOn>(seat, SERVED, 1)
    }

    // Lets `into` have what `from` has seen, and its places.
    pub(crate) fn join_seats(&self, into: &mut LockSeat<K>, from: LockSeat<K>)
        requires lock { IsOfTable self.now into.old × IsOfTable self.now from }
        requires idle { IsIdleSeat into.old × IsIdleSeat from }
        ensures seat { IsSameSeat into.old into.new }
        ensures view { into.new.me ≡ (with_stage (joined into.old.me.0 from.me.0) Idle, []) }
        ensures longest { IsLongest into.old.me.0.seen from.me.0.seen (longer into.old.me.0.seen from.me.0.seen) }
        ensures disjoint { AreDisjoint into.old.me.0.places from.me.0.places }
        ensures places { ArePlacesIn into.new.me.0.places into.new.me.0.seen }
    {
        self.table.shared.join_seat::<JoinSeats>(into, from);
        // The number isn't needed: the look shows the proof what was joined.
        self.table.shared.load::<Settle>(into, SERVED);
    }
}
