ghost use Rattle.std.specs.Prelude.{◌≡◌, ◌<◌, ◌-◌, ◌==◌, [], ◌∷◌, ◌++◌, filter, not, length, max, OnOk, OnErr, ◌↔◌, IsTrue, Contains};

use std::alloc::{AllocError, Global};
use std::marker::Model;

/// The places of the writes of a journal that no entry settles yet, ascending, and room for more. They are few: each update
/// settles its write before it is answered.
#[derive(Debug, Drop)]
pub struct Unsettled {
    places: Vec<u64>,
    // how many more places fit, as far as callers have asked for room
    room: usize,
}

impl Model for Unsettled {
    ghost use Rattle.std.specs.Prelude.{◌+◌, ◌≤◌, vec_len, vec_capacity};
    ghost use Rattle.sc_bucket.specs.Kept.{PlacesState};

    ghost Value = { PlacesState };

    ghost view = { λ a. record { places = a.places.items; room = a.room } };

    ghost invariant = { λ a. vec_len a.places + a.room ≤ vec_capacity a.places };
}

impl Unsettled {
    /// No places, and no room. It takes no memory.
    pub fn new(alloc: Global) -> Unsettled
        ensures { result ≡ record { places = []; room = 0 } }
    {
        Unsettled {
            places: Vec::new(alloc),
            room: 0,
        }
    }

    pub fn len(&self) -> usize
        ensures { result ≡ length self.now.places }
    {
        self.places.len()
    }

    /// Whether the place is among them.
    pub fn contains(&self, place: u64) -> bool
        ensures { IsTrue result ↔ Contains self.now.places place }
    {
        self.places.contains(&place)
    }

    /// Makes room for at least `n` more places. An error means out of memory.
    pub fn reserve(&mut self, n: usize) -> Result<(), AllocError>
        ensures ok { OnOk result (self.new ≡ record self.old { room = max self.old.room n }) }
        ensures err { OnErr result (self.new ≡ self.old) }
    {
        if n > self.room {
            self.places.reserve(n)?;
            self.room = n;
        }
        Ok(())
    }

    /// Puts a place at the end, in the room that `reserve` made. It takes no memory.
    pub fn append(&mut self, place: u64)
        requires { 0 < self.old.room }
        ensures { self.new ≡ record { places = self.old.places ++ place ∷ []; room = self.old.room - 1 } }
    {
        self.places.push_reserved(place);
        self.room -= 1;
    }

    /// Takes a place out.
    pub fn remove(&mut self, place: u64)
        ensures { self.new ≡ record self.old { places = filter (λ p. not (p == place)) self.old.places } }
    {
        self.places.retain(|kept| *kept != place);
    }
}
