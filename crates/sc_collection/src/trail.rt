ghost use Rattle.std.specs.Prelude.{◌≡◌, ◌+◌, ◌<◌, ◌^◌, [], ◌∷◌, ◌++◌, length, slice_get, IfOk};
ghost use Rattle.sc_collection.specs.Kept.{Kept, is_full, request_limit, trail_room};

use crate::packed::PackedStop;
use sc_record::MAX_ORDERS;
use sc_router::MOST_BUCKETS;
use sc_seen::Stop;
use std::alloc::{AllocError, Global};
use std::marker::Model;

/// The most requests of a connection.
const MAX_REQUESTS: u32 = 1_000;

/// The number of stops after which a connection takes no further request.
const MAX_STOPS: usize = 65_536;

/// The most stops of one request.
const STOPS_OF_REQUEST: usize = 10 * MAX_ORDERS + 2 * MOST_BUCKETS;

/// How many stops a trail has room for: those after which a connection takes no further request, and those of one request more.
const TRAIL_ROOM: usize = MAX_STOPS + STOPS_OF_REQUEST;

/// The stops of a connection, in order, and how many requests it has answered. All its memory is taken when it is made.
#[derive(Debug, Drop)]
pub struct Trail {
    stops: Vec<PackedStop>,
    requests: u32,
}

impl Model for Trail {
    ghost use Rattle.std.specs.Prelude.{◌≤◌, map, vec_capacity};
    ghost use Rattle.sc_collection.specs.Kept.{Kept, trail_room};
    ghost use Rattle.sc_collection.specs.Packed.{unpacked};

    ghost Value = { Kept };

    ghost view = { λ a. record { stops = map unpacked a.stops.items; requests = a.requests } };

    ghost invariant = { λ a. trail_room ≤ vec_capacity a.stops };
}

impl Trail {
    /// An empty trail, with its room.
    pub fn new(alloc: Global) -> Result<Trail, AllocError>
        ensures { IfOk result (λ trail. trail ≡ record { stops = []; requests = 0 }) }
    {
        Ok(Trail {
            stops: Vec::with_capacity(alloc, TRAIL_ROOM)?,
            requests: 0,
        })
    }

    /// Forgets the stops and the requests. The room stays.
    pub fn clear(&mut self)
        ensures { self.new ≡ record { stops = []; requests = 0 } }
    {
        self.stops.clear();
        self.requests = 0;
    }

    /// How many stops were kept.
    pub fn len(&self) -> usize
        ensures { result ≡ length self.now.stops }
    {
        self.stops.len()
    }

    /// The stop at a place of the trail, from 0 on, in the order in which they were kept; None after the last.
    pub fn get(&self, at: usize) -> Option<Stop>
        ensures { result ≡ slice_get self.now.stops at }
    {
        self.stops.get(at).map(|packed| packed.unpack())
    }

    /// Whether the connection has had its requests or its stops, and takes no further request.
    pub fn is_full(&self) -> bool
        ensures { result ≡ is_full self.now }
    {
        self.requests >= MAX_REQUESTS || self.stops.len() >= MAX_STOPS
    }

    /// Keeps one more stop.
    pub fn keep(&mut self, stop: Stop)
        requires room { length self.old.stops < trail_room }
        requires place { stop.place < 2 ^ 31 }
        ensures { self.new ≡ record { stops = self.old.stops ++ stop ∷ []; requests = self.old.requests } }
    {
        self.stops.push_reserved(PackedStop::pack(stop));
    }

    /// Counts one more request.
    pub fn count_request(&mut self)
        requires { self.old.requests < request_limit }
        ensures { self.new ≡ record { stops = self.old.stops; requests = self.old.requests + 1 } }
    {
        self.requests += 1;
    }
}
