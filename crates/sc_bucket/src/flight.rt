ghost use Rattle.std.specs.Prelude.{◌≡◌, ◌≢◌, ◌<◌, ◌≤◌, ◌-◌, [], ◌++◌, length, map, filter, take, max, slice_get, Some, true, false, not, MatchOption, OnOk, OnErr, All};
ghost use Rattle.std.specs.List.{remove};
ghost use Rattle.sc_bucket.specs.Kept.{Sent};
ghost use Rattle.sc_replicas.specs.Cores.{is_of_one};
ghost use Rattle.sc_bucket.specs.Flight.{sent_of, is_to, is_for, IsFirstOf};

use crate::message::Message;
use sc_cluster::ClusterMap;
use sc_record::CoreId;
use sc_replicas::is_of_one;
use std::alloc::{AllocError, Global};
use std::marker::Model;

/// The messages in flight, in the order of sending, and room for more. They are few: each update delivers its own before it is
/// answered.
#[derive(Drop)]
pub struct Flight {
    messages: Vec<Message>,
    // how many more messages fit, as far as callers have asked for room
    room: usize,
}

impl Model for Flight {
    ghost use Rattle.std.specs.Prelude.{◌+◌, ◌≤◌, map, vec_len, vec_capacity};
    ghost use Rattle.sc_bucket.specs.Kept.{FlightState};
    ghost use Rattle.sc_bucket.specs.Flight.{sent_of};

    ghost Value = { FlightState };

    ghost view = { λ a. record { messages = map sent_of a.messages.items; room = a.room } };

    ghost invariant = { λ a. vec_len a.messages + a.room ≤ vec_capacity a.messages };
}

impl Flight {
    /// No messages, and no room. It takes no memory.
    pub fn new(alloc: Global) -> Flight
        ensures { result ≡ record { messages = []; room = 0 } }
    {
        Flight {
            messages: Vec::new(alloc),
            room: 0,
        }
    }

    /// How many messages there are.
    pub fn len(&self) -> usize
        ensures { result ≡ length self.now.messages }
    {
        self.messages.len()
    }

    pub fn as_slice(&self) -> &[Message]
        ensures { map sent_of result.now ≡ self.now.messages }
    {
        self.messages.as_slice()
    }

    /// Makes room for at least `n` more messages. An error means out of memory.
    pub fn reserve(&mut self, n: usize) -> Result<(), AllocError>
        ensures ok { OnOk result (self.new ≡ record self.old { room = max self.old.room n }) }
        ensures err { OnErr result (self.new ≡ self.old) }
    {
        if n > self.room {
            self.messages.reserve(n)?;
            self.room = n;
        }
        Ok(())
    }

    /// Puts messages at the end, in the room that `reserve` made. It takes no memory.
    pub fn append(&mut self, messages: Vec<Message>)
        requires { length messages.items ≤ self.old.room }
        ensures { self.new ≡ record { messages = self.old.messages ++ map sent_of messages.items; room = self.old.room - length messages.items } }
    {
        for message in messages {
            self.messages.push_reserved(message);
            self.room -= 1;
        }
    }

    /// The place in the flight of the first message of the write at this place of the journal; None where there is none.
    pub fn first_of(&self, place: u64) -> Option<usize>
        ensures { MatchOption result (All (λ (message : Sent). message.place ≢ place) self.now.messages)
            (λ at. (message : Sent) × IsFirstOf place self.now.messages at message) }
    {
        self.messages
            .iter()
            .position(|message| message.place == place)
    }

    /// The place in the flight of the first message to this core; None where there is none.
    pub fn first_to(&self, core: CoreId) -> Option<usize>
        ensures { MatchOption result (All (λ (message : Sent). is_to core message ≡ false) self.now.messages)
            (λ at. (message : Sent) × (slice_get self.now.messages at ≡ Some message) × (is_to core message ≡ true)
            × All (λ (other : Sent). is_to core other ≡ false) (take at self.now.messages)) }
    {
        self.messages
            .iter()
            .position(|message| message.core == core)
    }

    /// The place in the flight of the message to this core of the write at this place of the journal; None where there is none.
    pub fn first_for(&self, place: u64, core: CoreId) -> Option<usize>
        ensures { MatchOption result (All (λ (message : Sent). is_for place core message ≡ false) self.now.messages)
            (λ at. (message : Sent) × (slice_get self.now.messages at ≡ Some message) × (is_for place core message ≡ true)
            × All (λ (other : Sent). is_for place core other ≡ false) (take at self.now.messages)) }
    {
        self.messages
            .iter()
            .position(|message| message.place == place && message.core == core)
    }

    /// Keeps the messages to cores of the map's slices.
    pub fn keep_of(&mut self, slices: &ClusterMap)
        ensures { self.new ≡ record self.old { messages = filter (λ (message : Sent). is_of_one slices.now message.core) self.old.messages } }
    {
        self.messages
            .retain(|message| is_of_one(slices, message.core));
    }

    /// Leaves the messages to this core out.
    pub fn leave_out(&mut self, core: CoreId)
        ensures { self.new ≡ record self.old { messages = filter (λ (message : Sent). not (is_to core message)) self.old.messages } }
    {
        self.messages.retain(|message| message.core != core);
    }

    /// Takes the message at this place of the flight out.
    pub fn take(&mut self, at: usize) -> Message
        requires { at < length self.old.messages }
        ensures taken { slice_get self.old.messages at ≡ Some (sent_of result) }
        ensures left { self.new ≡ record self.old { messages = remove self.old.messages at } }
    {
        self.messages.remove(at)
    }
}
