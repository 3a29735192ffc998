//! What a seat of the lock's table knows. These types are for the proofs alone: no value of them is
//! made, and a `u64` in them is any natural number.
use crate::kept::Kept;
use atomic_table::Seat;
use std::collections::LinkedList;

/// A seat of the table of a lock round a `K`.
pub type LockSeat<K> = Seat<Option<K>, View<K, <K as Kept>::Entry, <K as Kept>::Part>>;

/// How far a seat has come with its turn.
pub enum Stage<K, E, P> {
    Idle,
    /// It has this ticket.
    Waiting(u64),
    /// Its ticket is served, and this value was handed out to it.
    Holding(u64, K),
    /// It has noted this journal and this part of the value that it puts back.
    Noted(u64, LinkedList<E>, P),
    /// It was joined with another: what the two had seen, and their places, this seat's first.
    Joined(LinkedList<E>, LinkedList<u64>, LinkedList<E>, LinkedList<u64>),
}

/// What a seat knows.
pub struct View<K, E, P> {
    /// The value that the lock was made with, for its name.
    pub origin: Option<K>,
    /// The journal as far as it was seen.
    pub seen: LinkedList<E>,
    /// The places of the seat's own entries.
    pub places: LinkedList<u64>,
    /// The seat's share of the right to draw tickets. The keeper has one, and a pass has one and the
    /// splits that it has left: those of the first pass are 2^31, so all of a lock together have
    /// 2^31 + 2.
    pub weight: u64,
    /// The part that the keeper left, and none in any other seat.
    pub part: Option<P>,
    pub stage: Stage<K, E, P>,
}
