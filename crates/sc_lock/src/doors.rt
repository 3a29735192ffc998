//! Where waiters sleep, and how a give wakes the next one alone.
//!
//! A lock has 64 doors, and the ticket t has door t modulo 64. So up to 64 waiters have a door each; of
//! more, some share one. A waiter sleeps at the door of its ticket, and a give wakes those who sleep at
//! the door of the ticket that it lets in. That no wake is lost is not proved, since no contract speaks of
//! waiting. It holds for these reasons:
//!
//! - A waiter first reads its door's number, and then looks at the number served. If that isn't its
//!   ticket, it sleeps while the door still has the number that it read. The system compares and falls
//!   asleep as one step, so a wake of the door comes either before it or after it.
//! - A give first passes the turn on, then adds to the door of the ticket that is served now, and then
//!   wakes all who sleep there.
//! - So if a waiter saw that its ticket wasn't served, the give that lets it in adds to the door after the
//!   waiter read it. Where it adds before the waiter falls asleep, the door has another number and the
//!   waiter doesn't sleep; where it adds after that, the wake that follows finds the waiter asleep.
//! - In between, the door's number can't come round to the one that was read, of which the low 32 bits are
//!   compared. Only gives of tickets drawn before the waiter's add until then: for each other pass and
//!   the keeper one at most, and there are no more than 2^31 + 1 of these.
//! - A give wakes nobody where no ticket was drawn after its own. Who draws the next one looks at the number
//!   served only after the turn was passed on, and finds its ticket served.
//!
//! A waiter that wakes before its turn, as one that shares its door may, sleeps again.
ghost use Rattle.std.specs.Prelude.{◌≡◌, vec_len};

use crate::kept::Kept;
use crate::lock::Lock;
use crate::seat::{NEXT, SERVED};
use std::alloc::{AllocError, Global};
use std::sync::Wait;
use std::sync::atomic::{AtomicU64, Ordering};

// How many doors a lock has.
const DOORS: u64 = 64;

/// The doors of a lock. The number of each says how many gives have opened it.
#[derive(Drop)]
pub struct Doors {
    doors: Vec<AtomicU64>,
    ghost count: { vec_len doors ≡ 64 },
}

impl Doors {
    /// The doors, which nobody has opened. It fails only where memory runs out.
    pub fn new(alloc: Global) -> Result<Doors, AllocError> {
        let mut doors = Vec::with_capacity(alloc, DOORS as usize)?;
        for _ in 0..DOORS {
            doors.push(AtomicU64::new(0))?;
        }
        Ok(Doors { doors })
    }

    // The door of a ticket.
    fn of(&self, ticket: u64) -> &AtomicU64 {
        &self.doors[(ticket % DOORS) as usize]
    }
}

impl<K: Kept> Lock<K> {
    // Sleeps while the ticket isn't served, until a give opens its door.
    pub(crate) fn sleep<R: Wait>(&self, rt: &R, ticket: u64) {
        let door = self.doors.of(ticket);
        let opened = door.load(Ordering::SeqCst);
        if self.table.shared.peek(SERVED) != ticket {
            door.park(rt, (opened % (1 << 32)) as u32);
        }
    }

    // Wakes those at the door of the ticket after the one that was served, if it was drawn. No contract can
    // say that somebody wakes: this has no `ensures`, and a test sees to it.
    pub(crate) fn wake(&self, served: u64) {
        let next = served.wrapping_add(1);
        if self.table.shared.peek(NEXT) != next {
            let door = self.doors.of(next);
            door.fetch_add(1, Ordering::SeqCst);
            door.wake_all();
        }
    }
}
