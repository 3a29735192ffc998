//! A value behind a lock, which one holder at a time takes out and gives back.
//!
//! `Lock::new` puts a value behind a lock. `hold` waits for its turn, then moves the value out and
//! hands it to the caller, with a `Turn`; `give` takes both, moves the value back, changed by one
//! step or not at all, and wakes the one whose turn it is. While the value is out there is none in the lock,
//! so no two threads have it at once. It is a ticket lock: a hold draws the next number, and holders
//! are served in the order of their numbers.
//!
//! The value has a journal that only grows (the trait `Kept`). What a holder finds in it, the
//! contracts say by what it has seen before:
//!
//! - A `Pass` is a right to hold the lock, one for each thread. It knows how much of the journal it
//!   has seen, which is a prefix of what its next hold finds, and the places of its own entries.
//!   `split_pass` splits one off for another thread; `join_pass` puts two together, so that one has
//!   seen what both have seen and has the entries of both.
//! - The `Keeper`, one for each lock, is a holder that may besides change the value's part
//!   (`Kept::Part`), which passes leave alone. So it finds the part that it left, however many passes
//!   held the lock in between.
//! - The owned place of a journal, if there is one, is the place of an entry whose owner alone may
//!   add the next one, as whoever began a split alone ends it. So the owner finds the journal just as
//!   it left it.
//! - `meet` lets a pass and the keeper have seen the same journal without a hold, so that a thread
//!   with both knows at the next hold of either what the other one saw. `show` lets the keeper alone learn.
//! - A `Badge` shows which lock it is of, and nothing else. A value behind one lock can keep the badge
//!   of another in its name, to say for good which lock it belongs with.
//!
//! Passes and the keeper are made of seats. A seat is a token of `atomic_table` that has no bytes; a
//! thread needs it to take an atomic step, and what the seat knows stands in its view, which exists
//! in proofs alone. A seat has a weight, its share of the right to draw tickets, so that no more
//! tickets are out at once than there are numbers: 2^31 passes may be split off the first one.
//!
//! The crate depends on `atomic_table` and `std` alone. The layers above implement `Kept`, and use
//! the clauses of the calls of `Lock`, in the words of `specs/Tokens.antt`. That a waiter ever gets
//! its turn is not promised: it rests on the other holders and on the system's scheduler.
//!
//! Proved: `hold` gives a sound value with a journal of which what the pass has seen is a prefix, and `give` keeps what was
//! added, with each pass's own entries (`specs/Tokens`).
//!
//! Tested alone: that 4 threads of 10,000 turns lose none; that a pass which waits while the keeper holds is
//! woken.
//!
//! Neither: that a waiter ever gets its turn, which depends on the system's scheduler; that no wake is lost, for
//! which `src/doors.rt` has the reasons in words.
#![tactic(auto)]

// What a lock may keep.
mod kept;

// What a seat of the lock knows, what each of its steps shows it, and the steps.
mod seat;
mod steps;
mod view;

// Where those sleep who wait for their turn.
mod doors;

// The lock, who may hold it, and the calls of each.
mod badge;
mod keeper;
mod lock;
mod pass;
mod turn;

pub use badge::Badge;
pub use keeper::Keeper;
pub use kept::Kept;
pub use lock::Lock;
pub use pass::Pass;
pub use turn::Turn;
