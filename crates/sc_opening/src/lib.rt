//! What an opened collection makes of the journals that were kept of its buckets. A journal may end anywhere: its split may be open in it,
//! or have been done of other buckets already; writes may not be settled. What was done of the collection is what the longest of the
//! journals says; each journal is closed by the entries that it lacks of that, and so all go with one board again. The definitions stand
//! in `specs/`.
//!
//! It depends on `sc_journal` and `sc_seen`, and knows no file.
//!
//! Proved: `changes_of` reads from a journal just what it says was done for good; `longest` and `first_apart` tell what was done of the
//! collection and which journal is of another; `close` gives the closed journal and `board_journal` that of the board, each with no other
//! error than that memory was refused. The laws `journals_have_changes` (what a legal journal says was done can be done; the longest is that
//! of the first that says most), `closed_is_legal` (a closed journal is legal, and goes on from what it was), `closed_has_the_changes` (it
//! says that just that was done, and has the slices of that), `closed_is_at_rest` (no split is open in it, and each write is settled),
//! `opening_twice` (to close it again adds nothing), `closed_answers_alike` (it has the same last writes, and what was committed stays so),
//! `boards_go_with_closed` (the board of what was done is legal, rests, and has the slices of each closed journal), `closing_takes_room` (a
//! journal with room for the splits that it lacks has room once it is closed; four entries a change are enough for the board).
#![tactic(auto)]

mod board;
mod change;
mod changes;
mod closing;
mod laws;
mod running;
mod same;
mod together;

pub use board::board_journal;
pub use change::Change;
pub use changes::changes_of;
pub use closing::close;
pub use laws::{
    boards_go_with_closed, closed_answers_alike, closed_has_the_changes, closed_is_at_rest,
    closed_is_legal, closing_takes_room, journals_have_changes, opening_twice,
};
pub use together::{first_apart, is_beginning, longest};
