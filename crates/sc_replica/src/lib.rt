//! What one core holds of a bucket: of each id the greatest write that came to it, and the update log of a core that is
//! being built. It depends on `sc_record` and `sc_ulog`, and does no input and no output.
//!
//! A layer above speaks of a `Replica` as the record `Core`, and of each call as a step of it: `led`, `fed`, `received`,
//! `replayed`. Where a core applies a write that it was fed, received or replays, one whose version isn't greater than that of
//! its id's cell is dropped; a core that buffers keeps each write that it receives, and `led` puts its write in, which is above
//! the clock. Only `reserve` and `Cells::share` take memory.
//!
//! Proved: each call of `Replica` is a step of the record `Core` (`specs/Core`): `lead`, `receive`, `feed` and `replay`
//! are `led`, `received`, `fed` and `replayed`; a write that is fed, replayed, or received by a core that does not buffer
//! is dropped if its version isn't greater than that of its id's cell; the room that is left after each; a `reserve` that
//! finds no memory changes nothing; `mark_down` marks the core as down and leaves all that it has, and `is_down` says
//! whether it is marked; `take_seat` gives it another name and mark, `set_number` another number, which `number` says, and both
//! leave the rest; ids ascend, and no cell is above the clock (`IsCore`). `cores_keep_the_greatest`: so the cell of an id is the
//! greatest of the writes of it that came, in any order and with repeats; active cores without cells that were given the same
//! writes, no two of one id and version, have the same cells; one that buffers writes and replays them has those cells too; a
//! put changes one cell, and a dropped write nothing.
//!
//! Tested alone: the worked writes; a replay of 70; that threads may share a core.
//!
//! Neither: speed; that a look-up looks at the last cell and then makes at most one binary search, and a put that and at most
//! one move of the shorter side, holds by construction.
#![tactic(auto)]

// The greatest write of each id.
mod cells;

// A core.
mod replica;

// What follows from the definitions.
mod laws;

pub use cells::Cells;
pub use laws::cores_keep_the_greatest;
pub use replica::Replica;
