//! The file of a log as frames: it is read from the front, a frame is appended so that a crash at any moment leaves the frames
//! before it, with the new one or without, and a new file is begun. A body is bytes here; what they stand for is told by the
//! crates above. It depends on the project's lists, counts of faults and files, and on a log that proofs alone read. The layers above
//! use the clauses of `Tail::append`, `Tail::finish`, `Reading::next`, `Reading::close` and `begin_anew`.
//!
//! Proved, of any file that meets the clauses of `LogFile`: after an append that succeeds each crash leaves a file in which opening finds
//! the bodies from before, and the new one last; a crash at any moment within it leaves them with the new one or without; after one that
//! fails the bodies from before stand, and where it failed at its mark, `finish` alone has to succeed; a sync that failed is never
//! believed later. Reading finds the bodies of the open frames, in order, and no others. A file that is begun anew has no open frame at any
//! moment.
#![tactic(auto)]

// Why a call is refused.
mod fault;

// What is begun, read and appended.
mod anew;
mod reading;
mod tail;

pub use anew::begin_anew;
pub use fault::{ReadFault, TailFault};
pub use reading::Reading;
pub use tail::Tail;
