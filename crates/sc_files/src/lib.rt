//! The files of a log: a trait for a file that says what a read gives, what a crash at any moment may leave and what a sync keeps, one for
//! what gives these files by the number of their bucket, and the forms of both that lie in memory. It depends on the project's lists
//! and on its counts of faults. The layers above are generic over `LogFile` and `LogHouse`, and use the clauses of their methods: which
//! bytes a call changed and which a crash within it may change, that after a sync that succeeds a crash leaves what that sync had to
//! keep, and that one that fails keeps nothing for a later one.
//!
//! Proved: a file in memory reads, writes, cuts and syncs just so, by the record of its calls, from which all follows that a crash may
//! leave; it fails only where it is told to or finds no memory, and counts that; it is opened again as what a crash may leave of it; a
//! house in memory gives each of its files once, and takes it back.
//!
//! Neither: what a house does with what `opened` tells it.
#![tactic(auto)]

// A file, and what gives it.
mod file;
mod house;

// The form of a file in memory, and what a crash leaves of it.
mod images;
mod mem_calls;
mod mem_file;

pub use file::LogFile;
pub use house::{LogHouse, MemHouse};
pub use mem_file::{Call, MemFile};
