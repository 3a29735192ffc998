//! Lists of rows: which rows are kept of two lists, which rows are live, and what the numbers of rows become.
//!
//! `join` makes of two lists of rows the list of those in both, in one of them, or in the first alone; `join_start` gives only how many rows
//! that list has, and the first of them, for a caller who shows no more: the others are counted, and no list is made of them. It takes the
//! end of both lists from the caller, who may have read it before (`ends_of`). A `LiveBits` says which rows are live. A `Moved` has the new
//! number of each old row in four bytes: `merge_moved` puts the new numbers of rows at the end of a list, with other rows among them, and
//! `push_ahead` those of a key's rows, with the rows of the keys after it that stay too (`Runs`), so that many short lists cost as much as
//! a long one. The crate depends on std alone.
//!
//! Proved: `join` keeps exactly the rows that it says, ascending and each once, and `join_start` gives their exact number and the first
//! of them; `merge_moved` puts exactly the new numbers and the rows that are added, ascending and each once; `push_ahead` puts the new
//! numbers of the rows that it passes; `LiveBits` is the list of its bits.
//!
//! Neither: speed.
#![tactic(auto)]

mod joining;
mod live_bits;
mod merging;
mod moved;
mod moving;
mod runs;
mod sifting;
mod start;

pub use joining::{Kept, join};
pub use live_bits::LiveBits;
pub use merging::merge_moved;
pub use moved::{Moved, put_run};
pub use moving::push_ahead;
pub use runs::Runs;
pub use sifting::ends_of;
pub use start::{Start, join_start};
