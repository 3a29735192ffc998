//! The update log of one core: what it is sent while it cannot apply it yet.
//!
//! A core that is being built keeps its updates here in the order in which they come, and later applies
//! them, the oldest first. The crate depends on std alone and never looks into an entry: entries are moved in
//! and moved out, and none is copied. A layer above speaks of a `Log<E>` as the record `LogState E`: a
//! list of entries, a mode, and the number of entries for which there is room.
//!
//! Proved: each call of `Log` is a change of its list of entries, its mode and its room.
//!
//! Tested alone: that threads may share a log.
//!
//! Neither: speed.
#![tactic(auto)]

mod log;
mod mode;

pub use log::Log;
pub use mode::Mode;
