//! Keys in order, by their heads, and how one of them is sought, with its comparisons counted.
//!
//! A `Key` is what rows are found by. Two keys are compared by their heads, which are numbers that go with the order, and by themselves only
//! where their heads are the same; `front_number` is the number of a head for keys that ascend by their bytes. A `Head` can only be compared,
//! at the cost of a step where heads differ, so that no search learns of the order of keys for nothing. `Keys` has the keys of an index, each by
//! its head and by its place among stored keys, which stand in pieces that are shared with the indexes from which this one was carried.
//! Each 32nd head is a top, among which `search` seeks a key first. A `Steps` counts the comparisons. The crate depends on std alone.
//!
//! Proved: `search` gives where a key stands, or else where it would have to stand, within a bound on comparisons; `Keys::at` has, for each
//! of these places, a key that compares equal to the one that is stored there, and of the keys that are stored few have no place: at most
//! a sixteenth of those that have one, or 64 where that is more (`AreTrim`).
//!
//! Neither: speed.
#![tactic(auto)]

mod front;
mod heads;
mod key;
mod keys;
mod searching;
mod steps;

pub use front::front_number;
pub use heads::Head;
pub use key::Key;
pub use keys::Keys;
pub use searching::search;
pub use steps::Steps;
