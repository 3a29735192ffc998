//! What a document's fields keep: texts, numbers and truths, lists of them, and the kind that a field's name stands for.
//!
//! It may depend on `std` and `arrayvec` alone, and does no input and no output. The layers above get a field's kind by
//! `kind_of`, and say by `AreFields` that fields fit their names, and by `IsDocument` that they have a spelling as bytes too.
//!
//! Proved: `kind_of`; a `Text` is the text that it was made of, however it is kept; `clone_in` gives a value that equals its
//! original.
//!
//! Tested alone: that a text takes 16 bytes.
//!
//! Neither: that copies of a text share it holds by construction.
#![tactic(auto)]

// Copies, texts and lists.
mod copy;
mod list;
mod short;
mod text;

// What a field keeps, and how its name says so.
mod field;
mod kind;
mod value;

pub use copy::{CloneIn, clone_items};
pub use field::Field;
pub use kind::kind_of;
pub use list::List;
pub use text::Text;
pub use value::{Kind, Value};
