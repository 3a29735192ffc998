//! A document's fields as one run of bytes, and back: what a log keeps of a document, and what may be read of it one field
//! after another without taking memory. It depends on `sc_values` alone, and does no input and no output.
//!
//! The layers above put the bytes of a list of fields at the end of a vector by `push_fields`, whose number is `fields_len`,
//! look at bytes by `Fields::read`, which lends each field's name and values, and copy a document out of them by `read_fields`.
//! A number or a text alone, as what stands around a document is made of, is pushed and read by the same functions.
//!
//! Proved: what is pushed is the spelling in `specs/` of fields that fit it; what is read is spelled so, each byte of it, and is
//! a document; bytes are refused only where they begin with the spelling of no document; no spelling begins another, so that
//! what was pushed is what is read, whatever follows it.
//!
//! Tested alone: the bytes of one document.
//!
//! Neither: that lending takes no memory holds by construction (no allocator is passed).
#![tactic(auto)]

// The numbers and texts that all is made of.
mod number;

// What is lent: values, and fields with their values.
mod field;
mod known;
mod value;

// A copy of what is lent.
mod read;

// The other way: the bytes of fields, and how many they are.
mod length;
mod push;

// What follows from the definitions.
mod laws;

pub use field::{FieldRef, Fields};
pub use known::{known_cut, known_name_at, known_text_at};
pub use laws::one_reading;
pub use length::fields_len;
pub use number::{cut_text, name_at, text_at, u16_at, u32_at, u64_at};
pub use push::{push_fields, push_name, push_text};
pub use read::{FieldsFault, read_fields};
pub use value::{ValueRef, Values};
