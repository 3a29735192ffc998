//! The entries of a bucket's journal as bytes: what a file of its log keeps of them, and back. An entry is a byte of its kind
//! and its numbers, texts and fields; a write's hash and terms are left out, since they are computed again. It depends on
//! `sc_record`, `sc_spelling`, `sc_router` and `sc_schema`, in its definitions on `sc_journal` too, and does no input and no output.
//!
//! The layers above put an entry at the end of a frame's body by `push_entry`, whose number of bytes is `entry_len`, read a body
//! by `read_body`, and make and read a file's first entry by `head_body` and `read_head`.
//!
//! Proved: what is pushed is the spelling in `specs/` of an entry that fits it, and has the length that `entry_len` says; what is
//! read is spelled so, each byte of it, and has the hash and the terms that its id and its document determine; bytes are refused
//! only where they are no entries; a body is one list of entries at most.
//!
//! Tested alone: the bytes of one entry of each kind, and of one file's first entry.
#![tactic(auto)]

// The first entry of a file.
mod head;

// Entries as bytes, and how many they are.
mod length;
mod push;

// Bytes as entries.
mod fault;
mod number;
mod read;
mod write;

// What follows from the definitions.
mod laws;

pub use fault::BodyFault;
pub use head::{HEAD_LENGTH, Head, head_body, read_head};
pub use laws::{one_reading, terms_are_determined};
pub use length::entry_len;
pub use push::push_entry;
pub use read::read_body;
