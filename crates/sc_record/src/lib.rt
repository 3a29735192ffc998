//! What the collection keeps and hands on: ids, documents of typed fields, orders to change them,
//! versioned writes, the entries of a journal, and the names of slices and cores.
//!
//! It may depend on `sc_values`, whose names it hands on, `sc_spelling` and `thiserror` alone, and does no input and no output. The layers
//! above make a `Doc` of fields with `AreFields`, or by a `DocBuilder` of a field after another, read it as its fields with `IsDocument`, build its terms by a `TermsBuilder`, show a write's
//! version by `shown` and `found`, test an order's condition by `meets`, and give each new write the
//! version of `next_version`, which is above the clock and at least the timestamp's.
//!
//! Proved: `next_version` is above the clock and at least the timestamp's (up to the last); `meets` is the rule of
//! conditions; `found`; an id is neither empty nor too long; an `Order`'s changes fit their fields; a document and a write lend the fields
//! and the terms that they were made of, which lie in one run of bytes; a core's replica is counted from 1, and a planned slice has a range, a replica and a
//! node; `clone_in` gives a value that equals its original.
//!
//! Tested alone: the numbers at the borders.
//!
//! Neither: that a document's fields and a write's terms are lent without taking memory holds by construction (no allocator is passed).
#![tactic(auto)]

// What names a document.
mod id;

// A document, what it is found by, a write of it, and what a client is told of that.
mod ack;
mod doc_builder;
mod document;
mod term;
mod term_push;
mod term_run;
mod terms_builder;
mod write;

// The numbers that order the writes.
mod version;

// The parts of the collection that a split changes.
mod slice;

// What a client asks to be written.
mod order;

// What a journal is made of.
mod entry;

// What follows from the definitions.
mod laws;

pub use ack::Ack;
pub use doc_builder::DocBuilder;
pub use document::Doc;
pub use entry::Entry;
pub use id::{Id, IdFault, MAX_ID_LENGTH};
pub use laws::limits_are_as_defined;
pub use order::{Change, FieldChange, How, MAX_ORDERS, Order};
pub use sc_values::{CloneIn, Field, Kind, List, Text, Value, clone_items, kind_of};
pub use slice::{CoreId, SliceId, SubSlice};
pub use term::Term;
pub use term_run::{TermRef, TermRun, Terms};
pub use terms_builder::TermsBuilder;
pub use version::{found, meets, next_version};
pub use write::{Cell, Write};
