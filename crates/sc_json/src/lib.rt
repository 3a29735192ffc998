//! JSON (RFC 8259): the value that a body is, a document as a request gives it, and a document as it is shown.
//!
//! It may depend on the documents of `sc_record` and `sc_schema`, on what `sc_spelling` lends of a document's bytes, on the
//! parser and printer of `serde_json`, on `serde`, by which a document is sent to that printer, and on the reader of `json`
//! below it, which do all reading, printing and escaping. The layers above use the clauses of `read` and `raw_doc`, which say
//! which value a body has and what its members are, those of `flat_docs` and `count_docs`, which read the common body and count
//! its documents with no tree of its value, that of `ShownDocument`, which says what a document sends, and those of `print`,
//! which say which text a value has.
//!
//! Proved: `read`, `raw_doc` and `print` are the definitions in `specs/` over the JSON values of `serde_json`, and a
//! `ShownDocument` sends what the value of its document would. The documents that `flat_docs` gives are those of the body's
//! value, and the number that `count_docs` gives is theirs. Law `shown_document`: a document that is shown, sent back as it is,
//! makes the same document, under the condition of its version. `limits_are_as_defined`: the code's limit for the fields of a
//! document that is read as it comes is that of the definitions.
//!
//! Tested alone: the worked documents.
//!
//! Neither: that `flat_docs` gives the documents of each body that is an array of flat objects, and that `count_docs` counts
//! them; that a document is shown from its bytes without taking memory holds by construction (no allocator is passed).
#![tactic(auto)]

// A body's value, and the members of an object.
mod body;
mod raw;

// The documents of a body, read with no tree of its value, and how many they are.
mod count;
mod flat;
mod flat_value;

// A document's value, and a value's text.
mod document;
mod text;

// What the definitions say together.
mod laws;

pub use body::{JsonFault, read};
pub use count::count_docs;
pub use document::ShownDocument;
pub use flat::flat_docs;
pub use laws::{limits_are_as_defined, shown_document};
pub use raw::{RawFault, raw_doc, raw_one};
pub use text::print;
