//! Atomic updates: what changes of single fields make of a document, or the first field that can't take its change (Solr
//! Reference Guide, "Atomic Updates").
//!
//! It may depend on `sc_values`, `sc_spelling`, `sc_record` and `thiserror` alone, and does no input and no output. The layers above use the clauses of
//! `resolve`, or of `resolve_fields` where the fields are lent: the document is what `IsChanged` says, which determines it, and the field is
//! that of `first_refused`.
//!
//! Proved: `resolve` and `resolve_fields` give the one document that an atomic update makes of the old one (`IsChanged` in `specs/Resolved`):
//! each name has the values after its change, or as they were, and a field without values is left out. They name a field
//! exactly if one can't take its change, and then the first by name (`first_refused`). Laws: `one_document` (changes that no
//! field refuses make one document, and no two), `whole_document` (a document as a whole is one whose fields are all set),
//! `changes_in_turn` (the last set stands, add-distinct twice is once, what is added and removed is removed, increments sum),
//! `values_among` (what stands after add-distinct and remove).
//!
//! Tested alone: the worked changes of one field, with numbers at the borders of 32 and 64 bits; merges of several.
//!
//! Neither: speed; that a field which no change names is spelled anew and never owned on the way holds by construction.
#![tactic(auto)]

// Why a document can't be changed.
mod fault;

// Two values, and the values of a field after its change.
mod change;
mod value;

// The document after all changes.
mod merge;

// What follows from the definitions.
mod laws;

pub use fault::PartialFault;
pub use laws::{changes_in_turn, one_document, values_among, whole_document};
pub use merge::{resolve, resolve_fields};
