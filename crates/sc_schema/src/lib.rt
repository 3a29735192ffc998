//! Which documents the collection takes: the kinds of its fields by their names, the values of each kind, the changes of an
//! atomic update, and the terms by which a document is found (Solr Reference Guide, "Dynamic Fields", "Atomic Updates").
//!
//! It may depend on the documents and orders of `sc_record`, and on Unicode's word breaks and case folding. The layers above
//! read a document's members into a `RawDoc`, and use the clause of `check_doc`: the order that the members ask for, or the
//! first fault that they have; and those of `terms_of` and `key_of`: the terms of a
//! document, and the key that a query's leaf asks for.
//!
//! Proved: `check_doc` gives the order that a document's members ask for, or the first of its faults (`specs/Documents`), for
//! ten kinds of fields and five kinds of change; `terms_of` gives exactly the terms of a document, ascending and each once,
//! also where the words of a plain ASCII text are found without Unicode's tables (`specs/Runs`); `fold_word`; `key_of`, the key
//! that a query's text asks for in a field of each kind.
//!
//! Tested alone: texts by the rules of Unicode's word breaks and by its case folding; the worked documents; that a megabyte
//! of words ends in time.
//!
//! Neither: speed; that `unicode_segmentation` and `caseless` agree with Unicode.
#![tactic(auto)]

// Documents as they come.
mod raw;

// Why one can't be taken.
mod fault;

// What values are to a field of their kind.
mod lent;
mod value;
mod values;

// What members change, and the order that they ask for together.
mod change;
mod document;
mod new_document;

// What a document is found by.
mod key;
mod terms;
mod word;

pub use document::check_doc;
pub use fault::DocFault;
pub use key::key_of;
pub use raw::{RawDoc, RawField, RawFlat, RawOne, RawValue};
pub use terms::terms_of;
pub use word::fold_word;
