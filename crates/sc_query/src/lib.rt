//! The query language of the search: a text is read to a tree of `AND`, `OR` and `NOT` over leaves `field:value`,
//! or refused with the place of its fault. The grammar is this project's own: `specs/Tokens.antt` says what a text's
//! tokens are, and `specs/Grammar.antt` which of them are a query, and where the fault of the others lies.
//!
//! The crate depends on std, `sc_record` and `thiserror` alone, and knows no field and no document. The layer above uses the contract
//! of [`parse`], which says of each text which tree it has or where its fault is, and that of [`and`].
//!
//! Proved: `parse` answers each text by the grammar in `specs/`: the tree that it has, or where its fault lies.
//!
//! Tested alone: that a query millions of operators deep is dropped without stack; that no text is answered out of memory
//! while there is memory; that threads may share a query.
//!
//! Neither: speed.
#![tactic(auto)]

mod fault;
mod laws;
mod lexeme;
mod parser;
mod query;
mod reader;

pub use fault::QueryFault;
pub use laws::{one_answer, parentheses};
pub use parser::parse;
pub use query::{Query, and};
pub use sc_record::Text as Word;
