//! Which documents a query finds: its leaves are bound to the fields of the collection, the posting lists of its terms in a
//! snapshot are joined, and where a range does not have all hashes of the rows those that match are read.
//!
//! It depends on `sc_record` for documents and writes, on `sc_query` for the query's tree, on `sc_schema` for what a document is
//! found by, on `sc_rows` for joining lists, on `sc_keys` for counting steps, on `sc_snapshot` for the rows and their posting lists, on
//! `sc_journal` for what is true of their terms, on `sc_hash` for the range, and on `thiserror`. It does no input and no output.
//! The layers above use the contract of `bind`, which says of each query which criterion it is or where its fault is, and those of
//! `find`, which gives how many rows are found and the numbers of the first of them, and of `evaluate`, which gives all as a filter of the rows.
//! `find` is `look_up` and then `start`: one who searches in many snapshots looks up in all of them first, notes the end of each two lists that
//! are to be joined, for which both are read (`Unjoined::note_end`), and then joins them, so that the processor waits for all of them at once.
//!
//! Proved: `bind` gives the criteria that a query's leaves ask for by their fields' kinds, or the place of the first leaf
//! at fault (`specs/Criteria`); `evaluate` gives exactly the live rows of a snapshot that match and whose hashes are in a range, in
//! order of their ids (`specs/Matching`), `find` counts them and gives the numbers of the first (`AreMatches`), and `look_up` gives what
//! will be their numbers (`specs/Unjoined`); all look up each leaf once at most and read no row that does not match
//! (`AreStepsOfSearch`). Laws in `specs/Laws`: NOT of NOT, De Morgan, AND, parts of a range.
//!
//! Tested alone: the worked queries.
//!
//! Neither: speed; how long a join of two lists takes; that no posting list is copied, to be joined or to be found, and that of the
//! outermost join of a query no more numbers are kept than `find` is asked for, holds by construction.
#![tactic(auto)]

// Why a query can't be bound.
mod fault;

// What a query asks of a document, and how it comes from the query.
mod binder;
mod bound;

// Which rows it finds.
mod matching;
mod numbers;
mod operand;
mod searcher;
mod unjoined;

// What follows from the definitions.
mod laws;

pub use binder::bind;
pub use bound::Bound;
pub use fault::BindFault;
pub use laws::{queries_are_bound_or_at_fault, queries_find_as_logic_says};
pub use numbers::{Matches, Numbers};
pub use searcher::{evaluate, find, look_up};
pub use unjoined::Unjoined;
