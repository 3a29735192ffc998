//! The committed rows of a core: of each id the write that a search sees, a deletion too, ascending by the ids' bytes.
//!
//! It depends on `sc_hash`, on `sc_record`, on `sc_rows`, `sc_keys` and `sc_segment` for posting lists, and does no input and no output. The
//! layers above take a `Snapshot` of the cells of a core, which a searcher searches by `postings`, `live`, `is_live` and `row`, and whose `Rows` a feed
//! reads by `row`. At the next commit `Snapshot::next` makes the new snapshot of the last one and of the cells that changed: it shares
//! the pieces of rows that no change falls into, carries the index over, and files only what changed: where few documents are replaced and
//! no row gets another number, also what is lost, so that the rows of all other terms are copied. The terms of ids are not filed where
//! each live row has that of its own id alone of their field, and a row is then found by its id among the live rows.
//! `Snapshot::within` has the rows of a range of hashes: it looks at each row, and carries the index over likewise. Contracts see both
//! types as a `SnapshotState`, whose rows ascend and are at most 2^24.
//!
//! Proved: `Snapshot::of`, `from_list` and `Rows::from_list` have the rows of the cells that they are given, deletions too; `next` has of
//! each id the change, where there is one, else the old row, ascending; `within` has exactly the rows whose hashes are in the range;
//! `row` gives each by its place, at a step; `Snapshot::postings` gives exactly the live rows that have a term, ascending and within a bound on
//! comparisons; `live` gives exactly the live rows and `is_live` tells them; `at`, `move_to` and `share_rows` have the same rows.
//!
//! Tested alone: the worked rows; in the scenarios and in the stored run `next` runs in each commit of a bucket that was written to (`at`
//! where nothing was written), and `within` in the first one after a split.
//!
//! Neither: speed, and so how much less `next` and `within` take than `of` and how many pieces there are; that a snapshot shares the
//! writes holds by construction.
#![tactic(auto)]

mod change;
mod cutting;
mod edits;
mod filing;
mod ids;
mod index;
mod laws;
mod made;
mod part;
mod pieces;
mod plain;
mod snapshot;
mod survey;
mod term_key;
mod whole;

pub use laws::rows_are_each_of_one_id;
pub use plain::Rows;
pub use snapshot::Snapshot;
pub use term_key::TermKey;
