//! What a query finds with the searchers of all buckets: it is looked up with each, over many rows by several threads at once, what each
//! finds is counted, and the first of it is merged by id.
//!
//! It depends on `sc_replicas` for searchers, on `sc_eval` for what a query finds in one searcher's rows, on `sc_snapshot` for reading them,
//! on `sc_keys` for the count of steps that both take, on `sc_journal` for what is true of the rows' terms, and on `sc_record` for writes. It
//! knows no desk and no bucket. The layer above (`sc_fanout`) uses the clauses of `find_in_parts` (`HasFound`) and of `first_of_all`
//! (`IsStartOf`). Where lists are joined, the terms are looked up with all searchers, and the outermost lists are read, one row in each
//! line of memory, before these are joined. What each searcher finds is counted, and only as many numbers of rows are kept as the page
//! can show. The rows at these numbers, ascending by id, are lent, and the first of all are taken of them row by row, each time the least
//! of the first rows that the searchers have left. `find_in_parts` waits for the threads of its parts and for nothing else; these wait for nothing.
//!
//! Proved: how many rows the query finds with all searchers, and of each the numbers of the first ones (`HasFound`), in however many
//! parts they are cut (`find_in_parts`), which are at most eight (`parts_for`); the searchers of one part are searched in no more steps than
//! a look-up with each for each leaf of the query and one for each live row that matches (`find_all`: `AreStepsOfSearches`); the first of all
//! in order of id, of hits that begin as all that is found does (`first_of_all`).
//!
//! Tested alone: a search in one to five parts; the worked searches of `sc_fanout` come through it in one.
//!
//! Neither: speed; that parts run beside each other; that terms are looked up and the outermost lists read before these are joined, that
//! no row is read where none is asked for, that of a searcher of which none comes in only the first is read, and that no more is kept than
//! the page can show, holds by construction.
#![tactic(auto)]

// What is kept of what the searchers find.
mod hits;

// What the searchers of one part find, and all parts at once.
mod finding;
mod parts;

// The first of it in order of id.
mod merging;

pub use hits::{Found, Hits};
pub use merging::first_of_all;
pub use parts::{find_in_parts, parts_for};
