//! A search over all buckets (Solr Reference Guide, "Common Query Parameters"): each bucket is held once, what the searchers find is
//! looked up after the holds, over many rows by several threads at once, and of all that is found one page is shown.
//!
//! It depends on the clauses of any `Desk` and of `take_searchers` (`sc_collection`), and on `sc_finding` for what a query finds with the
//! searchers that were taken, and for the first of it in order of id. Queries are those that `sc_eval` has bound, routes ranges of
//! `sc_hash`, searchers those of `sc_replicas`, and documents cells of `sc_record`. The layers above use the clause `searched` of `search`:
//! exactly the documents that match in the journals' committed parts are found, each once. Of what is found one page is cut; only the
//! documents of the page are shared. `search` waits for the threads of its parts and for nothing else; these wait for nothing.
//!
//! Proved: `search` over any desk: its page and its count are of exactly the documents that match in the committed parts of the journals at
//! its stops, one for each bucket, each once and in order of id (`SearchesBuckets`, `ShowsFound`), in however many parts it is cut. Laws:
//! `searches_find_what_was_committed` (what a route finds is found without it; after a commit all that was written before it is shown;
//! without one nothing that was written since), `pages_are_determined` (there is one such page, a page and the one that follows it are one
//! page of both, and pages laid end to end are all that is found), `searches_are_determined` (the journals at its stops determine what a
//! search shows: one count, and of each page one list).
//!
//! Tested alone: the worked searches, each in one part; of several parts the tests of `sc_finding`.
//!
//! Neither: speed; that parts run beside each other; that each bucket is held once, that rows are read after the holds, and that no row is
//! read to be shown where the page is empty, which hold by construction.
#![tactic(auto)]

// What a search asks for and answers.
mod ask;
mod shown;

// The page, of what the searchers find.
mod pages;

// The search, from the holds to the page.
mod searching;

// What follows from the definitions.
mod laws;

pub use ask::Ask;
pub use laws::{pages_are_determined, searches_are_determined, searches_find_what_was_committed};
pub use searching::search;
pub use shown::Page;
