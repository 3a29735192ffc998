//! One connection: its requests are read, each is answered over a desk, and the answers are written. And a worker, which serves the
//! links that its listener gives one after another, each as one connection.
//!
//! It depends on the reader and the writer of `sc_http` and the requests of `sc_model`, on the bodies that `sc_commands` reads and `sc_reply`
//! prints, on the calls of `sc_update`, `sc_get` and `sc_fanout`, on queries as `sc_query` reads them and `sc_eval` binds them to the fields of
//! `sc_schema`, on routes (`sc_router`, `sc_hash`), on the commands to the collection that `sc_admin` and `sc_split` carry out, on the ids,
//! texts and documents of `sc_record`, on any `Desk` (`sc_collection`), on any `Gate` (`sc_gate`), and on any `Clock`, `Hosts`, `Pace`,
//! `Source` and `Sink` (`sc_io`): nothing here knows of a bucket's cores, of locks or of files.
//! The layer above uses the clause `connection` of `serve`: every answer is that of the journals at the stops that the trail
//! keeps, all else is as what each request came to left it, and the bytes written are the texts of the answers to the requests
//! that the bytes read are. The clause `worked` of `work` says so of each link, and that the listener has it back with its stops.
//! `serve_with` and `work_with` say the same over a gate, and what that keeps once an exchange is over whose gate was passed (`IsKept`).
//!
//! Proved: `serve`: the promise over any desk (`IsServed`), with the cause of each read and write fault, both ways; each
//! request's meaning (`asked`) and each reply's text. Laws `gets_show_own_writes`, `gets_of_ids_show_own_writes`: a get of one or
//! of several ids after an accepted order of the same connection shows that version of the id or a later one, of the same journal.
//! Laws of splits, for an administrator: over one that was done gets and searches answer as before, but for what others wrote
//! (`done_splits_keep_the_answers`, `routes_follow_the_subs`, `searches_are_of_their_journals`), one that was refused leaves all as if
//! it had not been asked for, but for a commit (`refused_splits_leave_nothing`), and each split of a connection is one of these
//! (`connections_split`).
//! `work`: each link that the listener gave was served by that promise in turn, and taken back with the stops of its connection; what
//! is seen at the end extends what was seen at the beginning by exactly these stops; and the cause of each end (`IsWorked`). The
//! listener in memory gives exactly its links, in order, and keeps each with its trail; the station in memory gives each number its
//! crew and keeps it once it is back.
//!
//! Tested alone: a table of requests.
//!
//! Neither: that a refused allocation is answered (the contract allows it and no test makes one happen).
#![tactic(auto)]

// What a request asks for, and the replies.
mod asked;
mod fixed;
mod path;
mod query;
mod reply;
mod select;

// One request, one connection.
mod answer;
mod command;
mod connection;
mod end;
mod passing;

// Many connections, one after another.
mod listener;
mod station;
mod worker;

// What follows from the definitions.
mod laws;
mod split_laws;

pub use connection::{serve, serve_with};
pub use end::End;
pub use laws::{gets_of_ids_show_own_writes, gets_show_own_writes, limits_are_as_defined};
pub use listener::{Link, Listener, MemListener, Taken};
pub use split_laws::{
    connections_split, done_splits_keep_the_answers, refused_splits_leave_nothing,
    routes_follow_the_subs, searches_are_of_their_journals,
};
pub use station::{Crew, MemStation, Station};
pub use worker::{WorkEnd, work, work_with};
