//! Tests of what no line of a program shows: threads, requests that come amid a split, clients that are silent or gone, calls of the machine
//! that fail, what a core or a snapshot has that no answer tells, searches that count their steps, and trees so deep that a recursion would
//! have no stack for them. What lines show, `sc_examples` and `solr_split` answer from their standard input.
//!
//! Each module tests one crate by its public functions, but for `collections`, `sharing`, `splits`, `tails` and `workers`; `support` has what several
//! share. A table is a text, which a function with no contract gives, so that the prover does not read it in each step of a test. Nothing
//! depends on this crate.
#![tactic(auto)]

#[cfg(test)]
mod arguments;
#[cfg(test)]
mod boards;
#[cfg(test)]
mod codings;
#[cfg(test)]
mod collections;
#[cfg(test)]
mod demo;
#[cfg(test)]
mod documents;
#[cfg(test)]
mod frames;
#[cfg(test)]
mod hashes;
#[cfg(test)]
mod heads;
#[cfg(test)]
mod hosts;
#[cfg(test)]
mod journals;
#[cfg(test)]
mod legal;
#[cfg(test)]
mod locks;
#[cfg(test)]
mod opening;
#[cfg(test)]
mod parts;
#[cfg(test)]
mod queries;
#[cfg(test)]
mod replicas;
#[cfg(test)]
mod segments;
#[cfg(test)]
mod sharing;
#[cfg(test)]
mod snapshots;
#[cfg(test)]
mod sockets;
#[cfg(test)]
mod spelling;
#[cfg(test)]
mod splits;
#[cfg(test)]
mod streams;
#[cfg(test)]
mod support;
#[cfg(test)]
mod tails;
#[cfg(test)]
mod workers;
#[cfg(test)]
mod workloads;
