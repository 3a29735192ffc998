//! Where bytes come from and go to, what reports the time, what starts and stops cores and says whether a node can be reached, and
//! what a split asks whether to go on: five traits, the forms of them that lie in memory, and the machine's at the program's edge.
//! It depends on the project's lists, and on a log that only proofs read, for the counts of faults. The layers above are generic
//! over `Source`, `Sink`, `Clock`, `Hosts` and `Pace`, and use the clauses of their methods: which bytes a call took or gave, which
//! timestamp it answered, which cores are started after it, which nodes weren't reached, that its object's count of faults or stops
//! rose exactly where it failed or said stop, and that a sink counts at most one write a call.
//!
//! Proved: the streams, clocks, hosts and paces in memory give exactly their bytes and timestamps, keep exactly the cores that
//! were started and the nodes that weren't reached, and fail or stop only if they are told to: the clauses of `Source::read`,
//! `Sink::write`, `Clock::now`, `Hosts::start_core`, `Hosts::stop_core`, `Hosts::reach` and `Pace::between`; a call that succeeds
//! leaves the counts of faults as they were, and one that fails raises its own alone; of a reader and a writer that report their
//! bytes, the machine's source and sink take and give exactly those, by clauses of their own `read` and `write`.
//!
//! Tested alone: the machine's clock; an interrupted read and write; the folders of the machine's hosts, and what says that a node
//! is down.
#![tactic(auto)]

// What fails, and how often it has.
mod fault;

// What is given and taken, told and started.
mod clock;
mod hosts;
mod pace;
mod sink;
mod source;

// Their forms in memory.
mod mem_hosts;
mod mem_source;
mod memory;
mod nodes;

// The machine's.
mod folder_hosts;
mod machine;

pub use clock::Clock;
pub use fault::{Failed, Faults};
pub use folder_hosts::FolderHosts;
pub use hosts::{Host, Hosts};
pub use machine::{MachineClock, StdSink, StdSource};
pub use mem_hosts::{MemHosts, MemPace};
pub use mem_source::MemSource;
pub use memory::{Fixed, MemClock, MemSink, Never};
pub use nodes::Nodes;
pub use pace::{NoPace, Pace, SplitStep};
pub use sink::Sink;
pub use source::Source;
