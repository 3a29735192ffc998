//! The program's real edge over TCP: a station that opens a port of this machine's own address, 127.0.0.1, and gives each worker its
//! crew, an acceptor that gives connections, and the source and the sink of a connection, which share its stream.
//!
//! It depends on `sc_session`, whose `Listener` and `Station` it implements, on `sc_io`, whose `Source` and `Sink` it implements, and on
//! std's sockets. Of the C library it calls `poll` alone, which std has no call for: it says whether a connection waits to be accepted
//! and whether a client has said something. The layer above uses the clauses of the traits.
//!
//! A client has a minute, and a second more for each KiB that has passed, to send its next request once it was answered, and the same
//! to take a reply; past that the read or the write fails. A client that has begun no request gives its worker up while another
//! waits that no free worker takes: its source comes to its end (RFC 9112, section 9.5). What came before the last reply was
//! written is no beginning, also if it came in one piece with the request that was answered. A connection that the worker ends goes in
//! stages (RFC 9112, section 9.6), so that the client gets the last reply.
//!
//! Proved: the clauses of the traits, which say that a count of faults rises by one exactly where the call fails, which links and crews
//! are out, that `accept` never says that no connection will come, and that `close` leaves the trail empty; how long a client has for
//! so many bytes (`patience`). Of what comes and goes no clause says anything.
//!
//! Tested alone, in `sc_tests`, by a worker and its clients in one thread: a request and its reply; that a client gives way to one that waits; that one
//! that says nothing is given up, by a clock that leaps; that a write to a client that is gone fails; that a station opens a port.
//!
//! Neither: that the bytes of a stream are those that were sent, that a read waits for a turn and no longer, and what accepting does while
//! the machine has no room for a connection. Progress, fairness and time are nobody's promise.
#![tactic(auto)]

// How long a client has, the client, and the port.
mod limits;
mod peer;
mod port;

// What a session reads and writes.
mod sink;
mod source;

// What workers are given.
mod acceptor;
mod out;
mod station;

pub use acceptor::{MAX_TRIES, PAUSE, TcpAcceptor};
pub use limits::{PATIENCE, PATIENCE_OF_KIBIBYTE, patience};
pub use out::{CrewsOut, LinksOut};
pub use port::Port;
pub use sink::TcpSink;
pub use source::TcpSource;
pub use station::TcpStation;
