ghost use Rattle.std.specs.Prelude.{◌≡◌, ◌+◌, ◌≤◌, None, IfOk, IsSome, OnOk, OnErr};
ghost use Rattle.sc_session.specs.Listening.{nothing_kept, links_given};

use crate::out::LinksOut;
use crate::peer::Peer;
use crate::port::Port;
use crate::sink::TcpSink;
use crate::source::TcpSource;
use sc_collection::Trail;
use sc_io::{Failed, Faults};
use sc_session::{Link, Listener};
use std::alloc::{AllocError, Global};
use std::io::ErrorKind;
use std::marker::Send;
use std::net::TcpStream;
use std::rt::Clock;
use std::sync::Arc;
use std::time::Duration;
use std::{io, thread};

/// How often accepting a connection is tried before it has failed.
pub const MAX_TRIES: u32 = 600;

/// How many milliseconds are between two tries.
pub const PAUSE: u64 = 100;

/// What a worker accepts connections with: its share of the open port. Contracts see its count of faults, and how many links it gave
/// that are not back.
///
/// Accepting fails where the port fails for good, where the machine hasn't had room for a connection for `MAX_TRIES` tries with `PAUSE`
/// between them, and where the acceptor was made before the port was opened.
#[derive(Drop)]
pub struct TcpAcceptor<R: Clock> {
    clock: R,
    alloc: Global,
    port: Option<Arc<Port>>,
    pub faults: Faults,
    pub out: LinksOut,
}

impl<R: Clock + Copy> TcpAcceptor<R> {
    /// An acceptor with a share of an open port, or with none, by which accepting fails. How long a client has is told by this clock.
    pub fn new(clock: R, alloc: Global, port: Option<Arc<Port>>) -> TcpAcceptor<R>
        ensures faults { result.faults ≡ 0 }
        ensures out { result.out ≡ 0 }
    {
        TcpAcceptor {
            clock,
            alloc,
            port,
            faults: Faults::none(),
            out: LinksOut::none(),
        }
    }

    // The link of the next connection.
    fn next_link(&self) -> Option<Link<TcpSource<R>, TcpSink<R>>> {
        let port = self.port.as_ref()?;
        for _ in 0..MAX_TRIES {
            match port.accept() {
                Ok(stream) => {
                    if let Ok(link) = self.link(port, stream) {
                        return Some(link);
                    }
                }
                Err(error) => {
                    if !passes(&error) {
                        return None;
                    }
                }
            }
            thread::sleep(&self.clock, Duration::from_millis(PAUSE));
        }
        None
    }

    // The link of a connection that was accepted. Its source and its sink share the stream.
    fn link(
        &self,
        port: &Arc<Port>,
        stream: TcpStream,
    ) -> io::Result<Link<TcpSource<R>, TcpSink<R>>> {
        let peer = Peer::new(&self.clock, Arc::try_clone(port)?, stream)?;
        let Ok(peer) = Arc::new(self.alloc, peer) else {
            return Err(io::Error::from(AllocError));
        };
        Ok(Link {
            sink: TcpSink::new(self.clock, Arc::try_clone(&peer)?),
            source: TcpSource::new(self.clock, peer),
        })
    }
}

impl<R: Clock + Copy + Send> Listener for TcpAcceptor<R> {
    type S = TcpSource<R>;

    type W = TcpSink<R>;

    ghost coming = { λ _. None };

    ghost taken = { λ _. None };

    ghost faults = { λ a. a.faults };

    ghost out = { λ a. a.out };

    fn accept(&mut self) -> Result<Option<Link<TcpSource<R>, TcpSink<R>>>, Failed>
        ensures some { IfOk result IsSome }
        ensures out { self.new.out ≡ self.old.out + links_given result }
        ensures steady { OnOk result (self.new.faults ≡ self.old.faults) }
        ensures cause { OnErr result (self.new.faults ≡ self.old.faults + 1) }
    {
        match self.next_link() {
            Some(link) => {
                self.out.rise();
                Ok(Some(link))
            }
            None => {
                self.faults.rise();
                Err(Failed)
            }
        }
    }

    fn close(&mut self, link: Link<TcpSource<R>, TcpSink<R>>, trail: &mut Trail)
        requires { 1 ≤ self.old.out }
        ensures trail { trail.new ≡ nothing_kept }
        ensures out { self.new.out + 1 ≡ self.old.out }
        ensures faults { self.new.faults ≡ self.old.faults }
    {
        if link.sink.faults.count() == 0 {
            link.source.end();
        }
        self.out.fall();
        trail.clear();
    }
}

// The system's numbers of errors, as Linux has them, that the library has no name for.
const TOO_MANY_FILES: i32 = 23;

const PROTOCOL_ERROR: i32 = 71;

const NO_BUFFER_SPACE: i32 = 105;

// The client has gone before it was accepted, or the machine has no room for now: the next try may succeed.
fn passes(error: &io::Error) -> bool {
    match error.raw_os_error() {
        Some(
            libc::EINTR
            | libc::ECONNABORTED
            | libc::EMFILE
            | libc::ENOMEM
            | TOO_MANY_FILES
            | PROTOCOL_ERROR
            | NO_BUFFER_SPACE,
        ) => true,
        Some(_) => false,
        None => error.kind() == ErrorKind::Interrupted,
    }
}
