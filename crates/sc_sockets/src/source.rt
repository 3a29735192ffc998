ghost use Rattle.std.specs.Prelude.{◌≡◌, ◌+◌, ◌<◌, ◌≤◌, length, None, IfOk, OnOk, OnErr};

use crate::peer::Peer;
use sc_io::{Failed, Faults, Source};
use std::rt::Clock;
use std::sync::Arc;

/// What comes from a client. Contracts see its count of faults alone. A read goes straight into the caller's buffer.
///
/// A read fails where the client is too slow, has broken the connection off, or the machine's clock can't be read. A client that
/// has sent nothing since the last reply is at its end where another waits for a worker.
#[derive(Drop)]
pub struct TcpSource<R: Clock> {
    clock: R,
    peer: Arc<Peer>,
    // A read has answered that nothing more is read.
    ended: bool,
    pub faults: Faults,
}

impl<R: Clock> TcpSource<R> {
    pub(crate) fn new(clock: R, peer: Arc<Peer>) -> TcpSource<R>
        ensures { result.faults ≡ 0 }
    {
        TcpSource {
            clock,
            peer,
            ended: false,
            faults: Faults::none(),
        }
    }

    // Ends the connection. A client that hasn't ended its side, and hasn't failed, has time to take the last reply.
    pub(crate) fn end(&self) {
        if !self.ended && self.faults.count() == 0 {
            self.peer.end(&self.clock);
        }
    }
}

impl<R: Clock> Source for TcpSource<R> {
    ghost rest = { λ _. None };

    ghost faults = { λ s. s.faults };

    fn read(&mut self, into: &mut [u8]) -> Result<usize, Failed>
        requires { 0 < length into.old }
        ensures bounded { IfOk result (λ n. n ≤ length into.new) }
        ensures steady { OnOk result (self.new.faults ≡ self.old.faults) }
        ensures cause { OnErr result (self.new.faults ≡ self.old.faults + 1) }
    {
        if self.ended {
            return Ok(0);
        }
        match self.peer.read(&self.clock, into) {
            Ok(count) => {
                self.ended = count == 0;
                Ok(count)
            }
            Err(Failed) => {
                self.faults.rise();
                Err(Failed)
            }
        }
    }
}
