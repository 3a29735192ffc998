ghost use Rattle.std.specs.Prelude.{◌≡◌, ◌+◌, None, OnOk, OnErr};

use crate::peer::Peer;
use sc_io::{Failed, Faults, Sink};
use std::rt::Clock;
use std::sync::Arc;

/// What goes to a client. Contracts see its count of faults alone. What was written is sent at once.
///
/// A write fails where the client takes it too slowly, has closed the connection, or the machine's clock can't be read.
#[derive(Drop)]
pub struct TcpSink<R: Clock> {
    clock: R,
    peer: Arc<Peer>,
    pub faults: Faults,
}

impl<R: Clock> TcpSink<R> {
    pub(crate) fn new(clock: R, peer: Arc<Peer>) -> TcpSink<R>
        ensures { result.faults ≡ 0 }
    {
        TcpSink {
            clock,
            peer,
            faults: Faults::none(),
        }
    }
}

impl<R: Clock> Sink for TcpSink<R> {
    ghost written = { λ _. None };

    ghost faults = { λ s. s.faults };

    ghost calls = { λ _. 0 };

    fn write(&mut self, piece: &[u8]) -> Result<(), Failed>
        ensures steady { OnOk result (self.new.faults ≡ self.old.faults) }
        ensures cause { OnErr result (self.new.faults ≡ self.old.faults + 1) }
    {
        let written = self.peer.write(&self.clock, piece);
        if written.is_err() {
            self.faults.rise();
        }
        written
    }
}
