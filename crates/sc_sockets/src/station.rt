ghost use Rattle.std.specs.Prelude.{◌≡◌, ◌+◌, true, false, [], Some, None, OnOk, OnErr};
ghost use Rattle.sc_session.specs.Stations.{SetsAt};
ghost use Rattle.sc_sockets.specs.Moves.{was_given};

use crate::acceptor::TcpAcceptor;
use crate::out::CrewsOut;
use crate::port::Port;
use sc_io::{Failed, Faults, FolderHosts, MachineClock, NoPace};
use sc_session::{Crew, Station};
use std::alloc::{AllocError, Global};
use std::io;
use std::marker::Send;
use std::net::{Net, TcpListener, TcpStream};
use std::rt::{Clock, Files};
use std::sync::Arc;

/// What gives workers the machine's clock and folders and a port of this machine's own address, 127.0.0.1. A split by its crews always
/// goes on. Contracts see its count of faults, which port it opened last, and of which workers the crew is out.
#[derive(Drop)]
pub struct TcpStation<R: Clock> {
    runtime: R,
    alloc: Global,
    port: Option<Arc<Port>>,
    pub faults: Faults,
    pub opened: Option<u16>,
    pub out: CrewsOut,
}

impl<R: Clock> TcpStation<R> {
    pub fn new(alloc: Global, runtime: R) -> TcpStation<R>
        ensures faults { result.faults ≡ 0 }
        ensures opened { result.opened ≡ None }
        ensures out { result.out.moves.items ≡ [] }
    {
        TcpStation {
            runtime,
            alloc,
            port: None,
            faults: Faults::none(),
            opened: None,
            out: CrewsOut::none(),
        }
    }
}

impl<R: Clock + Files + Net<Listener = TcpListener, Stream = TcpStream> + Copy + Send> Station
    for TcpStation<R> {
    type C = MachineClock<R>;

    type H = FolderHosts<R>;

    type P = NoPace;

    type L = TcpAcceptor<R>;

    ghost crews = { λ _. None };

    ghost crews_back = { λ _. None };

    ghost out = { λ s. was_given s.out.moves.items };

    ghost faults = { λ s. s.faults };

    ghost opened = { λ s. Some s.opened };

    fn open(&mut self, port: u16) -> Result<(), Failed>
        ensures steady { OnOk result (self.new.faults ≡ self.old.faults) }
        ensures cause { OnErr result (self.new.faults ≡ self.old.faults + 1) }
        ensures opened { OnOk result (self.new.opened ≡ Some port) }
        ensures not_opened { OnErr result (self.new.opened ≡ self.old.opened) }
        ensures out { self.new.out ≡ self.old.out }
    {
        match open_port(&self.runtime, self.alloc, port) {
            Ok(open) => {
                self.port = Some(open);
                self.opened = Some(port);
                Ok(())
            }
            Err(_) => {
                self.faults.rise();
                Err(Failed)
            }
        }
    }

    fn crew(
        &mut self,
        alloc: Global,
        worker: u32,
    ) -> Result<Crew<MachineClock<R>, FolderHosts<R>, NoPace, TcpAcceptor<R>>, AllocError>
        ensures out { OnOk result (SetsAt worker true (was_given self.old.out.moves.items) (was_given self.new.out.moves.items)) }
        ensures refused { OnErr result (self.new.out ≡ self.old.out) }
        ensures faults { self.new.faults ≡ self.old.faults }
        ensures opened { self.new.opened ≡ self.old.opened }
    {
        let port = match &self.port {
            Some(port) => Some(Arc::try_clone(port)?),
            None => None,
        };
        self.out.give(worker);
        Ok(Crew {
            clock: MachineClock::new(self.runtime),
            hosts: FolderHosts::new(alloc, self.runtime),
            pace: NoPace,
            listener: TcpAcceptor::new(self.runtime, alloc, port),
        })
    }

    fn back(
        &mut self,
        worker: u32,
        _: Crew<MachineClock<R>, FolderHosts<R>, NoPace, TcpAcceptor<R>>,
    )
        requires { was_given self.old.out.moves.items worker ≡ true }
        ensures out { SetsAt worker false (was_given self.old.out.moves.items) (was_given self.new.out.moves.items) }
        ensures faults { self.new.faults ≡ self.old.faults }
        ensures opened { self.new.opened ≡ self.old.opened }
    {
        self.out.take(worker);
    }
}

// The open port, for all workers.
fn open_port<R: Net<Listener = TcpListener, Stream = TcpStream>>(
    net: &R,
    alloc: Global,
    number: u16,
) -> io::Result<Arc<Port>> {
    match Arc::new(alloc, Port::open(net, number)?) {
        Ok(port) => Ok(port),
        Err(_) => Err(io::Error::from(AllocError)),
    }
}
