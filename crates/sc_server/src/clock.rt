//! The clock of a worker.
ghost use Rattle.sc_server.specs.Clocks.{gives_at};

use sc_io::Clock;

/// A worker's clock: one that was handed in, or with a moment one that stands still there, in milliseconds, and leaves the other alone.
#[derive(Drop)]
pub struct WorkerClock<C> {
    pub clock: C,
    pub moment: Option<u64>,
}

impl<C: Clock> Clock for WorkerClock<C> {
    ghost gives = { λ old now new. gives_at C.gives old.moment old.clock now new.moment new.clock };

    fn now(&mut self) -> u64 {
        match self.moment {
            Some(moment) => moment,
            None => self.clock.now(),
        }
    }
}
