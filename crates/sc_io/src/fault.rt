ghost use Rattle.std.specs.Prelude.{◌≡◌, ◌+◌, ◌-◌, ◌^◌, min};

use http_server::Log;
use std::fmt;
use std::marker::Model;
use thiserror::Error;

/// A read or a write didn't come about: a device refused it, a signal cut it off, or the memory
/// that it needed isn't there. The object that failed has counted it.
#[derive(Debug, Clone, Copy, PartialEq, Eq, Error)]
#[error("the device failed")]
pub struct Failed;

/// How often an object has failed. A contract sees the number itself, which has no end; the program
/// reads it up to 2^64 - 1, where what it reads stands still.
#[derive(Drop)]
pub struct Faults {
    counted: u64,
    all: Log<(), ()>,
}

impl Model for Faults {
    ghost use Rattle.std.specs.Prelude.{◌≡◌, ℕ, ◌-◌, ◌^◌, min, length};

    ghost Value = { ℕ };

    ghost view = { λ f. length f.all.items };

    ghost invariant = { λ f. f.counted ≡ min (length f.all.items) (2 ^ 64 - 1) };
}

impl Faults {
    pub fn none() -> Faults
        ensures { result ≡ 0 }
    {
        Faults {
            counted: 0,
            all: Log::new(),
        }
    }

    pub fn rise(&mut self)
        ensures { self.new ≡ self.old + 1 }
    {
        self.all = self.all.and(&(), &());
        self.counted = self.counted.saturating_add(1);
    }

    pub fn count(&self) -> u64
        ensures { result ≡ min self.now (2 ^ 64 - 1) }
    {
        self.counted
    }
}

impl fmt::Debug for Faults {
    fn fmt<W: fmt::Write>(&self, f: &mut fmt::Formatter<W>) -> fmt::Result {
        fmt::Debug::fmt(&self.counted, f)
    }
}
