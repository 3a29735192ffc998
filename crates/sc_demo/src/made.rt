//! What came of a worker's orders.
ghost use Rattle.std.specs.Prelude.{◌≡◌, ◌+◌, ◌<◌, ◌^◌, ◌||◌};
ghost use Rattle.sc_demo.specs.Writing.{both};

/// What came of a worker's orders.
#[derive(Clone, Copy, Debug, PartialEq, Eq)]
pub struct Written {
    /// How many of them were accepted.
    pub accepted: u32,
    /// Memory ran out for one of them.
    pub memory: bool,
}

impl Written {
    /// What came of these orders and of others after them.
    pub fn then(self, other: Written) -> Written
        requires { self.accepted + other.accepted < 2 ^ 32 }
        ensures { result ≡ both self other }
    {
        Written {
            accepted: self.accepted + other.accepted,
            memory: self.memory || other.memory,
        }
    }
}
