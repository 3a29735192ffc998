ghost use Rattle.std.specs.Prelude.{ℕ};

/// What reports the time.
pub trait Clock {
    /// From one state, a timestamp that a call may answer and the state after it. A clock that doesn't
    /// report its timestamps relates all.
    ghost gives: { Self → ℕ → Self → Type 0 };

    /// The time in milliseconds. It may stand still, and it may go back.
    fn now(&mut self) -> u64
        ensures { gives self.old result self.new };
}
