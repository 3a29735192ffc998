ghost use Rattle.std.specs.Prelude.{◌≡◌, ℕ, ◌<◌, ◌≤◌, IsTrue, IsFalse};

/// Where a split stands as it asks whether it may go on.
#[derive(Debug, Clone, Copy, PartialEq, Eq)]
pub enum SplitStep {
    /// The map of the shards has the split.
    Begun,
    /// A core is started. `core` counts the cores of this split, from 0.
    Started { core: u32 },
    /// The split has begun in this bucket.
    Opened { bucket: u32 },
    /// A piece of a snapshot was fed in this bucket.
    Fed { bucket: u32 },
    /// A piece of a buffer was replayed in this bucket.
    Replayed { bucket: u32 },
    /// The map shows the subs in recovery.
    Recovering,
    /// A follower has joined in this bucket.
    Grown { bucket: u32 },
    /// The next step is the first switch, after which nothing stops the split.
    BeforeSwitch,
}

/// What says of a split, between two of its steps, whether it goes on. It is asked while the split holds no lock.
pub trait Pace {
    /// How often it has said stop.
    ghost stops: { Self → ℕ };

    /// Whether the split goes on. Where it doesn't, it undoes what it has done and ends.
    fn between(&mut self, step: SplitStep) -> bool
        ensures steady { IsTrue result → stops self.new ≡ stops self.old }
        ensures cause { IsFalse result → stops self.old < stops self.new }
        ensures no_fall { stops self.old ≤ stops self.new };
}

/// A pace that always goes on.
#[derive(Debug, Clone, Copy, PartialEq, Eq)]
pub struct NoPace;

impl Pace for NoPace {
    ghost stops = { λ _. 0 };

    fn between(&mut self, _: SplitStep) -> bool
        ensures { IsTrue result }
    {
        true
    }
}
