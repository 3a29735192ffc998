ghost use Rattle.std.specs.Prelude.{◌≡◌, ℕ, ◌<◌, ◌≤◌, ◌+◌, List, ◌++◌, Option, Some, IfSome, OnOk, OnErr};
ghost use Rattle.sc_io.specs.Pieces.{AddsPrefix};

use crate::fault::Failed;

/// What takes bytes: a connection, a file, a list in memory.
pub trait Sink {
    /// The bytes that it was given, where it reports them.
    ghost written: { Self → Option (List ℕ) };

    /// How often it has failed.
    ghost faults: { Self → ℕ };

    /// How many writes it was asked for, those that failed among them, as far as it counts them.
    ghost calls: { Self → ℕ };

    /// Writes the whole piece. Of a call that failed a prefix of the piece may have been written.
    fn write(&mut self, piece: &[u8]) -> Result<(), Failed>
        ensures whole { OnOk result (IfSome (written self.old)
            (λ bytes. written self.new ≡ Some (bytes ++ piece.now))) }
        ensures failed { OnErr result (IfSome (written self.old)
            (λ bytes. AddsPrefix bytes piece.now (written self.new))) }
        ensures steady { OnOk result (faults self.new ≡ faults self.old) }
        ensures cause { OnErr result (faults self.old < faults self.new) }
        ensures no_fall { faults self.old ≤ faults self.new }
        ensures counted { calls self.new ≤ calls self.old + 1 }
        ensures kept_count { calls self.old ≤ calls self.new };
}
