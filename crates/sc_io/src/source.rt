ghost use Rattle.std.specs.Prelude.{◌≡◌, ℕ, ◌<◌, ◌≤◌, List, [], Option, length, take, IfOk, IfSome, OnOk, OnErr};
ghost use Rattle.sc_io.specs.Pieces.{TakesPrefix};

use crate::fault::Failed;

/// What gives bytes: a connection, a file, a list in memory.
pub trait Source {
    /// The bytes still to come, where the source reports them.
    ghost rest: { Self → Option (List ℕ) };

    /// How often it has failed.
    ghost faults: { Self → ℕ };

    /// Puts the next bytes into the first places of `into`, and says how many. `Ok(0)` is the end of input.
    /// A call that failed took nothing, and may be made again.
    fn read(&mut self, into: &mut [u8]) -> Result<usize, Failed>
        requires { 0 < length into.old }
        ensures bounded { IfOk result (λ n. n ≤ length into.new) }
        ensures taken { IfOk result (λ n. IfSome (rest self.old)
            (λ bytes. TakesPrefix (take n into.new) bytes (rest self.new))) }
        ensures end { result ≡ Ok 0 → IfSome (rest self.old) (λ bytes. bytes ≡ []) }
        ensures failed { OnErr result (rest self.new ≡ rest self.old) }
        ensures steady { OnOk result (faults self.new ≡ faults self.old) }
        ensures cause { OnErr result (faults self.old < faults self.new) }
        ensures no_fall { faults self.old ≤ faults self.new };
}
