ghost use Rattle.std.specs.Prelude.{◌≡◌, ◌<◌, ◌≤◌, ◌+◌, ℕ, List, [], length, take, drop, min, IfOk, IfSome, OnOk, OnErr, IsErr};
ghost use Rattle.sc_io.specs.Counts.{CountsFaults};
ghost use Rattle.sc_files.specs.Images.{Holds, Torn, IsCut, Cut, ReadsAt};
ghost use Rattle.sc_files.specs.States.{FileState, Changes, Stays, Syncs, FailsToSync};

use sc_io::Failed;

/// A file of bytes, places and lengths counted in bytes: one of a disk, a list in memory. Between two syncs a crash may leave any
/// bytes where something was written and past the old end; after a sync that succeeds it leaves what a read gives. A sync that fails
/// promises nothing of what was written before it, also if a later one succeeds: what is to be kept is written again.
pub trait LogFile {
    /// What a read gives, what a crash may leave, and how often it has failed.
    ghost state: { Self → FileState };

    /// How many bytes the file has.
    fn len(&mut self) -> Result<u64, Failed>
        ensures length { IfOk result (λ n. IfSome (state self.old).seen (λ bytes. n ≡ length bytes)) }
        ensures stays { Stays (state self.old) (state self.new) }
        ensures cause { CountsFaults (IsErr result) (state self.old).faults (state self.new).faults };

    /// Puts the bytes from a place on into the first places of `into`, and says how many, which may be less than there is room for.
    /// `Ok(0)` is the end of the file.
    fn read(&mut self, at: u64, into: &mut [u8]) -> Result<usize, Failed>
        requires { 0 < length into.old }
        ensures bounded { IfOk result (λ n. n ≤ length into.new) }
        ensures room { length into.new ≡ length into.old }
        ensures taken { IfOk result (λ n. IfSome (state self.old).seen (λ bytes. ReadsAt at n bytes (take n into.new))) }
        ensures stays { Stays (state self.old) (state self.new) }
        ensures cause { CountsFaults (IsErr result) (state self.old).faults (state self.new).faults };

    /// Writes the bytes over what stands from a place on, and past the end. Of a call that failed any byte there may have changed.
    fn write(&mut self, at: u64, bytes: &[u8]) -> Result<(), Failed>
        requires { IfSome (state self.old).seen (λ old. at ≤ length old) }
        ensures written { OnOk result (Changes (Torn at (length bytes.now)) (Holds at bytes.now) (state self.old) (state self.new)) }
        ensures torn { OnErr result (Changes (Torn at (length bytes.now)) (Torn at (length bytes.now)) (state self.old) (state self.new)) }
        ensures cause { CountsFaults (IsErr result) (state self.old).faults (state self.new).faults };

    /// Cuts the file to a length. A call that failed may have cut less, or nothing.
    fn cut(&mut self, len: u64) -> Result<(), Failed>
        requires { IfSome (state self.old).seen (λ old. len ≤ length old) }
        ensures cut { OnOk result (Changes (Cut len) (IsCut len) (state self.old) (state self.new)) }
        ensures torn { OnErr result (Changes (Cut len) (Cut len) (state self.old) (state self.new)) }
        ensures cause { CountsFaults (IsErr result) (state self.old).faults (state self.new).faults };

    /// Waits until what was written is on the disk.
    fn sync(&mut self) -> Result<(), Failed>
        ensures durable { OnOk result (Syncs (state self.old) (state self.new)) }
        ensures failed { OnErr result (FailsToSync (state self.old) (state self.new)) }
        ensures cause { CountsFaults (IsErr result) (state self.old).faults (state self.new).faults };

    /// This moment is one of those since an earlier one.
    ghost counts_now: { (file : Self) (t : ℕ) (c : List ℕ) → t ≤ (state file).moment → (state file).may_leave c → (state file).left_since t c };

    /// Since this moment there is no other.
    ghost only_now: { (file : Self) (c : List ℕ) → (state file).left_since (state file).moment c → (state file).may_leave c };
}
