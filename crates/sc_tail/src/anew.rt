ghost use Rattle.std.specs.Prelude.{◌≡◌, [], IsErr, IfSome, OnOk};
ghost use Rattle.sc_io.specs.Counts.{CountsFaults};
ghost use Rattle.sc_files.specs.States.{LeavesOnly, AreAmong};
ghost use Rattle.sc_tail.specs.Frames.{opened};
ghost use Rattle.sc_tail.specs.Files.{IsWhole};

use sc_files::LogFile;
use sc_io::Failed;

/// Begins a file anew in which no frame is open: it is cut to nothing and given a closed mark, with a sync after each.
pub fn begin_anew<F: LogFile>(file: &mut F) -> Result<(), Failed>
    requires crash { AreAmong (F.state file.old).may_leave (λ c. opened c ≡ []) }
    ensures begun { OnOk result (IsWhole (F.state file.new) 0 []) }

    // A crash at any moment leaves a file in which no frame is open.
    ensures any_moment { LeavesOnly (F.state file.old) (F.state file.new) (λ c. opened c ≡ []) }
    ensures cause { CountsFaults (IsErr result) (F.state file.old).faults (F.state file.new).faults }
{
    file.cut(0)?;
    file.sync()?;
    file.write(0, &[0])?;
    file.sync()?;
    Ok(())
}
