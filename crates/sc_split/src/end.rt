ghost use Rattle.std.specs.Prelude.{◌≡◌};
ghost use Rattle.sc_split.specs.Splits.{refusal};

use sc_board::BoardFault;
use sc_cluster::State;
use sc_collection::Commits;
use sc_handover::BeginFault;
use sc_record::{List, Text};
use std::alloc::AllocError;

/// What a split came to. Once it had begun, each refusal leaves the map as it was before it.
#[derive(Debug, Drop)]
pub enum SplitEnd {
    /// The subs of these names have taken the shard's place, and all buckets were committed, or some were refused that.
    Done {
        subs: List<Text>,
        committed: Commits,
    },
    /// No shard has the name.
    UnknownShard,
    /// A split of this shard runs.
    Running {
        shard: Text,
    },
    /// The shard is in this state.
    NotActive {
        state: State,
    },
    /// The shard's range has fewer hashes than parts were asked for.
    RangeTooSmall,
    /// The ranges do not tile that of the shard.
    BadRanges,
    /// There would be more shards than a map may have.
    TooManySlices,
    /// The journal of the board, or of a bucket, has no room for a split.
    LogFull,
    /// Starting the core of this name failed.
    HostFault {
        core: Text,
    },
    /// The pace said stop.
    Stopped,
    /// Memory ran out.
    Memory,
}

/// Why a split that has begun is given up.
#[derive(Debug, Clone, Copy, PartialEq, Eq)]
pub(crate) enum Fault {
    /// A bucket's journal has no room for it.
    LogFull,
    /// Starting the next of the split's cores failed.
    Host,
    /// The pace said stop.
    Stopped,
    /// Memory ran out.
    Memory,
}

impl From<BeginFault> for Fault {
    ghost use Rattle.std.specs.Prelude.{◌≡◌};
    ghost use Rattle.sc_split.specs.Steps.{begin_fault};

    ghost from_gives = { λ refusal fault. fault ≡ begin_fault refusal };

    fn from(fault: BeginFault) -> Fault {
        match fault {
            BeginFault::LogFull => Fault::LogFull,
            BeginFault::Memory => Fault::Memory,
        }
    }
}

impl From<AllocError> for Fault {
    ghost use Rattle.std.specs.Prelude.{◌≡◌};
    ghost use Rattle.sc_split.specs.declared.end.Fault.TheVariants as faults;

    ghost from_gives = { λ _ fault. fault ≡ faults.Memory };

    fn from(_: AllocError) -> Fault {
        Fault::Memory
    }
}

/// What a split that the board refused came to.
pub(crate) fn refusal(fault: BoardFault) -> SplitEnd
    ensures { result ≡ refusal fault }
{
    match fault {
        BoardFault::UnknownShard => SplitEnd::UnknownShard,
        BoardFault::Running { shard } => SplitEnd::Running { shard },
        BoardFault::NotActive { state } => SplitEnd::NotActive { state },
        BoardFault::RangeTooSmall => SplitEnd::RangeTooSmall,
        BoardFault::BadRanges => SplitEnd::BadRanges,
        BoardFault::TooManySlices => SplitEnd::TooManySlices,
        BoardFault::LogFull => SplitEnd::LogFull,
        BoardFault::Memory => SplitEnd::Memory,
    }
}
