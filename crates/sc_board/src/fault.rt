use sc_cluster::State;
use sc_record::Text;
use std::alloc::AllocError;

/// Why a split did not begin. The board is as it was, but for room in memory.
#[derive(Debug, Drop)]
pub enum BoardFault {
    /// No slice has the name.
    UnknownShard,
    /// A split runs, of the slice of this name.
    Running { shard: Text },
    /// The slice is in this state.
    NotActive { state: State },
    /// The slice's range has fewer hashes than it was to have parts.
    RangeTooSmall,
    /// The ranges are not the parts of the slice's.
    BadRanges,
    /// There would be more slices than a map may have.
    TooManySlices,
    /// The journal has no room for the entry that says so and for those that it owes then.
    LogFull,
    /// Memory was refused.
    Memory,
}

impl From<AllocError> for BoardFault {
    ghost use Rattle.std.specs.Prelude.{◌≡◌};
    ghost use Rattle.sc_board.specs.declared.fault.BoardFault.TheVariants as faults;

    ghost from_gives = { λ _ fault. fault ≡ faults.Memory };

    fn from(_: AllocError) -> BoardFault {
        BoardFault::Memory
    }
}

/// Why a slice can't be dropped.
#[derive(Debug, Drop)]
pub enum DropFault {
    /// No slice has the name.
    UnknownShard,
    /// A split runs, of the slice of this name.
    Running { shard: Text },
    /// The slice is in this state.
    NotInactive { state: State },
    /// Memory was refused.
    Memory,
}

impl From<AllocError> for DropFault {
    ghost use Rattle.std.specs.Prelude.{◌≡◌};
    ghost use Rattle.sc_board.specs.declared.fault.DropFault.TheVariants as faults;

    ghost from_gives = { λ _ fault. fault ≡ faults.Memory };

    fn from(_: AllocError) -> DropFault {
        DropFault::Memory
    }
}

/// Why no other leader of a slice can be noted. The board is as it was, but for room in memory.
#[derive(Debug, Drop)]
pub enum LeadFault {
    /// No slice has the name.
    UnknownShard,
    /// A split runs, of the slice of this name.
    Running { shard: Text },
    /// The slice is in this state.
    NotActive { state: State },
    /// The journal has no room for the entry that says so.
    LogFull,
    /// Memory was refused.
    Memory,
}

impl From<AllocError> for LeadFault {
    ghost use Rattle.std.specs.Prelude.{◌≡◌};
    ghost use Rattle.sc_board.specs.declared.fault.LeadFault.TheVariants as faults;

    ghost from_gives = { λ _ fault. fault ≡ faults.Memory };

    fn from(_: AllocError) -> LeadFault {
        LeadFault::Memory
    }
}
