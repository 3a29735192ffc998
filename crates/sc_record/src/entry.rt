use crate::slice::{CoreId, SliceId, SubSlice};
use crate::write::Cell;
use sc_values::List;

/// One entry of a bucket's journal. The entries of a split change the bucket's map of slices; those of a core say which cores are
/// down, and which lead.
#[derive(Debug, Drop)]
pub enum Entry {
    /// A write that was accepted.
    Write(Cell),
    /// The write at this place, counted from 0, was delivered to every other core that had to take it, or the core is gone or
    /// down. It comes before the update is answered.
    Settled {
        place: u64,
    },
    /// All that was written before it can be found by a search.
    Committed,
    /// A split of the parent into these slices began, which commits too.
    Begun {
        parent: SliceId,
        subs: List<SubSlice>,
    },
    /// The slices that the split made took the parent's place.
    Switched {
        parent: SliceId,
    },
    /// The split ended, and the parent is as it was.
    Failed {
        parent: SliceId,
    },
    /// An inactive slice is gone.
    Dropped {
        slice: SliceId,
    },
    /// This follower of an active slice is down: it is sent nothing from here on.
    Down {
        core: CoreId,
    },
    /// The core that was down is fed anew, and is sent what is written from here on.
    Up {
        core: CoreId,
    },
    /// The core in this seat leads its slice from here on: it and the core that led change seats, and the one that led is down.
    Led {
        core: CoreId,
    },
}
