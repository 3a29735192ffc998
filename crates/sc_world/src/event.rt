use sc_cluster::SplitPlan;
use sc_record::{CoreId, Order, SliceId};

/// What may happen to a bucket.
#[derive(Debug, Drop)]
pub enum Event {
    /// An order comes, at this timestamp in milliseconds.
    Accept { order: Order, now: u64 },
    /// The message at place k of the flight, from 0, is delivered, where there is one.
    DeliverNth { k: usize },
    /// The first message of the write at this place of the journal is delivered, where there is one.
    Deliver { place: u64 },
    /// The write at this place of the journal is settled.
    Settle { place: u64 },
    /// All is committed.
    Commit,
    /// The core is marked as down.
    Detach { core: CoreId },
    /// The core that is down takes part again, as a new one.
    Rejoin { core: CoreId },
    /// The core takes the lead of its slice.
    Lead { core: CoreId },
    /// A split begins.
    Begin { plan: SplitPlan },
    /// The core is fed a piece.
    Feed { core: CoreId },
    /// The core begins to replay.
    StartReplay { core: CoreId },
    /// The core replays a piece.
    Replay { core: CoreId },
    /// The leaders of the subs are made.
    Ready,
    /// A further replica of a sub joins.
    Grow { core: CoreId },
    /// The subs take their parent's place.
    Switch,
    /// The split is given up.
    Abort,
    /// An inactive slice is taken away.
    Drop { slice: SliceId },
}
