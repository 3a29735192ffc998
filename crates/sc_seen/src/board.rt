use sc_cluster::SplitPlan;
use sc_record::SliceId;

/// One entry of the board's journal, which says how the splits of the collection went, and which replicas lead.
#[derive(Debug, Drop)]
pub enum BoardEntry {
    /// A split of this plan began.
    Begun { plan: SplitPlan },
    /// The slices that the split of the parent makes have all documents, and their followers are made.
    Recovering { parent: SliceId },
    /// The slices that the split made took the parent's place.
    Done { parent: SliceId },
    /// The split ended, and the parent is as it was.
    Failed { parent: SliceId },
    /// An inactive slice is gone.
    Dropped { slice: SliceId },
    /// From here on this replica leads the slice. Replicas are counted from 1, and the first of a slice leads before any such entry.
    Led { slice: SliceId, replica: u8 },
}
