use sc_cluster::SplitPlan;
use sc_record::SliceId;

/// What was done of a whole collection for good. What failed is none.
#[derive(Debug, Drop)]
pub enum Change {
    /// A split of this plan was done: the slices that it made took the parent's place.
    Switched { plan: SplitPlan },
    /// An inactive slice is gone.
    Dropped { slice: SliceId },
}
