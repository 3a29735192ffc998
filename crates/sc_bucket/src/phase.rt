use sc_record::SliceId;

/// How far the split of a bucket has come.
#[derive(Clone, Copy, Debug, PartialEq, Eq)]
pub enum Phase {
    /// No split is open.
    Idle,
    /// The first replicas of the subs of this slice are being made.
    Building { parent: SliceId },
    /// They are made, and the other replicas are being made.
    Recovering { parent: SliceId },
}
