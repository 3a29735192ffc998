/// A hold of a journal, in which it was read or written.
#[derive(Clone, Copy, Debug, PartialEq, Eq)]
pub struct Stop {
    /// The number of the lock that guards the journal.
    pub lock: u32,
    /// How many entries the journal had when the hold began.
    pub place: u64,
    /// Whether the hold added an entry, which then has the index `place`.
    pub made: bool,
}
