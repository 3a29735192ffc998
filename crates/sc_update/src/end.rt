use sc_record::{Ack, List, Text};

/// What ended the orders of an update before their end, or was refused of the commits after them. `order` is the place of the
/// order, from 0. What was accepted before it stands, and so does each commit that was done.
#[derive(Debug, Drop)]
pub enum BatchFault {
    /// The order's condition is not met by this version, which was found.
    Conflict { order: usize, actual: i64 },
    /// The field of this name can't take its change.
    Partial { order: usize, field: Text },
    /// A journal has no room, for an order's write or for a commit.
    LogFull,
    /// Memory ran out.
    Memory,
}

/// What an update came to: the ids and the versions, as they are shown, of what was accepted of additions and of deletions, each
/// in order and where versions are asked for; and the fault, if there was one.
#[derive(Debug, Drop)]
pub struct BatchEnd {
    pub adds: List<Ack>,
    pub deletes: List<Ack>,
    pub fault: Option<BatchFault>,
}
