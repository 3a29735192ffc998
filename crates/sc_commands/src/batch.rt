use sc_record::{List, Order};

/// What a request to update sets (Solr Reference Guide, "Indexing with Update Handlers", "Optimistic Concurrency").
#[derive(Clone, Copy)]
pub struct Flags {
    /// What was written can be found by a search once the update is answered.
    pub commit: bool,
    /// The versions of the orders are shown.
    pub versions: bool,
    /// An order whose condition is not met stops those after it; else it is passed over.
    pub fail_on_conflict: bool,
}

/// The orders of one update, in order.
#[derive(Drop)]
pub struct Batch {
    pub orders: List<Order>,
    pub flags: Flags,
}
