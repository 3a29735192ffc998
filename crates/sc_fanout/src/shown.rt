use sc_record::{Cell, List};

/// One page of the documents that a search finds.
#[derive(Debug, Drop)]
pub struct Page {
    /// How many documents are found in all.
    pub found: u64,
    /// The documents of the page, ascending by their ids' bytes.
    pub docs: List<Cell>,
}
