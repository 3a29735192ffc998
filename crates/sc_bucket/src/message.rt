use sc_record::{Cell, CoreId};

/// A message in flight: the write at this place of the journal, which is sent to this core.
#[derive(Drop)]
pub struct Message {
    pub place: u64,
    pub core: CoreId,
    pub write: Cell,
}
