use crate::id::Id;

/// What a client is told of a write that was accepted: its id, and its version as clients see it,
/// which is negative for a deletion.
#[derive(Debug, Drop)]
pub struct Ack {
    pub id: Id,
    pub version: i64,
}
