/// How a collection is laid out. `IsShape` has the range of each number.
#[derive(Clone, Copy, Debug, PartialEq, Eq)]
pub struct Shape {
    /// How many nodes there are.
    pub nodes: u32,
    /// Into how many shards the hashes are cut at first.
    pub shards: u32,
    /// How many replicas each shard has.
    pub replicas: u8,
    /// Over how many buckets the ids are spread.
    pub buckets: u32,
    /// How many entries the journal of a bucket may have.
    pub log_limit: u64,
}
