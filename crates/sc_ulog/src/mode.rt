/// What a core does with an update that it is sent, after Solr's states of an update log.
#[derive(Clone, Copy, Debug, PartialEq, Eq)]
pub enum Mode {
    /// Updates are applied as they come, and the log stays empty.
    Active,
    /// Updates are kept in the log and not applied.
    Buffering,
    /// What was kept is being taken out, the oldest first.
    Replaying,
}
