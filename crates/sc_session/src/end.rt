/// How a connection ended.
#[derive(Clone, Copy, Debug, PartialEq, Eq)]
pub enum End {
    /// The input ended between two messages.
    Done,
    /// A request asked for it.
    Closed,
    /// The connection has had its requests or its stops.
    Limit,
    /// The input ended inside a message, for which nothing was written.
    Cut,
    /// A head, how it states a body's length, or a body in chunks is malformed; a 400 was written.
    BadHead,
    /// A head or a body is too large; a 413 was written.
    TooLarge,
    /// The source failed.
    ReadFault,
    /// The sink failed.
    WriteFault,
    /// Memory ran out; a 503 was written.
    Memory,
    /// What a request made could not be kept, and its gate has counted that; a 500 was written. It stands in the journals, and may be
    /// kept later.
    LogFault,
}
