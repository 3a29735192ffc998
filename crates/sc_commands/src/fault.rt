use sc_record::MAX_ORDERS;
use sc_schema::DocFault;
use thiserror::Error;

/// Why an update is refused, by the first of its causes in this order. None of its orders is done then.
#[derive(Debug, Drop, Error)]
pub enum CommandFault {
    /// The body is no JSON text.
    #[error("invalid JSON")]
    BadJson,
    /// The body or one of its commands has none of the forms. `at` orders come before it; a number above 32 bits is shown as
    /// the greatest of 32 bits.
    #[error("unexpected content at command {at}")]
    BadShape { at: u32 },
    /// More orders than an update may have.
    #[error("more than {MAX_ORDERS} commands")]
    TooMany,
    /// The first fault of the first document, or id to delete, that has one.
    #[error("{0}")]
    Doc(DocFault),
    #[error("out of memory")]
    Memory,
}
