use thiserror::Error;

/// Why there is no request to give.
#[derive(Debug, Clone, Copy, PartialEq, Eq, Error)]
pub enum MessageEnd {
    /// The input ended between two requests.
    #[error("the input ended")]
    Done,
    /// The input ended inside a request.
    #[error("the input ended inside a request")]
    Cut,
    /// The bytes are no head, the head states the body's length so that it can't be read, or its chunks are malformed.
    #[error("bad request")]
    BadHead,
    /// The head passes 65,536 bytes or 128 header lines, or the head or the chunks state a body of more than 16,777,216
    /// bytes, or these take more than 33,554,432 bytes.
    #[error("request is too large")]
    TooLarge,
    /// The source failed.
    #[error("the source failed")]
    ReadFault,
    #[error("out of memory")]
    Memory,
}
