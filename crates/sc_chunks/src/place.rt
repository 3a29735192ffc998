/// How far a coding was taken (RFC 9112, section 7.1). It begins in a chunk line of which no digit came. A size above
/// 16,777,216 may stand for a greater one.
#[derive(Clone, Copy, Debug, PartialEq, Eq)]
pub(crate) enum Place {
    /// In a chunk line, after so many digits, which give this size.
    Digits {
        size: usize,
        count: usize,
    },
    /// In a chunk line that states this size, after white space that follows its digits.
    Pad {
        size: usize,
    },
    /// In the extension of a chunk line that states this size.
    Extension {
        size: usize,
    },
    /// Before the LF of a chunk line that states this size.
    LineFeed {
        size: usize,
    },
    /// In the data of a chunk, or before the line end after it: so many bytes of the data are left.
    Data {
        left: usize,
    },
    /// Before the LF of the line end after data.
    DataFeed,
    /// After trailer lines of `size` bytes, in the next line, of which `count` bytes came, or in the empty line after
    /// them. `named`: a colon stands after its first byte. `returned`: its last byte so far is CR.
    Trailer {
        size: usize,
        count: usize,
        named: bool,
        returned: bool,
    },
    /// After the coding.
    End,
}
