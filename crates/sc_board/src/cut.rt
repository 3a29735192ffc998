use sc_hash::Range;
use sc_record::List;

/// How the range of a slice is to be cut: into as many ranges as a cut may have.
#[derive(Debug, Drop)]
pub enum Cut {
    /// Into `n` parts of about the same size.
    Parts { n: u32 },
    /// Into these ranges, in this order.
    Ranges { list: List<Range> },
}
