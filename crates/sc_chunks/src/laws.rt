ghost use Rattle.sc_chunks.specs.Laws.{CodingStays, MalformedStays, NoEndOfCoding, OneCoding, OneCodingEnd, PiecesHaveTheirCodings, TooLargeStays};

/// Data in pieces have each coding that the grammar gives them, and it carries them.
pub fn pieces_have_their_codings()
    ensures { PiecesHaveTheirCodings }
{}

/// Bytes begin with at most one coding, and no coding is a proper prefix of another.
pub fn bytes_have_one_coding()
    ensures { OneCoding }
{}

/// Bytes that end in some way begin with no coding within its limits.
pub fn ended_bytes_have_no_coding()
    ensures { NoEndOfCoding }
{}

/// Bytes end in at most one way.
pub fn bytes_end_in_one_way()
    ensures { OneCodingEnd }
{}

/// What follows a whole coding is its rest.
pub fn coding_stays()
    ensures { CodingStays }
{}

/// What follows malformed bytes leaves them malformed.
pub fn malformed_stays()
    ensures { MalformedStays }
{}

/// What follows bytes that are too large leaves them so.
pub fn too_large_stays()
    ensures { TooLargeStays }
{}
