//! The chunked coding of bodies (RFC 9112, section 7.1), and a decoder of it that takes bytes in pieces of any size.
//!
//! It depends on the grammar of chunk lines of `httparse` alone. The layer above uses the clauses of `Decoder` and the laws.
//!
//! Proved: `Decoder::take` goes on by the grammar of codings (`goes_on`), takes all bytes unless the coding is whole (`all`),
//! and refuses only bytes that are malformed or too large (`refuses`); while it is not whole, its bytes could become a coding
//! and pass no limit (`is_whole`). Data in pieces have the codings of the grammar; bytes begin with at most one coding, end in at most one way, and not both; what follows a
//! coding, or bytes that are malformed or too large, changes nothing (`laws`).
#![tactic(auto)]

mod advance;
mod decoder;
mod error;
mod laws;
mod line;
mod place;
mod step;
mod trailer;

pub use decoder::Decoder;
pub use error::DecodeError;
pub use laws::{
    bytes_end_in_one_way, bytes_have_one_coding, coding_stays, ended_bytes_have_no_coding,
    malformed_stays, pieces_have_their_codings, too_large_stays,
};
