//! Requests as they come over a connection, and replies as they go back (HTTP/1.0 and HTTP/1.1: RFC 9112).
//!
//! It depends on the sources and sinks of `sc_io`, on the model of requests in `sc_model`, on the decoder of chunks in `sc_chunks`, on the
//! texts and lists of `sc_record`; and on `httparse` for heads, `form_urlencoded` for forms, `arrayvec` and `itoa` for the bytes and the
//! numbers of a reply, and `thiserror`. The layer above uses the clauses of `Reader::next_message`: the
//! request that comes first of a connection's bytes, however these are cut into pieces, or why there
//! is none; that of `form_params`: the pairs of a form; and that of `write_reply`: the bytes that a
//! reply is.
//!
//! Proved: `Reader::next_message` gives the first request of the bytes, its body of a stated length or in chunks, however
//! they are cut into pieces, or why there is none; it reads no further than a request needs (`needed`, `bounded`), and
//! reports each fault; `bytes_end_in_one_way`: bytes have one ending, but for the one place that is left open; `write_reply`
//! writes the text of a reply in at most two writes, and one of at most 4,096 bytes in one, as the sink counts them.
//!
//! Tested alone: heads that come byte by byte.
//!
//! Neither: that time is linear and that a body is copied once, which hold by construction.
#![tactic(auto)]

mod body;
mod buffer;
mod chunked;
mod end;
mod form;
mod framing;
mod head;
mod head_end;
mod laws;
mod line_ends;
mod lines;
mod reader;
mod refill;
mod reply;
mod stated;
mod stopped;
mod target;

pub use end::MessageEnd;
pub use form::form_params;
pub use laws::{
    bytes_end_in_one_way, limits_are_as_defined, no_ending_of_a_request, no_request_is_a_prefix,
};
pub use reader::Reader;
pub use reply::write_reply;
pub use sc_model::{Bytes, Incoming, Method, Param};
