//! What the promises of the crates above speak of where they speak of HTTP (RFC 9110, RFC 9112): requests and their parameters,
//! the heads and the bodies of messages, and the text of a reply.
//!
//! It may depend on `sc_record`, on the chunks of `sc_chunks` and on the parsers of heads and of forms. The layers above cite
//! its definitions, and look up the parameters of a request by the clauses of `parameter`, `is_set_to`, `is_other_than` and `count_of`.
//!
//! Proved: a parameter's value is that of the first of its name, and a count has no sign and no zero before other digits. Else it has
//! definitions: of heads, messages and the text of a reply.
#![tactic(auto)]

mod counts;
mod message;
mod params;

pub use counts::count_of;
pub use message::{Bytes, Incoming, Method, Param};
pub use params::{is_other_than, is_set_to, parameter};
