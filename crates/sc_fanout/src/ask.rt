use sc_eval::Bound;
use sc_hash::Range;

/// What a search asks for: the documents that the query finds, in the slices whose range meets the route's or, without one, in
/// all; and of them at most `rows` from the document at `start` on, counted from 0.
#[derive(Drop)]
pub struct Ask {
    pub query: Bound,
    pub route: Option<Range>,
    pub start: u32,
    pub rows: u32,
}
