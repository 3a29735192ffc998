ghost use Rattle.std.specs.Prelude.{◌≡◌};
ghost use Rattle.sc_snapshot.specs.Rows.{lent};
ghost use Rattle.sc_keys.specs.Heads.{front_number};

use sc_eval::{Numbers, Unjoined};
use sc_record::{Cell, Write};
use sc_replicas::Searcher;

/// The numbers of the rows that the query finds with a searcher, where the outermost join is not made yet.
#[derive(Drop)]
pub(crate) struct Looked<'a> {
    pub(crate) searcher: &'a Searcher,
    pub(crate) unjoined: Unjoined<'a>,
}

/// The first hits of a searcher: the numbers of the first rows that the query finds there, as many as the page can show.
#[derive(Drop)]
pub struct Hits<'a> {
    pub searcher: &'a Searcher,
    pub numbers: Numbers<'a>,
}

/// What the query finds with some searchers: how many documents, and of each searcher the first hits.
#[derive(Drop)]
pub struct Found<'a> {
    pub count: u64,
    pub hits: Vec<Hits<'a>>,
}

/// The first row of a searcher's hits, its write, which the row shares, and the numbers of the rows after it.
#[derive(Clone, Copy)]
pub(crate) struct Lead<'a, 'b> {
    pub(crate) searcher: &'a Searcher,
    pub(crate) row: &'a Cell,
    pub(crate) write: &'a Write,
    pub(crate) rest: &'b [u32],
    pub(crate) ghost is_write: { write.now ≡ lent row },
}

/// What is still to be merged of a searcher's hits: the first row, with the number that the first bytes of its id make, and the numbers of
/// the rows after it.
#[derive(Clone, Copy)]
pub(crate) struct Front<'a, 'b> {
    pub(crate) searcher: &'a Searcher,
    pub(crate) lead: &'a Cell,
    pub(crate) head: u64,
    pub(crate) rest: &'b [u32],
    pub(crate) ghost is_head: { head ≡ front_number 8 (lent lead).id },
}
