ghost use Rattle.std.specs.Prelude.{◌≡◌, List, length, IfOk};
ghost use Rattle.std.specs.Map.{keys_of, values_of};
ghost use Rattle.sc_segment.specs.Filing.{AreFiled, AreNumbered, filed_entries};
ghost use Rattle.sc_segment.specs.Placing.{ArePlaced, IsBegun, IsLayoutOf};
ghost use Rattle.sc_segment.specs.declared.tally.Tally.{Tally};

use crate::flat_index::FlatIndex;
use crate::tally::{Posting, Tally};
use std::alloc::{AllocError, Global};

/// Where the rows of keys end, in the order of the keys, how many rows there are, and by the number of a key where its next row is to stand.
#[derive(Drop)]
struct Layout {
    ends: Vec<u32>,
    count: u32,
    next: Vec<u32>,
}

/// Lays out keys flat, in their order, each with its rows among the postings, which are put to their places in one pass. An error means
/// out of memory, or that there are more than 2^32 - 1 rows.
pub(crate) fn laid_out<K: Drop>(
    alloc: Global,
    keys: Vec<(K, Tally)>,
    postings: Vec<Posting>,
) -> Result<FlatIndex<K>, AllocError>
    requires { AreFiled (values_of keys.items) postings.items }
    ensures { IfOk result (λ index. index.entries ≡ filed_entries keys.items postings.items) }
{
    let layout = layout_of(alloc, keys.as_slice())?;
    let Layout {
        ends,
        count,
        mut next,
    } = layout;
    let mut rows = vec![in alloc; 0; count as usize]?;
    place(
        next.as_mut_slice(),
        rows.as_mut_slice(),
        postings.as_slice(),
    );
    let alone = keys_alone(alloc, keys)?;
    Ok(FlatIndex::of(alone, ends, rows))
}

// Adds up where the rows of each key begin and end. An error means out of memory, or that there are more than 2^32 - 1 rows.
fn layout_of<K>(alloc: Global, keys: &[(K, Tally)]) -> Result<Layout, AllocError>
    requires { AreNumbered (values_of keys.now) }
    ensures { IfOk result (λ layout. IsLayoutOf (values_of keys.now) layout) }
{
    let mut ends = Vec::with_capacity(alloc, keys.len())?;
    let mut next = vec![in alloc; 0; keys.len()]?;
    let mut count: u32 = 0;
    for (_, tally) in keys {
        let end = count.checked_add(tally.count).ok_or(AllocError)?;
        next[tally.number as usize] = count;
        ends.push(end)?;
        count = end;
    }
    Ok(Layout { ends, count, next })
}

// Puts the row of each posting to the next place of its key.
fn place(next: &mut [u32], rows: &mut [u32], postings: &[Posting])
    requires { (tallies : List Tally) × IsBegun tallies postings.now next.old rows.old }
    ensures placed { (tallies : List Tally) → IsBegun tallies postings.now next.old rows.old → ArePlaced 0 tallies postings.now next.new rows.new }
    ensures room { length rows.new ≡ length rows.old }
{
    for posting in postings {
        let number = posting.number as usize;
        let place = next[number];
        rows[place as usize] = posting.row;
        next[number] = place + 1;
    }
}

// The keys without their tallies.
fn keys_alone<K: Drop>(alloc: Global, keys: Vec<(K, Tally)>) -> Result<Vec<K>, AllocError>
    ensures { IfOk result (λ alone. alone.items ≡ keys_of keys.items) }
{
    let mut alone = Vec::with_capacity(alloc, keys.len())?;
    for (key, _) in keys {
        alone.push(key)?;
    }
    Ok(alone)
}
