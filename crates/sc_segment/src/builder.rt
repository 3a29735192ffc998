ghost use Rattle.std.specs.Prelude.{◌≡◌, ◌<◌, ◌≤◌, ℕ, List, [], ◌∷◌, ◌++◌, IfOk, OnOk, OnErr, vec_len, vec_capacity};
ghost use Rattle.std.specs.HashMap.{IsUnchanged};
ghost use Rattle.std.specs.List.Sorted.{IsPermutation, IsStrictlySortedBy};
ghost use Rattle.std.specs.Map.{keys_of, values_of};
ghost use Rattle.sc_segment.specs.Index.{IsIndexOf};
ghost use Rattle.sc_segment.specs.Filing.{AreFiled, FilesRow, NoRowAbove, filed_entries, posting_of};
ghost use Rattle.sc_segment.specs.declared.tally.Posting.{Posting};

use crate::flat_index::KeptIndex;
use crate::placing::laid_out;
use crate::segment::Segment;
use crate::tally::{Posting, Tally};
use sc_keys::Key;
use std::alloc::{AllocError, Global};
use std::collections::HashMap;
use std::collections::hash_map::Entry;
use std::hash::Hash;
use std::marker::Model;

/// Takes rows with their keys, in the order of the rows. It keeps each distinct key once, and each row
/// once for each key. A key is found by its hash and has a number, by which all postings stand in one list as they come. The keys are
/// sorted once, at the end, and each posting is then put to its place.
#[derive(Drop)]
pub struct Builder<K: Key + Ord + Hash> {
    keys: HashMap<K, Tally>,
    postings: Vec<Posting>,
    last_row: u32,
    alloc: Global,
}

impl<K: Key + Ord + Hash> Model for Builder<K> {
    ghost use Rattle.std.specs.Prelude.{◌≡◌};
    ghost use Rattle.std.specs.Map.{values_of};
    ghost use Rattle.sc_segment.specs.Filing.{AreFiled, BuilderState, NoRowAbove, filed_entries, sorted_entries};

    ghost Value = { BuilderState K };

    ghost view = { λ a. record { index = sorted_entries K.order (filed_entries a.keys.entries a.postings.items); last_row = a.last_row } };

    ghost invariant = { λ a. ((x y : K) → K.cmp x y ≡ K.order x y) × AreFiled (values_of a.keys.entries) a.postings.items × NoRowAbove a.last_row a.postings.items };
}

impl<K: Key + Ord + Hash + Drop> Builder<K> {
    /// A builder to which nothing was added. `Ord` and `Key` have to compare alike.
    pub fn new(alloc: Global) -> Self
        requires { (x y : K) → K.cmp x y ≡ K.order x y }
        ensures index { IsIndexOf K.order [] result.index }
        ensures last_row { result.last_row ≡ 0 }
    {
        Builder {
            keys: HashMap::new(alloc),
            postings: Vec::new(alloc),
            last_row: 0,
            alloc,
        }
    }

    /// Adds a row with one of its keys. The same key may be added again for the same row, and counts once.
    /// An error means out of memory, or that there are 2^32 keys, or that the key has 2^32 - 1 rows already.
    pub fn add(&mut self, row: u32, key: K) -> Result<(), AllocError>
        requires { self.old.last_row ≤ row }
        ensures ok { OnOk result ((added : List (ℕ × K)) → IsIndexOf K.order added self.old.index → IsIndexOf K.order (added ++ (row, key) ∷ []) self.new.index) }
        ensures last_row { OnOk result (self.new.last_row ≡ row) }
        ensures err { OnErr result (self.new ≡ self.old) }
    {
        self.postings.reserve(1)?;
        let number = count_row(&mut self.keys, row, key)?;
        put_posting(&mut self.postings, number, row);
        self.last_row = row;
        Ok(())
    }

    /// The segment of what was added. An error means out of memory, or that there are more than 2^32 - 1 postings, and the builder is
    /// then gone.
    pub fn finish(self) -> Result<Segment<K>, AllocError>
        ensures { IfOk result (λ segment. segment ≡ self.index) }
    {
        let Builder {
            keys,
            postings,
            last_row: _,
            alloc,
        } = self;
        let entries = sorted(alloc, keys)?;
        let index = laid_out(alloc, entries, postings)?;
        let kept = KeptIndex::of_written(alloc, index)?;
        Ok(Segment::new(kept))
    }
}

// The keys with their tallies, in the order of the keys. Few keys are compared where they are nearly in order by their ranks.
fn sorted<K: Key + Ord + Hash + Drop>(
    alloc: Global,
    keys: HashMap<K, Tally>,
) -> Result<Vec<(K, Tally)>, AllocError>
    ensures same { IfOk result (λ entries. IsPermutation keys.entries entries.items) }
    ensures ascending { IfOk result (λ entries. IsStrictlySortedBy K.cmp (keys_of entries.items)) }
{
    let mut entries: Vec<(K, Tally)> = keys.into_iter().collect(alloc)?;
    entries.sort_by_cached_key(|entry| entry.0.rank())?;
    entries.sort_by(|left, right| left.0.cmp(&right.0))?;
    Ok(entries)
}

// Counts a row at its key, which gets the next number where it is new. Gives the key's number, or None where the row is the key's last
// one already. An error means out of memory, or that there are 2^32 keys, or that the key has 2^32 - 1 rows already.
fn count_row<K: Ord + Hash + Drop>(
    keys: &mut HashMap<K, Tally>,
    row: u32,
    key: K,
) -> Result<Option<u32>, AllocError>
    ensures filed { IfOk result (λ number. (postings : List Posting) → AreFiled (values_of keys.old.entries) postings → NoRowAbove row postings
        → AreFiled (values_of keys.new.entries) (postings ++ posting_of number row)) }
    ensures index { IfOk result (λ number. (postings : List Posting) → AreFiled (values_of keys.old.entries) postings → NoRowAbove row postings
        → FilesRow K.cmp row key (filed_entries keys.old.entries postings) (filed_entries keys.new.entries (postings ++ posting_of number row))) }
    ensures err { OnErr result (IsUnchanged keys.old keys.new) }
{
    let next = number_after(keys.len())?;
    match keys.entry(key)? {
        Entry::Occupied(entry) => entry.into_mut().add(row),
        Entry::Vacant(entry) => {
            entry.insert(Tally {
                number: next,
                count: 1,
                last: row,
            });
            Ok(Some(next))
        }
    }
}

// The number of a key that is new after so many. An error means that there are more than 2^32 - 1.
fn number_after(count: usize) -> Result<u32, AllocError>
    ensures { IfOk result (λ number. number ≡ count) }
{
    match u32::try_from(count) {
        Ok(number) => Ok(number),
        Err(_) => Err(AllocError),
    }
}

// Puts the posting of a row at the end, where its key's number is given. There is room for it.
fn put_posting(postings: &mut Vec<Posting>, number: Option<u32>, row: u32)
    requires { vec_len postings.old < vec_capacity postings.old }
    ensures { postings.new.items ≡ postings.old.items ++ posting_of number row }
{
    if let Some(number) = number {
        postings.push_reserved(Posting { number, row });
    }
}
