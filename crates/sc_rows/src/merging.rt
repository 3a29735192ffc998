ghost use Rattle.std.specs.Prelude.{◌≡◌, ℕ, ◌<◌, ◌≤◌, List, ◌++◌, length, take, slice_index, All, Some, IfOk, OnOk, vec_len};
ghost use Rattle.std.specs.List.Sorted.{IsStrictlyIncreasing};
ghost use Rattle.sc_rows.specs.declared.joining.Kept.TheVariants.{Either};
ghost use Rattle.sc_rows.specs.Joining.{IsJoin};
ghost use Rattle.sc_rows.specs.Moving.{new_number, new_numbers, KeepsOrder};

use crate::moved::Moved;
use crate::moving::{push_below, push_moved};
use std::alloc::AllocError;
use std::cmp::Ordering;

/// Puts the new numbers of rows at the end of a list, with the rows that are added among them. An error means out of memory.
pub fn merge_moved(
    list: &mut Vec<u32>,
    rows: &[u32],
    moved: &Moved,
    added: &[u32],
) -> Result<(), AllocError>
    requires moved { KeepsOrder moved.now }
    requires rows { IsStrictlyIncreasing rows.now }
    requires added { IsStrictlyIncreasing added.now }
    ensures grows { vec_len list.old ≤ vec_len list.new }
    ensures merged { OnOk result ((merged : List ℕ) × (list.new.items ≡ list.old.items ++ merged) × IsJoin Either (new_numbers moved.now rows.now) added.now merged) }
{
    let mut low = 0;
    let mut high = 0;
    'merging: while low < rows.len() && high < added.len() {
        let other = added[high];
        match moved.get(rows[low]) {
            None => low += 1,
            Some(number) => match number.cmp(&other) {
                Ordering::Less => low += add_below(list, &rows[low..], moved, other)?,
                Ordering::Equal => {
                    list.push(number)?;
                    low += 1;
                    high += 1;
                }
                Ordering::Greater => {
                    list.push(other)?;
                    high += 1;
                }
            },
        }
    }
    add_moved(list, &rows[low..], moved)?;
    list.extend_from_slice(&added[high..])?;
    Ok(())
}

// The new numbers of rows, at the end of a list, up to the first that is not below a limit. Gives how many rows stand before it. Room is
// made once for all rows.
fn add_below(
    list: &mut Vec<u32>,
    rows: &[u32],
    moved: &Moved,
    limit: u32,
) -> Result<usize, AllocError>
    ensures grows { vec_len list.old ≤ vec_len list.new }
    ensures within { IfOk result (λ count. count ≤ length rows.now) }
    ensures added { IfOk result (λ count. list.new.items ≡ list.old.items ++ new_numbers moved.now (take count rows.now)) }
    ensures below { IfOk result (λ count. All (λ number. number < limit) (new_numbers moved.now (take count rows.now))) }
    ensures rises { IfOk result (λ count. (number : ℕ) → 0 < length rows.now → new_number moved.now (slice_index rows.now 0) ≡ Some number → number < limit → 0 < count) }
{
    list.reserve(rows.len())?;
    Ok(push_below(list, rows, moved, limit))
}

// The new numbers of rows, at the end of a list. Room is made once for all of them.
fn add_moved(list: &mut Vec<u32>, rows: &[u32], moved: &Moved) -> Result<(), AllocError>
    ensures grows { vec_len list.old ≤ vec_len list.new }
    ensures added { OnOk result (list.new.items ≡ list.old.items ++ new_numbers moved.now rows.now) }
{
    list.reserve(rows.len())?;
    push_moved(list, rows, moved);
    Ok(())
}
