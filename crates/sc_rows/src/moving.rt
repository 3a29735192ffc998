ghost use Rattle.std.specs.Prelude.{◌≡◌, ℕ, ◌+◌, ◌<◌, ◌≤◌, ◌++◌, length, take, slice_range, slice_index, All, Some, vec_len, vec_capacity};
ghost use Rattle.sc_rows.specs.Moving.{new_number, new_numbers, AllStay, AreKept, IsOwnRun};

use crate::moved::{Moved, number_at};
use crate::runs::{Runs, last_staying};
use std::mem;

/// Puts the new numbers of rows at the end of a list, which has room for all rows.
pub(crate) fn push_moved(list: &mut Vec<u32>, rows: &[u32], moved: &Moved)
    requires { vec_len list.old + length rows.now ≤ vec_capacity list.old }
    ensures items { list.new.items ≡ list.old.items ++ new_numbers moved.now rows.now }
    ensures capacity { vec_capacity list.new ≡ vec_capacity list.old }
    ensures len { vec_len list.new ≤ vec_len list.old + length rows.now }
{
    let empty = Vec::new(*list.allocator());
    *list = with_moved(mem::replace(list, empty), rows, moved);
}

// The list after `push_moved`. The list is the function's own, so that the loop keeps its length in a register: behind a reference it would
// be read and written for each row.
#[inline(always)]
fn with_moved(list: Vec<u32>, rows: &[u32], moved: &Moved) -> Vec<u32>
    requires { vec_len list + length rows.now ≤ vec_capacity list }
    ensures items { result.items ≡ list.items ++ new_numbers moved.now rows.now }
    ensures capacity { vec_capacity result ≡ vec_capacity list }
    ensures len { vec_len result ≤ vec_len list + length rows.now }
{
    let numbers = moved.numbers();
    let mut list = list;
    for row in rows {
        if let Some(number) = number_at(numbers, *row) {
            list.push_reserved(number);
        }
    }
    list
}

/// Puts the new numbers of rows at the end of a list, which has room for all rows, up to the first row that has none. Gives how many
/// rows stand before it.
#[inline(always)]
pub(crate) fn push_kept(list: &mut Vec<u32>, rows: &[u32], moved: &Moved) -> usize
    requires { vec_len list.old + length rows.now ≤ vec_capacity list.old }
    ensures within { result ≤ length rows.now }
    ensures items { list.new.items ≡ list.old.items ++ new_numbers moved.now (take result rows.now) }
    ensures kept { AreKept moved.now (take result rows.now) }
    ensures capacity { vec_capacity list.new ≡ vec_capacity list.old }
    ensures len { vec_len list.new ≡ vec_len list.old + result }
{
    let empty = Vec::new(*list.allocator());
    let (longer, count) = with_kept(mem::replace(list, empty), rows, moved);
    *list = longer;
    count
}

// The list after `push_kept`, as its own too, and how many rows have a number.
#[inline(always)]
fn with_kept(list: Vec<u32>, rows: &[u32], moved: &Moved) -> (Vec<u32>, usize)
    requires { vec_len list + length rows.now ≤ vec_capacity list }
    ensures within { result.1 ≤ length rows.now }
    ensures items { result.0.items ≡ list.items ++ new_numbers moved.now (take result.1 rows.now) }
    ensures kept { AreKept moved.now (take result.1 rows.now) }
    ensures capacity { vec_capacity result.0 ≡ vec_capacity list }
    ensures len { vec_len result.0 ≡ vec_len list + result.1 }
{
    let numbers = moved.numbers();
    let mut list = list;
    for at in 0..rows.len() {
        match number_at(numbers, rows[at]) {
            Some(number) => list.push_reserved(number),
            None => return (list, at),
        }
    }
    (list, rows.len())
}

/// Puts the new numbers of rows at the end of a list, which has room for all rows, up to the first that is not below a limit. Gives how
/// many rows stand before it.
pub(crate) fn push_below(list: &mut Vec<u32>, rows: &[u32], moved: &Moved, limit: u32) -> usize
    requires { vec_len list.old + length rows.now ≤ vec_capacity list.old }
    ensures within { result ≤ length rows.now }
    ensures items { list.new.items ≡ list.old.items ++ new_numbers moved.now (take result rows.now) }
    ensures below { All (λ number. number < limit) (new_numbers moved.now (take result rows.now)) }
    ensures rises { (number : ℕ) → 0 < length rows.now → new_number moved.now (slice_index rows.now 0) ≡ Some number → number < limit → 0 < result }
{
    let empty = Vec::new(*list.allocator());
    let (longer, count) = with_below(mem::replace(list, empty), rows, moved, limit);
    *list = longer;
    count
}

// The list after `push_below`, as its own too, and how many rows were passed.
#[inline(always)]
fn with_below(list: Vec<u32>, rows: &[u32], moved: &Moved, limit: u32) -> (Vec<u32>, usize)
    requires { vec_len list + length rows.now ≤ vec_capacity list }
    ensures within { result.1 ≤ length rows.now }
    ensures items { result.0.items ≡ list.items ++ new_numbers moved.now (take result.1 rows.now) }
    ensures below { All (λ number. number < limit) (new_numbers moved.now (take result.1 rows.now)) }
    ensures rises { (number : ℕ) → 0 < length rows.now → new_number moved.now (slice_index rows.now 0) ≡ Some number → number < limit → 0 < result.1 }
{
    let numbers = moved.numbers();
    let mut list = list;
    for at in 0..rows.len() {
        if let Some(number) = number_at(numbers, rows[at]) {
            if limit <= number {
                return (list, at);
            }
            list.push_reserved(number);
        }
    }
    (list, rows.len())
}

/// Puts the new numbers of rows from one place on at the end of a list, at least up to another place, where those of the key `at` end.
/// Gives the place up to which rows were passed, and does nothing where the first place is no lower than the other one. Where the key is
/// told to stay, the rows of the keys from it on that stay are copied at once; where nothing is known of it, rows are passed up to the
/// first one that has no number.
#[inline(always)]
pub fn push_ahead(
    list: &mut Vec<u32>,
    rows: &[u32],
    moved: &Moved,
    runs: &Runs<'_>,
    at: usize,
    from: usize,
    to: usize,
) -> usize
    requires from { from ≤ length rows.now }
    requires to { to ≤ length rows.now }
    requires at { at < runs.now.before }
    requires before { runs.now.before ≤ length runs.now.ends.now }
    requires room { vec_len list.old + length rows.now ≤ vec_capacity list.old + from }
    requires runs { (key : ℕ) → at ≤ key → key < runs.now.before → AllStay runs.now.stays.now at (key + 1)
        → IsOwnRun moved.now rows.now from to (slice_index runs.now.ends.now key) }
    ensures rises { from ≤ result }
    ensures reaches { to ≤ result }
    ensures within { result ≤ length rows.now }
    ensures items { list.new.items ≡ list.old.items ++ new_numbers moved.now (slice_range rows.now from result) }
    ensures kept { (start : ℕ) → start ≤ to → AreKept moved.now (slice_range rows.now start from)
        → AreKept moved.now (slice_range rows.now to result) }
    ensures capacity { vec_capacity list.old ≤ vec_capacity list.new }
    ensures len { vec_len list.new + from ≤ vec_len list.old + result }
{
    if to <= from {
        from
    } else {
        push_more(list, rows, moved, runs, at, from, to)
    }
}

// The same where the first place is lower. It stands apart, so that the loop over keys that have all their rows stays small.
#[inline(never)]
fn push_more(
    list: &mut Vec<u32>,
    rows: &[u32],
    moved: &Moved,
    runs: &Runs<'_>,
    at: usize,
    from: usize,
    to: usize,
) -> usize
    requires rises { from ≤ to }
    requires to { to ≤ length rows.now }
    requires at { at < runs.now.before }
    requires before { runs.now.before ≤ length runs.now.ends.now }
    requires room { vec_len list.old + length rows.now ≤ vec_capacity list.old + from }
    requires runs { (key : ℕ) → at ≤ key → key < runs.now.before → AllStay runs.now.stays.now at (key + 1)
        → IsOwnRun moved.now rows.now from to (slice_index runs.now.ends.now key) }
    ensures reaches { to ≤ result }
    ensures within { result ≤ length rows.now }
    ensures items { list.new.items ≡ list.old.items ++ new_numbers moved.now (slice_range rows.now from result) }
    ensures kept { AreKept moved.now (slice_range rows.now to result) }
    ensures capacity { vec_capacity list.old ≤ vec_capacity list.new }
    ensures len { vec_len list.new + from ≤ vec_len list.old + result }
{
    match runs.stays.get(at).copied() {
        Some(true) => {
            let key = last_staying(runs.stays, at, runs.before);
            let end = runs.ends[key] as usize;
            copy_rows(list, &rows[from..end]);
            end
        }
        Some(false) => {
            push_moved(list, &rows[from..to], moved);
            to
        }
        None => push_past(list, rows, moved, from, to),
    }
}

// Puts rows at the end of a list, which has room for them.
#[inline(always)]
fn copy_rows(list: &mut Vec<u32>, rows: &[u32])
    requires { vec_len list.old + length rows.now ≤ vec_capacity list.old }
    ensures items { list.new.items ≡ list.old.items ++ rows.now }
    ensures capacity { vec_capacity list.old ≤ vec_capacity list.new }
    ensures len { vec_len list.new ≡ vec_len list.old + length rows.now }
{
    let Ok(()) = list.extend_from_slice(rows) else {
        unreachable!()
    };
}

// Puts the new numbers of rows from one place up to a later one at the end of a list, and from there on up to the first row that has none.
// Gives the place of that row.
#[inline(always)]
fn push_past(list: &mut Vec<u32>, rows: &[u32], moved: &Moved, from: usize, to: usize) -> usize
    requires rises { from ≤ to }
    requires to { to ≤ length rows.now }
    requires room { vec_len list.old + length rows.now ≤ vec_capacity list.old + from }
    ensures reaches { to ≤ result }
    ensures within { result ≤ length rows.now }
    ensures items { list.new.items ≡ list.old.items ++ new_numbers moved.now (slice_range rows.now from result) }
    ensures kept { AreKept moved.now (slice_range rows.now to result) }
    ensures capacity { vec_capacity list.new ≡ vec_capacity list.old }
    ensures len { vec_len list.new + from ≤ vec_len list.old + result }
{
    push_moved(list, &rows[from..to], moved);
    to + push_kept(list, &rows[to..], moved)
}
