//! A range cut into parts.

ghost use Rattle.std.specs.Prelude.{◌≡◌, ◌≤◌, ◌<◌, ◌-◌, ◌^◌, ◌↔◌, ◌≤ℤ◌, ◌<ℤ◌, pos, negsuc, IfOk, map};
ghost use Rattle.sc_hash.specs.Range.{IsWithin, size_of};
ghost use Rattle.sc_hash.specs.Bounds.{bounds};
ghost use Rattle.sc_cluster.specs.Limits.{most_slices};
ghost use Rattle.sc_cluster.specs.Tiles.{Tiles};
ghost use Rattle.sc_cluster.specs.Cut.{rounded_down, share_start, border, part, cut};

use sc_hash::Range;
use sc_record::List;
use std::alloc::{AllocError, Global};
use thiserror::Error;

// How many hashes a range has for each part, at the least, where the parts begin at a multiple of `ROUNDED`:
// 2^20.
const LARGE_PART: u64 = 1_048_576;

// What the borders of large parts are a multiple of: 2^16.
const ROUNDED: i64 = 65_536;

/// Why a range was not cut.
#[derive(Clone, Copy, Debug, PartialEq, Eq, Error)]
pub enum CutFault {
    #[error("the range has fewer hashes than it is to have parts")]
    TooSmall,
    #[error("out of memory")]
    Memory,
}

// A number rounded down to a multiple of `ROUNDED`.
fn rounded_down(n: i64) -> i64
    requires { negsuc (2 ^ 31 - 1) ≤ℤ n }
    ensures { result ≡ rounded_down n }
{
    n - n.rem_euclid(ROUNDED)
}

// Where share i of n begins.
fn share_start(range: Range, n: u32, i: u32) -> i64
    requires least { 1 ≤ n }
    requires share { i ≤ n }
    ensures { result ≡ share_start range.min range.max n i }
{
    i64::from(range.min) + (u64::from(i) * range.size() / u64::from(n)) as i64
}

// Where part i of n begins; after the last, where the range has ended. That may be one above an i32.
fn border(range: Range, n: u32, i: u32) -> i64
    requires least { 1 ≤ n }
    requires part { i ≤ n }
    requires size { pos n ≤ℤ size_of range.min range.max }
    ensures value { result ≡ border range.min range.max n i }
    ensures bounded { IsWithin (negsuc (2 ^ 31 - 1)) (pos (2 ^ 31)) result }
{
    if i == 0 {
        return i64::from(range.min);
    }
    if i == n {
        return i64::from(range.max) + 1;
    }
    let start = share_start(range, n, i);
    if u64::from(n) * LARGE_PART <= range.size() {
        rounded_down(start)
    } else {
        start
    }
}

/// Part i of n, from 0.
pub(crate) fn part(range: &Range, n: u32, i: u32) -> Range
    requires part { i < n }
    requires most { n ≤ most_slices }
    requires size { pos n ≤ℤ size_of range.now.min range.now.max }
    ensures { bounds result ≡ part range.now.min range.now.max n i }
{
    let start = border(*range, n, i);
    let end = border(*range, n, i + 1);
    Range {
        min: start as i32,
        max: (end - 1) as i32,
    }
}

// The parts of the range.
fn parts_of(alloc: Global, range: &Range, n: u32) -> Result<List<Range>, AllocError>
    requires least { 1 ≤ n }
    requires most { n ≤ most_slices }
    requires size { pos n ≤ℤ size_of range.now.min range.now.max }
    ensures { IfOk result (λ parts. map bounds parts ≡ cut range.now.min range.now.max n) }
{
    let mut parts = Vec::with_capacity(alloc, n as usize)?;
    for i in 0..n {
        parts.push(part(range, n, i))?;
    }
    Ok(List::from_vec(parts))
}

/// The range in n parts, one beside the other, the least first. Where it has fewer than 2^20 hashes for each,
/// their sizes differ by one hash at most; else each but the first begins at a multiple of 2^16, so that ids
/// that share the first 16 bits of their hash stay together.
pub fn cut(alloc: Global, range: &Range, n: u32) -> Result<List<Range>, CutFault>
    requires least { 1 ≤ n }
    requires most { n ≤ most_slices }
    ensures value { IfOk result (λ parts. map bounds parts ≡ cut range.now.min range.now.max n) }
    ensures tiles { IfOk result (λ parts. Tiles (map bounds parts) range.now.min range.now.max) }
    ensures too_small { (result ≡ Err CutFault.TooSmall) ↔ (size_of range.now.min range.now.max <ℤ pos n) }
{
    if range.size() < u64::from(n) {
        return Err(CutFault::TooSmall);
    }
    match parts_of(alloc, range, n) {
        Ok(parts) => Ok(parts),
        Err(_) => Err(CutFault::Memory),
    }
}
