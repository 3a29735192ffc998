ghost use Rattle.std.specs.Prelude.{◌≡◌, true, false, cond, [], ◌∷◌, ◌++◌, IfOk, OnOk};
ghost use Rattle.std.specs.Option.{MatchOption};
ghost use Rattle.std.specs.List.Sorted.{IsStrictlyIncreasing};
ghost use Rattle.sc_rows.specs.declared.joining.Kept.TheVariants.{Either};
ghost use Rattle.sc_rows.specs.Joining.{IsJoin, keeps};
ghost use Rattle.sc_rows.specs.Sifting.{KeepsOfLeft};

use crate::sifting::{Sieve, ends_of};
use std::alloc::{AllocError, Global};

/// Which rows of two lists are kept.
#[derive(Clone, Copy, Debug, PartialEq, Eq)]
pub enum Kept {
    /// Those in both lists.
    Both,
    /// Those in one of the lists, or in both.
    Either,
    /// Those in the left list that are not in the right one.
    LeftAlone,
}

/// Joins two lists of rows that ascend. Room for all that may be kept is made once. The only error is that memory was refused.
pub fn join(alloc: Global, how: Kept, left: &[u32], right: &[u32]) -> Result<Vec<u32>, AllocError>
    requires left { IsStrictlyIncreasing left.now }
    requires right { IsStrictlyIncreasing right.now }
    ensures { IfOk result (λ rows. IsJoin how left.now right.now rows.items) }
{
    match wanted_of_left(how) {
        Some(wanted) => of_left(alloc, how, wanted, left, right),
        None => merged(alloc, how, left, right),
    }
}

/// Where only rows of the left list are kept, whether those that the right one has, or those that it has not.
pub(crate) fn wanted_of_left(how: Kept) -> Option<bool>
    ensures { MatchOption result (how ≡ Either) (KeepsOfLeft how) }
{
    match how {
        Kept::Both => Some(true),
        Kept::Either => None,
        Kept::LeftAlone => Some(false),
    }
}

// Joins two lists of which no row is kept that the right one has alone: those of the left list that the right one has, or has not.
fn of_left(
    alloc: Global,
    how: Kept,
    wanted: bool,
    left: &[u32],
    right: &[u32],
) -> Result<Vec<u32>, AllocError>
    requires left { IsStrictlyIncreasing left.now }
    requires right { IsStrictlyIncreasing right.now }
    requires wanted { KeepsOfLeft how wanted }
    ensures { IfOk result (λ rows. IsJoin how left.now right.now rows.items) }
{
    let Some(sieve) = Sieve::of(alloc, left, right, ends_of(left, right))? else {
        return merged(alloc, how, left, right);
    };
    let mut rows = Vec::with_capacity(alloc, room_for(how, left.len(), right.len()))?;
    sieve.sift(left, wanted, &mut rows)?;
    Ok(rows)
}

/// Joins two lists in one pass over both.
pub(crate) fn merged(
    alloc: Global,
    how: Kept,
    left: &[u32],
    right: &[u32],
) -> Result<Vec<u32>, AllocError>
    requires left { IsStrictlyIncreasing left.now }
    requires right { IsStrictlyIncreasing right.now }
    ensures { IfOk result (λ rows. IsJoin how left.now right.now rows.items) }
{
    let mut rows = Vec::with_capacity(alloc, room_for(how, left.len(), right.len()))?;
    let mut low = 0;
    let mut high = 0;
    'merging: while low < left.len() && high < right.len() {
        let row = left[low];
        let other = right[high];
        let at_left = row <= other;
        let at_right = other <= row;
        push_kept(&mut rows, is_kept(how, at_left, at_right), row.min(other))?;
        low += usize::from(at_left);
        high += usize::from(at_right);
    }
    extend_kept(&mut rows, is_kept(how, true, false), &left[low..])?;
    extend_kept(&mut rows, is_kept(how, false, true), &right[high..])?;
    Ok(rows)
}

// How many rows of two lists of these lengths may be kept.
fn room_for(how: Kept, left: usize, right: usize) -> usize {
    match how {
        Kept::Both => left.min(right),
        Kept::Either => left.saturating_add(right),
        Kept::LeftAlone => left,
    }
}

/// Puts the row at the end where it is kept.
pub(crate) fn push_kept(rows: &mut Vec<u32>, kept: bool, row: u32) -> Result<(), AllocError>
    ensures { OnOk result (rows.new.items ≡ rows.old.items ++ cond kept (row ∷ []) []) }
{
    if kept {
        rows.push(row)?;
    }
    Ok(())
}

// Puts these rows at the end where they are kept.
fn extend_kept(rows: &mut Vec<u32>, kept: bool, more: &[u32]) -> Result<(), AllocError>
    ensures { OnOk result (rows.new.items ≡ rows.old.items ++ cond kept more.now []) }
{
    if kept {
        rows.extend_from_slice(more)?;
    }
    Ok(())
}

// Whether a row is kept, by whether it is in the left list and in the right one.
#[inline(always)]
fn is_kept(how: Kept, left: bool, right: bool) -> bool
    ensures { result ≡ keeps how left right }
{
    match how {
        Kept::Both => left & right,
        Kept::Either => left | right,
        Kept::LeftAlone => left & !right,
    }
}
