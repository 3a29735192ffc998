//! How many rows are kept of two lists, and the first of them, without the list of them all.

ghost use Rattle.std.specs.Prelude.{◌≡◌, List, ℕ, take, IfOk, IfSome};
ghost use Rattle.std.specs.List.Sorted.{IsStrictlyIncreasing};
ghost use Rattle.sc_rows.specs.declared.joining.Kept.TheVariants.{Either};
ghost use Rattle.sc_rows.specs.Joining.{BothEndBefore, IsJoin, IsStart};
ghost use Rattle.sc_rows.specs.Sifting.{CanBeSifted, IsSieve, sifted};

use crate::joining::{Kept, merged, push_kept, wanted_of_left};
use crate::sifting::Sieve;
use std::alloc::{AllocError, Global};

/// How many rows a list has, and the first of them.
#[derive(Drop)]
pub struct Start {
    pub count: usize,
    pub rows: Vec<u32>,
}

/// The start of the list that `join` makes of two lists of rows that ascend: how many rows it has, and the first of them, `most` or all.
/// The list itself is made only where no end of both is given (`ends_of`), or where both are short beside it. The only error is that memory
/// was refused.
pub fn join_start(
    alloc: Global,
    how: Kept,
    left: &[u32],
    right: &[u32],
    end: Option<u32>,
    most: usize,
) -> Result<Start, AllocError>
    requires left { IsStrictlyIncreasing left.now }
    requires right { IsStrictlyIncreasing right.now }
    requires end { IfSome end (BothEndBefore left.now right.now) }
    ensures { IfOk result (λ start. (rows : List ℕ) × IsJoin how left.now right.now rows × IsStart most rows start) }
{
    let Some(sieve) = Sieve::of(alloc, left, right, end)? else {
        return start_of_merged(alloc, how, left, right, most);
    };
    match wanted_of_left(how) {
        Some(wanted) => start_of_sifted(alloc, &sieve, left, wanted, most),
        None => start_of_either(alloc, &sieve, left, right, most),
    }
}

// The start of the join, out of the whole of it.
fn start_of_merged(
    alloc: Global,
    how: Kept,
    left: &[u32],
    right: &[u32],
    most: usize,
) -> Result<Start, AllocError>
    requires left { IsStrictlyIncreasing left.now }
    requires right { IsStrictlyIncreasing right.now }
    ensures { IfOk result (λ start. (rows : List ℕ) × IsJoin how left.now right.now rows × IsStart most rows start) }
{
    let mut rows = merged(alloc, how, left, right)?;
    let count = rows.len();
    rows.truncate(most);
    Ok(Start { count, rows })
}

// The start of those rows that a list has, or has not: rows are kept until there are so many, and those after them are only counted.
fn start_of_sifted(
    alloc: Global,
    sieve: &Sieve,
    rows: &[u32],
    wanted: bool,
    most: usize,
) -> Result<Start, AllocError>
    requires sieve { (others : List ℕ) × IsSieve others sieve.now }
    requires below { CanBeSifted sieve.now rows.now }
    ensures { IfOk result (λ start. (others : List ℕ) → IsSieve others sieve.now → IsStart most (sifted others wanted rows.now) start) }
{
    let mut kept = Vec::with_capacity(alloc, most.min(rows.len()))?;
    let mut at = 0;
    'keeping: while at < rows.len() && kept.len() < most {
        let row = rows[at];
        push_kept(&mut kept, sieve.passes(row, wanted), row)?;
        at += 1;
    }
    let count = kept.len() + sieve.count(&rows[at..], wanted);
    Ok(Start { count, rows: kept })
}

// The start of the rows in one of two lists or in both: it counts the right list and what the left one has beside it, and the first rows
// are among the first ones of both.
fn start_of_either(
    alloc: Global,
    sieve: &Sieve,
    left: &[u32],
    right: &[u32],
    most: usize,
) -> Result<Start, AllocError>
    requires left { IsStrictlyIncreasing left.now }
    requires right { IsStrictlyIncreasing right.now }
    requires sieve { IsSieve right.now sieve.now }
    requires below { CanBeSifted sieve.now left.now }
    ensures { IfOk result (λ start. (rows : List ℕ) × IsJoin Either left.now right.now rows × IsStart most rows start) }
{
    let count = right.len() + sieve.count(left, false);
    let first_left = first_of(left, most);
    let first_right = first_of(right, most);
    let mut rows = merged(alloc, Kept::Either, first_left, first_right)?;
    rows.truncate(most);
    Ok(Start { count, rows })
}

// The first of these rows that ascend, `most` or all.
fn first_of(rows: &[u32], most: usize) -> &[u32]
    requires { IsStrictlyIncreasing rows.now }
    ensures first { result.now ≡ take most rows.now }
    ensures ascending { IsStrictlyIncreasing result.now }
{
    &rows[..most.min(rows.len())]
}
