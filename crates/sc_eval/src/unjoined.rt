//! The outermost join of a query is put off until it is known what is asked of it: all that it keeps, or how much that is and the first of it.
//! So one who searches in many snapshots can look up the terms in all of them before these lists are joined.

ghost use Rattle.std.specs.Prelude.{◌↔◌, List, ℕ, IfOk, IfSome};
ghost use Rattle.std.specs.List.Sorted.{IsStrictlyIncreasing};
ghost use Rattle.sc_rows.specs.Joining.{BothEndBefore};
ghost use Rattle.sc_eval.specs.Numbers.{numbers_of, IsBeginning};
ghost use Rattle.sc_eval.specs.Unjoined.{CanBeJoined, IsEnd, IsJoined};

use crate::numbers::{Matches, Numbers};
use sc_rows::{Kept, ends_of, join, join_start};
use std::alloc::{AllocError, Global};

/// Numbers of rows, in one list, or in two that are not joined yet. Of these an end may be noted, which is above the numbers of both.
#[derive(Drop)]
pub enum Unjoined<'a> {
    One(Numbers<'a>),
    Two {
        how: Kept,
        left: Numbers<'a>,
        right: Numbers<'a>,
        end: Option<u32>,
    },
}

impl<'a> Unjoined<'a> {
    /// All of the numbers. One list is given as it is.
    pub(crate) fn joined(self, alloc: Global) -> Result<Numbers<'a>, AllocError>
        requires { CanBeJoined self }
        ensures { IfOk result (λ numbers. IsJoined self.entry (numbers_of numbers)) }
    {
        match self {
            Unjoined::One(numbers) => Ok(numbers),
            Unjoined::Two {
                how,
                left,
                right,
                ..
            } => {
                let both = join(alloc, how, left.as_slice(), right.as_slice())?;
                Ok(Numbers::Made(both))
            }
        }
    }

    /// Notes the end of two lists, for which it reads one number in each line of memory of both. Of several that are noted one after another
    /// the processor waits for all lines at once, and `start` then reads none of them for the first time.
    pub fn note_end(&mut self)
        requires { CanBeJoined self.old }
        ensures ready { CanBeJoined self.new }
        ensures same { (numbers : List ℕ) → IsJoined self.new numbers ↔ IsJoined self.old numbers }
    {
        let read = self.both_ends();
        if let Unjoined::Two { end, .. } = self {
            *end = read;
        }
    }

    // The end of two lists, of which one number in each line of memory is read.
    fn both_ends(&self) -> Option<u32>
        requires { CanBeJoined self.now }
        ensures { IsEnd self.now result }
    {
        match self {
            Unjoined::One(_) => None,
            Unjoined::Two { left, right, .. } => ends_of(left.as_slice(), right.as_slice()),
        }
    }

    /// How many numbers there are, and the first of them, `most` or all. Two lists are counted as they are joined. The only error is that
    /// memory was refused.
    pub fn start(self, alloc: Global, most: usize) -> Result<Matches<'a>, AllocError>
        requires { CanBeJoined self }
        ensures { IfOk result (λ found. (numbers : List ℕ) × IsJoined self.entry numbers × IsBeginning most numbers found) }
    {
        match self {
            Unjoined::One(numbers) => Ok(numbers.start(most)),
            Unjoined::Two {
                how,
                left,
                right,
                end,
            } => {
                let end = noted_or_read(end, left.as_slice(), right.as_slice());
                let start = join_start(alloc, how, left.as_slice(), right.as_slice(), end, most)?;
                Ok(Matches {
                    count: start.count,
                    first: Numbers::Made(start.rows),
                })
            }
        }
    }
}

// The end of two lists: the one that was noted, or it is read.
fn noted_or_read(noted: Option<u32>, left: &[u32], right: &[u32]) -> Option<u32>
    requires noted { IfSome noted (BothEndBefore left.now right.now) }
    requires left { IsStrictlyIncreasing left.now }
    requires right { IsStrictlyIncreasing right.now }
    ensures { IfSome result (BothEndBefore left.now right.now) }
{
    match noted {
        Some(_) => noted,
        None => ends_of(left, right),
    }
}
