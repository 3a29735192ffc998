ghost use Rattle.std.specs.Prelude.{◌≡◌, ℕ, ◌≤◌, ◌<◌, ◌-◌, ◌++◌, not, cond, List, length, slice_index, IfOk, IfSome, OnOk};
ghost use Rattle.std.specs.List.Sorted.{IsStrictlyIncreasing};
ghost use Rattle.sc_rows.specs.Joining.{has_row, BothEndBefore, EndBefore};
ghost use Rattle.sc_rows.specs.Sifting.{CanBeSifted, IsSieve, sifted};

use crate::live_bits::LiveBits;
use std::alloc::{AllocError, Global};

/// How many rows of a list stand in one line of memory, which the processor reads at once.
const ROWS_OF_A_LINE: usize = 16;

/// A sieve may have so many rows for each row of the lists that are joined by it. Where it would have more, to write it takes longer than
/// to pass both lists.
const ROWS_OF_A_SIEVE: usize = 512;

/// Which rows a list has: of the rows below an end, which is above all rows of the list, those are marked that it has not.
#[derive(Drop)]
pub(crate) struct Sieve {
    absent: LiveBits,
}

impl Sieve {
    /// The sieve of the right one of two lists that are joined, whose rows are all below the end; None where no end is given, or where it
    /// is far above the number of rows that they have. The only error is that memory was refused.
    pub(crate) fn of(
        alloc: Global,
        left: &[u32],
        right: &[u32],
        end: Option<u32>,
    ) -> Result<Option<Sieve>, AllocError>
        requires { IfSome end (BothEndBefore left.now right.now) }
        ensures { IfOk result (λ found. IfSome found (λ sieve. IsSieve right.now sieve × CanBeSifted sieve left.now)) }
    {
        let Some(end) = end else {
            return Ok(None);
        };
        if left.len().saturating_add(right.len()) < end as usize / ROWS_OF_A_SIEVE {
            return Ok(None);
        }
        let sieve = Sieve::below(alloc, right, end)?;
        Ok(Some(sieve))
    }

    // The sieve of a list of rows that are all below the end.
    fn below(alloc: Global, rows: &[u32], end: u32) -> Result<Sieve, AllocError>
        requires { EndBefore rows.now end }
        ensures sieve { IfOk result (IsSieve rows.now) }
        ensures as_long { IfOk result (λ sieve. length sieve.absent ≡ end) }
    {
        let mut absent = LiveBits::new(alloc, end)?;
        for row in rows {
            absent.clear(*row);
        }
        Ok(Sieve { absent })
    }

    /// Whether the list has the row.
    #[inline(always)]
    fn has(&self, row: u32) -> bool
        requires sieve { (rows : List ℕ) × IsSieve rows self.now }
        requires below { row < length self.now.absent }
        ensures { (rows : List ℕ) → IsSieve rows self.now → result ≡ has_row rows row }
    {
        !self.absent.is_live(row)
    }

    /// Whether the list has the row, or has it not.
    #[inline(always)]
    pub(crate) fn passes(&self, row: u32, wanted: bool) -> bool
        requires sieve { (rows : List ℕ) × IsSieve rows self.now }
        requires below { row < length self.now.absent }
        ensures { (rows : List ℕ) → IsSieve rows self.now → result ≡ cond wanted (has_row rows row) (not (has_row rows row)) }
    {
        self.has(row) == wanted
    }

    /// Of these rows those that the list has, or those that it has not. There is room for them.
    pub(crate) fn sift(
        &self,
        rows: &[u32],
        wanted: bool,
        kept: &mut Vec<u32>,
    ) -> Result<(), AllocError>
        requires sieve { (others : List ℕ) × IsSieve others self.now }
        requires below { CanBeSifted self.now rows.now }
        ensures { OnOk result ((others : List ℕ) → IsSieve others self.now → kept.new.items ≡ kept.old.items ++ sifted others wanted rows.now) }
    {
        for row in rows {
            if self.passes(*row, wanted) {
                kept.push(*row)?;
            }
        }
        Ok(())
    }

    /// How many of these rows the list has, or has not.
    pub(crate) fn count(&self, rows: &[u32], wanted: bool) -> usize
        requires sieve { (others : List ℕ) × IsSieve others self.now }
        requires below { CanBeSifted self.now rows.now }
        ensures counted { (others : List ℕ) → IsSieve others self.now → result ≡ length (sifted others wanted rows.now) }
        ensures within { result ≤ length rows.now }
    {
        let mut count = 0;
        for row in rows {
            count += usize::from(self.passes(*row, wanted));
        }
        count
    }
}

/// A number that is above the rows of two lists that ascend; None where one of them is empty, or where it is no number of 32 bits. Of each
/// line of memory in which rows stand one is read: where several pairs of lists are to be joined, to have the ends of all of them first lets
/// the processor wait for all these lines at once.
pub fn ends_of(left: &[u32], right: &[u32]) -> Option<u32>
    requires left { IsStrictlyIncreasing left.now }
    requires right { IsStrictlyIncreasing right.now }
    ensures { IfSome result (BothEndBefore left.now right.now) }
{
    let left = end_of(left)?;
    let right = end_of(right)?;
    Some(left.max(right))
}

// A number that is above these rows that ascend, of which a row in each line of memory is read; None where there are none, or where it is
// no number of 32 bits.
fn end_of(rows: &[u32]) -> Option<u32>
    requires { IsStrictlyIncreasing rows.now }
    ensures { IfSome result (EndBefore rows.now) }
{
    if rows.is_empty() {
        return None;
    }
    greatest_of(rows).checked_add(1)
}

// The greatest of the last row and of those that stand first in a line of memory. Of rows that ascend it is the last one: the others are
// read for the sake of time alone.
fn greatest_of(rows: &[u32]) -> u32
    requires { 0 < length rows.now }
    ensures { slice_index rows.now (length rows.now - 1) ≤ result }
{
    let mut greatest = rows[rows.len() - 1];
    let mut at = 0;
    'reading: while at < rows.len() {
        greatest = greatest.max(rows[at]);
        at = at.saturating_add(ROWS_OF_A_LINE);
    }
    greatest
}
