ghost use Rattle.std.specs.Prelude.{◌≡◌, ◌+◌, ◌-◌, ◌<◌, ◌≤◌, ◌^◌, ◌↔◌, IsTrue, [], ◌∷◌, ◌++◌, length, map, Some, IfOk, IfSome, OnOk, vec_len, vec_capacity};
ghost use Rattle.std.specs.List.{range_with_len};
ghost use Rattle.sc_rows.specs.Moving.{new_number, numbers_meant};

use std::alloc::{AllocError, Global};
use std::marker::Model;
use std::mem;

// What stands for None.
const GONE: u32 = u32::MAX;

/// The new number of each old row, and None where it is gone, in four bytes a row.
#[derive(Drop)]
pub struct Moved {
    numbers: Vec<u32>,
}

impl Model for Moved {
    ghost use Rattle.std.specs.Prelude.{ℕ, List, Option};
    ghost use Rattle.sc_rows.specs.Moving.{numbers_meant};

    ghost Value = { List (Option ℕ) };

    ghost view = { λ a. numbers_meant a.numbers.items };
}

impl Moved {
    /// No row yet, and room for so many. An error means out of memory.
    pub fn with_room(alloc: Global, rows: usize) -> Result<Moved, AllocError>
        ensures { IfOk result (λ moved. moved ≡ []) }
    {
        Ok(Moved {
            numbers: Vec::with_capacity(alloc, rows)?,
        })
    }

    /// Whether there is no row.
    pub fn is_empty(&self) -> bool
        ensures { IsTrue result ↔ (length self.now ≡ 0) }
    {
        self.numbers.is_empty()
    }

    /// The next old row has this new number, or is gone. An error means out of memory.
    pub fn push(&mut self, number: Option<u32>) -> Result<(), AllocError>
        requires { IfSome number (λ number. number < 2 ^ 32 - 1) }
        ensures { OnOk result (self.new ≡ self.old ++ number ∷ []) }
    {
        self.numbers.push(number.unwrap_or(GONE))?;
        Ok(())
    }

    /// The next old rows, so many, have new numbers that follow one another, from this one on. Room is made once for all of them. An error
    /// means out of memory.
    pub fn push_run(&mut self, first: u32, count: usize) -> Result<(), AllocError>
        requires { first + count < 2 ^ 32 }
        ensures { OnOk result (self.new ≡ self.old ++ map (λ number. Some number) (range_with_len first count)) }
    {
        put_run(&mut self.numbers, first, count)?;
        Ok(())
    }

    /// The new number of an old row, None where it has none.
    #[inline(always)]
    pub fn get(&self, row: u32) -> Option<u32>
        ensures { result ≡ new_number self.now row }
    {
        number_at(self.numbers(), row)
    }

    /// What stands for the new numbers, by which `number_at` finds them. A loop takes it once, so that where it lies is read once.
    #[inline(always)]
    pub(crate) fn numbers(&self) -> &[u32]
        ensures { numbers_meant result.now ≡ self.now }
    {
        self.numbers.as_slice()
    }
}

/// The new number of an old row among those that these stand for, None where it has none.
#[inline(always)]
pub(crate) fn number_at(numbers: &[u32], row: u32) -> Option<u32>
    ensures { result ≡ new_number (numbers_meant numbers.now) row }
{
    let number = numbers.get(row as usize).copied().unwrap_or(GONE);
    if number == GONE { None } else { Some(number) }
}

/// Puts numbers that follow one another, from this one on, so many, at the end of a list. Room is made once for all of them. An error means
/// out of memory.
pub fn put_run(list: &mut Vec<u32>, first: u32, count: usize) -> Result<(), AllocError>
    requires { first + count < 2 ^ 32 }
    ensures { OnOk result (list.new.items ≡ list.old.items ++ range_with_len first count) }
{
    list.reserve(count)?;
    let empty = Vec::new(*list.allocator());
    let numbers = mem::replace(list, empty);
    *list = with_run(numbers, first, count);
    Ok(())
}

// The list with a run of numbers at its end, for which it has room. The list is the function's own, so that the loop keeps its length in
// a register.
#[inline(always)]
fn with_run(numbers: Vec<u32>, first: u32, count: usize) -> Vec<u32>
    requires room { vec_len numbers + count ≤ vec_capacity numbers }
    requires fits { first + count < 2 ^ 32 }
    ensures { result.items ≡ numbers.items ++ range_with_len first count }
{
    let mut numbers = numbers;
    for at in 0..count {
        numbers.push_reserved(first + at as u32);
    }
    numbers
}
