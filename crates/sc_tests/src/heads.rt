//! `sc_keys` and `sc_segment`: keys are sought by heads of their own, and compared by themselves only where their heads are the same.

ghost use Rattle.std.specs.Prelude.{◌≡◌, ◌/◌};
ghost use Rattle.std.specs.Cmp.{nat_cmp_is};
ghost use Rattle.std.specs.Ordering.{nat_cmp};
ghost use Rattle.std.specs.declared.cmp.Ordering.TheVariants.{Less};
ghost use Rattle.sc_keys.specs.Fresh.{IsFresh};
ghost use Rattle.std.proofs.Common.{sym};
ghost use Rattle.std.proofs.lemmas.Cmp.{on_total, nat_cmp_total};
ghost use native.Mathlib.Omega.{arith};

use crate::support::assert_same;
use sc_keys::{Head, Key, Steps};
use sc_segment::{Builder, Segment};
use std::alloc::{AllocError, Global};
use std::cell::Cell;
use std::cmp::Ordering;
use std::marker::Brand;
use std::process::Abort;
use std::sync::ledger::{Blank, Ledger};
use std::test::Fail;

// How many keys there are: the even numbers from 0 on. Four of them have one head.
const KEYS: u32 = 1_000;

// A number as a key, whose head is an eighth of it, and which besides counts by itself how often it is compared.
#[derive(Drop)]
#[derive_where(PartialEq, Eq, PartialOrd, Ord, Hash)]
struct HeadedKey<'a> {
    number: u32,
    #[derive_where(skip(EqHashOrd))]
    compared: &'a Cell<u32>,
}

impl Key for HeadedKey<'_> {
    ghost order = { λ a b. nat_cmp a.number b.number };

    ghost heading = { λ a. a.number / 8 };

    fn compare<L: Ledger>(&self, other: &Self, steps: &mut Steps<L>) -> Ordering {
        self.compared.set(self.compared.get().saturating_add(1));
        steps.tick();
        self.number.cmp(&other.number)
    }

    fn head(&self) -> Head {
        Head::new(u64::from(self.number / 8))
    }

    fn share(&self) -> Result<Self, AllocError> {
        Ok(HeadedKey {
            number: self.number,
            compared: self.compared,
        })
    }

    ghost total = { on_total (λ a. a.number) nat_cmp_total };

    ghost goes_with = { λ x y fits less. sym (nat_cmp_is x.number y.number Less (omega (arith, less))) };
}

// A segment of so many rows, each with its own key: twice its number.
fn of_even<'a>(
    alloc: Global,
    compared: &'a Cell<u32>,
) -> Result<Segment<HeadedKey<'a>>, AllocError> {
    let mut builder = Builder::new(alloc);
    if let Err(refused) = fill(&mut builder, compared) {
        drop(builder);
        return Err(refused);
    }
    builder.finish()
}

// Files each row under its key.
fn fill<'a>(builder: &mut Builder<HeadedKey<'a>>, compared: &'a Cell<u32>) -> Result<(), AllocError>
    requires { builder.old.last_row ≡ 0 }
{
    for row in 0..KEYS {
        let key = HeadedKey {
            number: 2 * row,
            compared,
        };
        builder.add(row, key)?;
    }
    Ok(())
}

// The rows of the key with this number. At most three of the four keys with its head were compared with it, where a search by halves
// compares ten.
fn assert_rows<'a, L: Ledger>(
    rt: &impl Abort,
    segment: &Segment<HeadedKey<'a>>,
    compared: &'a Cell<u32>,
    number: u32,
    rows: &[u32],
    steps: &mut Steps<L>,
) {
    compared.set(0);
    let key = HeadedKey { number, compared };
    assert_same(rt, segment.postings(&key, steps), rows);
    assert!(rt; compared.get() <= 3);
}

// Each even number is found, and no odd one.
fn finds_each<L: Ledger>(rt: &impl Abort, alloc: Global, blank: Blank) -> Result<(), AllocError>
    requires { IsFresh blank L.name L.parts }
{
    let mut steps = Steps::<L>::new(blank);
    let compared = Cell::new(0);
    let segment = of_even(alloc, &compared)?;
    for row in 0..KEYS {
        assert_rows(rt, &segment, &compared, 2 * row, &[row], &mut steps);
        assert_rows(rt, &segment, &compared, 2 * row + 1, &[], &mut steps);
    }
    drop(segment);
    Ok(())
}

#[test]
fn compares_at_most_three_keys_of_one_head(rt: HostRuntime) -> Result<(), Fail> {
    finds_each::<Brand>(&rt, rt.alloc(), Blank::new(1))?;
    Ok(())
}
