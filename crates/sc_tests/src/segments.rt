//! `sc_segment`, `sc_keys` and `sc_rows`: the rows of each key, in how many steps they are found, and which rows are live.

ghost use Rattle.std.specs.Prelude.{◌≡◌, ◌<◌};
ghost use Rattle.std.specs.Ordering.{nat_cmp};
ghost use Rattle.sc_keys.specs.Fresh.{IsFresh};
ghost use Rattle.std.proofs.lemmas.Cmp.{on_total, nat_cmp_total};
ghost use native.Mathlib.Omega.{arith};

use crate::support::assert_same;
use sc_keys::{Head, Key, Steps};
use sc_rows::LiveBits;
use sc_segment::{Builder, Segment};
use std::alloc::{AllocError, Global};
use std::cell::Cell;
use std::cmp::Ordering;
use std::marker::Brand;
use std::process::Abort;
use std::sync::ledger::{Blank, Ledger};
use std::test::Fail;

// A number as a key, which besides counts by itself how often it is compared: its head tells nothing, so that no head takes a comparison's place.
#[derive(Drop)]
#[derive_where(PartialEq, Eq, PartialOrd, Ord, Hash)]
struct CountedKey<'a> {
    number: u32,
    #[derive_where(skip(EqHashOrd))]
    compared: &'a Cell<u32>,
}

impl Key for CountedKey<'_> {
    ghost order = { λ a b. nat_cmp a.number b.number };

    ghost heading = { λ a. 0 };

    fn compare<L: Ledger>(&self, other: &Self, steps: &mut Steps<L>) -> Ordering {
        self.compared.set(self.compared.get().saturating_add(1));
        steps.tick();
        self.number.cmp(&other.number)
    }

    fn head(&self) -> Head {
        Head::new(0)
    }

    fn share(&self) -> Result<Self, AllocError> {
        Ok(CountedKey {
            number: self.number,
            compared: self.compared,
        })
    }

    ghost total = { on_total (λ a. a.number) nat_cmp_total };

    ghost goes_with = { λ x y fits less. absurd (omega (arith, less)) };
}

// A segment of these rows, which ascend, and their keys.
fn filled<'a>(
    rt: &impl Abort,
    alloc: Global,
    pairs: &[(u32, u32)],
    compared: &'a Cell<u32>,
) -> Result<Segment<CountedKey<'a>>, AllocError> {
    let mut builder = Builder::new(alloc);
    if let Err(refused) = fill(rt, &mut builder, pairs, compared) {
        drop(builder);
        return Err(refused);
    }
    builder.finish()
}

// Files these rows, which ascend, under their keys.
fn fill<'a>(
    rt: &impl Abort,
    builder: &mut Builder<CountedKey<'a>>,
    pairs: &[(u32, u32)],
    compared: &'a Cell<u32>,
) -> Result<(), AllocError>
    requires { builder.old.last_row ≡ 0 }
{
    let mut last = 0;
    for (row, number) in pairs {
        assert!(rt; last <= *row);
        let key = CountedKey {
            number: *number,
            compared,
        };
        builder.add(*row, key)?;
        last = *row;
    }
    Ok(())
}

// The rows, and that the key was compared as often as the segment's number of keys allows.
fn assert_rows<'a, L: Ledger>(
    rt: &impl Abort,
    segment: &Segment<CountedKey<'a>>,
    key: &CountedKey<'a>,
    rows: &[u32],
    limit: u32,
    steps: &mut Steps<L>,
) {
    key.compared.set(0);
    assert_same(rt, segment.postings(key, steps), rows);
    assert!(rt; key.compared.get() <= limit);
}

// 2,000 rows that are filed twice each, by the even numbers below 2,000 in no order: 7 * 143 is 1 more than 1,000.
fn pairs_of_many(alloc: Global) -> Result<Vec<(u32, u32)>, AllocError> {
    let mut pairs = Vec::new(alloc);
    for row in 0..2000 {
        let pair = (row, row * 7 % 1000 * 2);
        pairs.push(pair)?;
        pairs.push(pair)?;
    }
    Ok(pairs)
}

// The even number, which two rows have, and the odd one after it, which no row has.
fn assert_even_and_odd<'a, L: Ledger>(
    rt: &impl Abort,
    segment: &Segment<CountedKey<'a>>,
    compared: &'a Cell<u32>,
    half: u32,
    steps: &mut Steps<L>,
) -> Result<(), AllocError>
    requires { half < 1000 }
{
    let even = CountedKey {
        number: 2 * half,
        compared,
    };
    let shared = even.share()?;
    assert!(rt; shared == even);
    let row = half * 143 % 1000;
    assert_rows(rt, segment, &shared, &[row, row + 1000], 10, steps);
    let odd = CountedKey {
        number: 2 * half + 1,
        compared,
    };
    assert_rows(rt, segment, &odd, &[], 10, steps);
    Ok(())
}

// Each of many keys is found, and none that there is not.
fn finds_among_many<L: Ledger>(rt: &impl Abort, alloc: Global, blank: Blank) -> Result<(), Fail>
    requires { IsFresh blank L.name L.parts }
{
    let mut steps = Steps::<L>::new(blank);
    let compared = Cell::new(0);
    let segment = of_many(rt, alloc, &compared)?;
    let found = assert_each(rt, &segment, &compared, &mut steps);
    drop(segment);
    found?;
    assert_empty(rt, alloc, &compared, &mut steps)?;
    Ok(())
}

// The segment of the 2,000 rows.
fn of_many<'a>(
    rt: &impl Abort,
    alloc: Global,
    compared: &'a Cell<u32>,
) -> Result<Segment<CountedKey<'a>>, AllocError> {
    let pairs = pairs_of_many(alloc)?;
    filled(rt, alloc, &pairs, compared)
}

// Each even number, and each odd one.
fn assert_each<'a, L: Ledger>(
    rt: &impl Abort,
    segment: &Segment<CountedKey<'a>>,
    compared: &'a Cell<u32>,
    steps: &mut Steps<L>,
) -> Result<(), AllocError> {
    for half in 0..1000 {
        assert_even_and_odd(rt, segment, compared, half, steps)?;
    }
    Ok(())
}

// A segment of no rows has none of a key, with which nothing is compared.
fn assert_empty<'a, L: Ledger>(
    rt: &impl Abort,
    alloc: Global,
    compared: &'a Cell<u32>,
    steps: &mut Steps<L>,
) -> Result<(), AllocError> {
    let empty = filled(rt, alloc, &[], compared)?;
    let key = CountedKey {
        number: 10,
        compared,
    };
    assert_rows(rt, &empty, &key, &[], 0, steps);
    drop(empty);
    Ok(())
}

#[test]
fn compares_at_most_ten_of_a_thousand_keys(rt: HostRuntime) -> Result<(), Fail> {
    finds_among_many::<Brand>(&rt, rt.alloc(), Blank::new(1))
}

// The row is one of the four that are cleared.
fn is_cleared(row: u32) -> bool {
    matches!(row, 0 | 63 | 64 | 129)
}

#[test]
fn clears_one_row(rt: HostRuntime) -> Result<(), Fail> {
    let mut live = LiveBits::new(rt.alloc(), 130)?;
    live.clear(0);
    live.clear(63);
    live.clear(64);
    live.clear(129);
    live.clear(129);
    for row in 0..130 {
        assert_same(&rt, live.is_live(row), !is_cleared(row));
    }
    LiveBits::new(rt.alloc(), 0)?;
    Ok(())
}
