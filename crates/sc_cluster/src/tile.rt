//! Whether ranges tile another one. It takes no memory, whatever the ranges are, and as many steps as the square of
//! their number.

ghost use Rattle.std.specs.Prelude.{◌≡◌, ◌↔◌, ◌⊎◌, ◌≤ℤ◌, ◌+ℤ◌, pos, IsTrue, map};
ghost use Rattle.sc_hash.specs.Bounds.{bounds, contains};
ghost use Rattle.sc_cluster.specs.Tiles.{holders, Tiles, IsTile};

use sc_hash::Range;
use sc_record::{List, SubSlice};

/// What has a range.
pub(crate) trait Ranged {
    ghost use Rattle.std.specs.Prelude.{◌≡◌, ℤ, ◌≤ℤ◌};
    ghost use Rattle.sc_hash.specs.Bounds.{bounds};

    ghost range_bounds: { Self → ℤ × ℤ };

    fn range(&self) -> Range
        ensures { bounds result ≡ range_bounds self.now };

    ghost ordered: { (item : Self) → (range_bounds item).0 ≤ℤ (range_bounds item).1 };
}

impl Ranged for Range {
    ghost use Rattle.sc_hash.specs.Bounds.{bounds};

    ghost range_bounds = { bounds };

    ghost ordered = { λ range. range.ordered };

    fn range(&self) -> Range {
        *self
    }
}

impl Ranged for SubSlice {
    ghost use Rattle.sc_cluster.specs.Plans.{sub_bounds};

    ghost range_bounds = { sub_bounds };

    ghost ordered = { λ sub. sub.ordered };

    fn range(&self) -> Range {
        Range {
            min: self.min,
            max: self.max,
        }
    }
}

// The item's range has the hash.
fn has<T: Ranged>(item: &T, h: i32) -> bool
    ensures { result ≡ contains h (T.range_bounds item.now) }
{
    item.range().contains(h)
}

// How many of the items have the hash.
fn holders<T: Ranged>(items: &[T], h: i32) -> usize
    ensures { result ≡ holders h (map T.range_bounds items.now) }
{
    items.iter().filter(|item| has(*item, h)).count()
}

// The whole range ends with this one, or one item alone has the hash after it.
fn is_followed<T: Ranged>(items: &[T], whole: &Range, range: &Range) -> bool
    requires { range.now.max ≤ℤ whole.now.max }
    ensures { IsTrue result ↔ (range.now.max ≡ whole.now.max) ⊎ (holders (range.now.max +ℤ pos 1) (map T.range_bounds items.now) ≡ 1) }
{
    range.max == whole.max || holders(items, range.max + 1) == 1
}

// The item's range is within the whole one, and where it begins and after it ends there is one range alone.
fn is_tile<T: Ranged>(items: &[T], whole: &Range, item: &T) -> bool
    ensures { IsTrue result ↔ IsTile (map T.range_bounds items.now) whole.now.min whole.now.max (T.range_bounds item.now) }
{
    let range = item.range();
    if range.min < whole.min {
        return false;
    }
    if whole.max < range.max {
        return false;
    }
    holders(items, range.min) == 1 && is_followed(items, whole, &range)
}

/// The ranges of the items tile the whole one.
pub(crate) fn tile<T: Ranged>(items: &[T], whole: &Range) -> bool
    ensures { IsTrue result ↔ Tiles (map T.range_bounds items.now) whole.now.min whole.now.max }
{
    if holders(items, whole.min) != 1 {
        return false;
    }
    for item in items {
        if !is_tile(items, whole, item) {
            return false;
        }
    }
    true
}

/// The ranges, in any order, tile the whole one: each of its hashes is in exactly one of them, and no other hash is in
/// any. This decides what `ClusterMap::plan` requires of the ranges of a split.
pub fn tiles(ranges: &List<Range>, whole: &Range) -> bool
    ensures { IsTrue result ↔ Tiles (map bounds ranges.now) whole.now.min whole.now.max }
{
    tile(ranges.as_slice(), whole)
}
