//! A range of signed 32-bit hashes.

ghost use Rattle.std.specs.Prelude.{◌≡◌, ◌≤ℤ◌, ◌↔◌, IsTrue, IsSome, IfSome, pos};
ghost use Rattle.sc_hash.specs.Range.{IsWithin, Meets, size_of};

/// The hashes from `min` to `max`, both included. Hashes are compared as signed numbers.
#[derive(Clone, Copy, Debug, PartialEq, Eq)]
pub struct Range {
    pub min: i32,
    pub max: i32,
    pub ghost ordered: { min ≤ℤ max },
}

impl Range {
    pub fn new(min: i32, max: i32) -> Option<Range>
        ensures ordered { IsSome result ↔ (min ≤ℤ max) }
        ensures bounds { IfSome result (λ range. (range.min ≡ min) × (range.max ≡ max)) }
    {
        if min <= max {
            Some(Range { min, max })
        } else {
            None
        }
    }

    pub fn contains(&self, h: i32) -> bool
        ensures { IsTrue result ↔ IsWithin self.now.min self.now.max h }
    {
        self.min <= h && h <= self.max
    }

    pub fn meets(&self, other: &Range) -> bool
        ensures { IsTrue result ↔ Meets self.now.min self.now.max other.now.min other.now.max }
    {
        self.min <= other.max && other.min <= self.max
    }

    /// How many hashes the range has: from 1 to 2^32.
    pub fn size(&self) -> u64
        ensures { pos result ≡ size_of self.now.min self.now.max }
    {
        (i64::from(self.max) - i64::from(self.min) + 1) as u64
    }
}
