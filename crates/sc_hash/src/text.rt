//! Ranges as text, as the cluster's state shows them.

ghost use Rattle.std.specs.Prelude.{◌≡◌, ℤ, ◌↔◌, IfOk, IsSomeAnd, string_bytes, false, ◌∷◌, ◌++◌};
ghost use Rattle.std.specs.Fmt.{digits};
ghost use Rattle.std.specs.Option.{SomeIff};
ghost use Rattle.sc_hash.specs.Range.{IsRange, range_text, ReadsAs, IsBound, bound_of};

use crate::range::Range;
use std::alloc::{AllocError, Global};

// Two numbers in hexadecimal, with a `-` between them.
fn hex_pair(alloc: Global, low: u32, high: u32) -> Result<String, AllocError>
    ensures { IfOk result (λ text. string_bytes text ≡ digits 16 false low ++ 45 ∷ digits 16 false high) }
{
    format!(in alloc; "{low:x}-{high:x}")
}

/// The range as `min-max`, as `80000000-7fffffff` for all hashes.
pub fn range_text(alloc: Global, range: &Range) -> Result<String, AllocError>
    ensures { IfOk result (λ text. string_bytes text ≡ range_text range.now.min range.now.max) }
{
    hex_pair(alloc, range.min.cast_unsigned(), range.max.cast_unsigned())
}

// The number that one to eight hexadecimal digits write, read as a signed one.
fn parse_bound(text: &str) -> Option<i32>
    ensures { SomeIff result (IsBound text.now) (bound_of text.now) }
{
    if text.len() > 8 || text.starts_with('+') {
        return None;
    }
    let bits = u32::from_str_radix(text, 16).ok()?;
    Some(bits.cast_signed())
}

/// The range that a text of one to eight hexadecimal digits, `-` and again one to eight such digits
/// writes, in either case and also with leading zeros. None where a text has another form or its first
/// number is above its second.
pub fn parse_range(text: &str) -> Option<Range>
    ensures read { (min max : ℤ) → IsSomeAnd result (λ range. (range.min ≡ min) × (range.max ≡ max)) ↔ ReadsAs text.now min max }

    // What `range_text` writes of a range is read as that range.
    ensures written { (min max : ℤ) → IsRange min max → text.now ≡ range_text min max
        → IsSomeAnd result (λ range. (range.min ≡ min) × (range.max ≡ max)) }
{
    let (low, high) = text.split_once('-')?;
    Range::new(parse_bound(low)?, parse_bound(high)?)
}
