//! The same readers of bytes that are known to be right: nothing of them is tested again.

ghost use Rattle.std.specs.Prelude.{◌≡◌, IsSome};
ghost use Rattle.std.specs.Int.{w16, w32};
ghost use Rattle.sc_spelling.specs.Lent.{field_of, value_of};
ghost use Rattle.sc_spelling.specs.Reading.{Gives, cut_text, text_at, value_at, values_at, field_at, field_after, rest_of};

use crate::field::FieldRef;
use crate::number::{flag_at, u16_at, u32_at, u64_at};
use crate::value::{ValueRef, Values};
use sc_values::{Kind, kind_of};
use std::str;

/// The first so many bytes, which are known to be a text, and those after them.
#[inline(always)]
pub fn known_cut(length: usize, bytes: &[u8]) -> Option<(&str, &[u8])>
    requires { IsSome (cut_text length bytes.now) }
    ensures { Gives (λ x. (x.0.now, x.1.now)) result (cut_text length bytes.now) }
{
    if bytes.len() < length {
        return None;
    }
    let (text, rest) = bytes.split_at(length);
    Some((unsafe { str::from_utf8_unchecked(text) }, rest))
}

/// The text that is known to begin the bytes, its length in two bytes before it, and the bytes after it.
#[inline(always)]
#[tactic(auto, unfolding(crate::specs::Reading::text_at))]
pub fn known_name_at(bytes: &[u8]) -> Option<(&str, &[u8])>
    requires { IsSome (text_at w16 bytes.now) }
    ensures { Gives (λ x. (x.0.now, x.1.now)) result (text_at w16 bytes.now) }
{
    let (length, rest) = u16_at(bytes)?;
    known_cut(length as usize, rest)
}

/// The text that is known to begin the bytes, its length in four bytes before it, and the bytes after it.
#[inline(always)]
#[tactic(auto, unfolding(crate::specs::Reading::text_at))]
pub fn known_text_at(bytes: &[u8]) -> Option<(&str, &[u8])>
    requires { IsSome (text_at w32 bytes.now) }
    ensures { Gives (λ x. (x.0.now, x.1.now)) result (text_at w32 bytes.now) }
{
    let (length, rest) = u32_at(bytes)?;
    known_cut(length as usize, rest)
}

// The value of this kind that is known to begin the bytes, and the bytes after it.
#[inline]
#[tactic(auto, unfolding(crate::specs::Reading::value_at))]
pub(crate) fn known_value_at(kind: Kind, bytes: &[u8]) -> Option<(ValueRef<'_>, &[u8])>
    requires { IsSome (value_at kind bytes.now) }
    ensures { Gives (λ x. (value_of x.0, x.1.now)) result (value_at kind bytes.now) }
{
    match kind {
        Kind::Str | Kind::Words => {
            let (text, rest) = known_text_at(bytes)?;
            Some((ValueRef::Text(text), rest))
        }
        Kind::Int => {
            let (number, rest) = u32_at(bytes)?;
            Some((ValueRef::Int(number.cast_signed()), rest))
        }
        Kind::Long => {
            let (number, rest) = u64_at(bytes)?;
            Some((ValueRef::Long(number.cast_signed()), rest))
        }
        Kind::Flag => {
            let (flag, rest) = flag_at(bytes)?;
            Some((ValueRef::Flag(flag), rest))
        }
    }
}

// The bytes after so many values of this kind, which are known to begin the bytes.
#[inline]
fn known_skip(kind: Kind, count: u32, bytes: &[u8]) -> Option<&[u8]>
    requires { IsSome (values_at kind count bytes.now) }
    ensures { Gives (λ x. x.now) result (rest_of (values_at kind count bytes.now)) }
{
    let mut rest = bytes;
    for _ in 0..count {
        let (_, after) = known_value_at(kind, rest)?;
        rest = after;
    }
    Some(rest)
}

// The field that is known to begin the bytes, and the bytes after it.
#[inline]
#[tactic(auto, unfolding(crate::specs::Reading::field_at))]
fn known_field_at(bytes: &[u8]) -> Option<(FieldRef<'_>, &[u8])>
    requires { IsSome (field_at bytes.now) }
    ensures { Gives (λ x. (field_of x.0, x.1.now)) result (field_at bytes.now) }
{
    let (name, rest) = known_name_at(bytes)?;
    let (kind, _) = kind_of(name)?;
    let (count, rest) = u32_at(rest)?;
    let after = known_skip(kind, count, rest)?;
    let values = Values::new(kind, count, rest);
    Some((FieldRef { name, values }, after))
}

// The field that is known to begin the bytes, its name after this one, and the bytes after it.
#[inline]
#[tactic(auto, unfolding(crate::specs::Reading::field_after))]
pub(crate) fn known_field_after<'a>(
    before: &str,
    bytes: &'a [u8],
) -> Option<(FieldRef<'a>, &'a [u8])>
    requires { IsSome (field_after before.now bytes.now) }
    ensures { Gives (λ x. (field_of x.0, x.1.now)) result (field_after before.now bytes.entry.now) }
{
    known_field_at(bytes)
}
