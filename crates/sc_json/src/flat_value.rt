//! The values of a flat object's members, read one after another from a reader of its text.

ghost use Rattle.std.specs.Prelude.{◌≡◌, ◌<◌, length, ◌==◌, slice_index, true, false, Some, IfOk, OnOk, IfSome, IsTrue, option_map};
ghost use Rattle.json.specs.Reads.{token_of};
ghost use Rattle.serde_json.specs.Read.{number_of, number_from};
ghost use Rattle.sc_schema.specs.declared.raw.RawValue.TheVariants.{Plain};
ghost use Rattle.sc_schema.specs.declared.raw.RawOne.TheVariants.{Number};
ghost use Rattle.sc_json.specs.Flat as flat;
ghost use Rattle.sc_json.specs.RawDocs.{raw_number, raw_one, raw_items, raw_value};

use fast_float::Numeral;
use json::{Invalid, Reader, Token};
use sc_record::{List, Text};
use sc_schema::{RawFlat, RawOne};
use std::alloc::{AllocError, AllocFailed, Global};

/// Why a text is not read as flat documents.
#[derive(Drop)]
pub(crate) enum Unread {
    /// It is none of this form.
    Other,
    Memory,
}

impl From<Invalid> for Unread {
    fn from(_: Invalid) -> Unread {
        Unread::Other
    }
}

impl From<AllocError> for Unread {
    fn from(_: AllocError) -> Unread {
        Unread::Memory
    }
}

impl<T: Drop> From<AllocFailed<T>> for Unread {
    fn from(_: AllocFailed<T>) -> Unread {
        Unread::Memory
    }
}

/// A member's value, which is no object.
pub(crate) fn next_flat(alloc: Global, reader: &mut Reader<'_>) -> Result<RawFlat, Unread>
    ensures value { IfOk result
        (λ found. flat.next_by raw_value flat.member_depth reader.old ≡ Some (Plain found, reader.new)) }
    ensures shorter { OnOk result (length reader.new < length reader.old) }
{
    let token = reader.next().ok_or(Unread::Other)?;
    match token {
        Token::BeginArray => Ok(RawFlat::Many(rest_of_items(alloc, reader)?)),
        _ => Ok(RawFlat::One(one_of(alloc, token)?)),
    }
}

/// The values of an array that has begun.
fn rest_of_items(alloc: Global, reader: &mut Reader<'_>) -> Result<List<RawOne>, Unread>
    ensures value { IfOk result
        (λ found. flat.items_by raw_items flat.item_depth reader.old ≡ Some (found, reader.new)) }
    ensures shorter { OnOk result (length reader.new < length reader.old) }
{
    let mut found = List::new(alloc);
    'items: while !reader.take_end_array() {
        let one = next_one(alloc, reader)?;
        found.push(one)?;
    }
    Ok(found)
}

/// An item of an array.
fn next_one(alloc: Global, reader: &mut Reader<'_>) -> Result<RawOne, Unread>
    ensures value { IfOk result
        (λ one. flat.next_by raw_one flat.item_depth reader.old ≡ Some (one, reader.new)) }
    ensures shorter { OnOk result (length reader.new < length reader.old) }
{
    let token = reader.next().ok_or(Unread::Other)?;
    one_of(alloc, token)
}

/// The value that is one token.
fn one_of(alloc: Global, token: Token<'_>) -> Result<RawOne, Unread>
    ensures { IfOk result (λ one. flat.one_of (token_of token.entry) ≡ Some one) }
{
    match token {
        Token::String(text) => Ok(RawOne::Text(Text::new(alloc, text)?)),
        Token::Number(text) => Ok(RawOne::Number(whole(text).ok_or(Unread::Other)?)),
        Token::Bool(flag) => Ok(RawOne::Flag(flag)),
        Token::Null => Ok(RawOne::Null),
        _ => Err(Unread::Other),
    }
}

/// The number that a number's text writes, where it is a whole one of 64 signed bits.
fn whole(text: &str) -> Option<i64>
    ensures { IfSome result (λ n. option_map raw_number (number_of text.now) ≡ Some (Number n)) }
{
    let bytes = text.as_bytes();
    if has_minus(bytes) {
        below_zero(&Numeral::scan(&bytes[1..]))
    } else {
        not_negative(&Numeral::scan(bytes))
    }
}

/// Whether a minus sign comes first.
fn has_minus(bytes: &[u8]) -> bool
    ensures value { result ≡ (slice_index bytes.now 0 == 45) }
    ensures some { IsTrue result → 0 < length bytes.now }
{
    !bytes.is_empty() && bytes[0] == b'-'
}

/// The number without a sign.
fn not_negative(numeral: &Numeral<'_>) -> Option<i64>
    ensures { IfSome result (λ n. option_map raw_number (number_from false numeral.now) ≡ Some (Number n)) }
{
    numeral.to_i64(false)
}

/// The number with a minus sign, which is not 0.
fn below_zero(numeral: &Numeral<'_>) -> Option<i64>
    ensures { IfSome result (λ n. option_map raw_number (number_from true numeral.now) ≡ Some (Number n)) }
{
    numeral.to_i64(true).filter(|n| *n < 0)
}
