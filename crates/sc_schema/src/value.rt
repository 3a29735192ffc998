ghost use Rattle.std.specs.Fmt.{signed_decimal};
ghost use Rattle.std.specs.Prelude.{◌≡◌, IfOk};
ghost use Rattle.sc_schema.specs.Values.{text_value, number_text, number_of, flag_named, flag_of, int_value, value_of};

use crate::raw::RawOne;
use itoa::Buffer;
use sc_record::{Kind, Text, Value};
use std::alloc::{AllocError, Global};

/// The value that a field of this kind keeps of it. `None` where it does not fit.
pub fn value_of(alloc: Global, kind: Kind, one: &RawOne) -> Result<Option<Value>, AllocError>
    ensures { IfOk result (λ value. value ≡ value_of kind one.now) }
{
    match kind {
        Kind::Str | Kind::Words => Ok(text_of(alloc, one)?.map(Value::Text)),
        Kind::Int => Ok(number_of(one).and_then(int_value)),
        Kind::Long => Ok(number_of(one).map(Value::Long)),
        Kind::Flag => Ok(flag_of(one).map(Value::Flag)),
    }
}

/// The number, where it has 32 bits.
fn int_value(number: i64) -> Option<Value>
    ensures { result ≡ int_value number }
{
    i32::try_from(number).ok().map(Value::Int)
}

/// The text that the value is.
fn text_of(alloc: Global, one: &RawOne) -> Result<Option<Text>, AllocError>
    ensures { IfOk result (λ text. text ≡ text_value one.now) }
{
    match one {
        RawOne::Null | RawOne::Other => Ok(None),
        RawOne::Flag(flag) => {
            let name = if *flag { "true" } else { "false" };
            Ok(Some(Text::new(alloc, name)?))
        }
        RawOne::Number(number) => Ok(Some(decimal(alloc, *number)?)),
        RawOne::Text(text) => Ok(Some(text.clone()?)),
    }
}

/// The decimal text of a number.
pub fn decimal(alloc: Global, number: i64) -> Result<Text, AllocError>
    ensures { IfOk result (λ text. text ≡ signed_decimal number) }
{
    let mut buffer = Buffer::new();
    Text::new(alloc, buffer.format(number))
}

/// The whole number that the value is.
pub fn number_of(one: &RawOne) -> Option<i64>
    ensures { result ≡ number_of one.now }
{
    match one {
        RawOne::Null | RawOne::Flag(_) | RawOne::Other => None,
        RawOne::Number(number) => Some(*number),
        RawOne::Text(text) => number_text(text.as_str()),
    }
}

/// The number that a decimal text writes, where it has 64 bits. Leading zeros may stand, a plus sign may not.
pub fn number_text(text: &str) -> Option<i64>
    ensures { result ≡ number_text text.now }
{
    if text.starts_with('+') {
        return None;
    }
    text.parse::<i64>().ok()
}

/// The truth value that the value is.
pub fn flag_of(one: &RawOne) -> Option<bool>
    ensures { result ≡ flag_of one.now }
{
    match one {
        RawOne::Null | RawOne::Number(_) | RawOne::Other => None,
        RawOne::Flag(flag) => Some(*flag),
        RawOne::Text(text) => flag_named(text.as_str()),
    }
}

/// The truth value of this name.
pub fn flag_named(text: &str) -> Option<bool>
    ensures { result ≡ flag_named text.now }
{
    match text {
        "true" => Some(true),
        "false" => Some(false),
        _ => None,
    }
}
