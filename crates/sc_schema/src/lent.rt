//! A value of JSON as what a field of a kind keeps of it, lent.

ghost use Rattle.std.specs.Prelude.{◌≡◌, option_map};
ghost use Rattle.sc_spelling.specs.Lent.{value_of as lent_value};
ghost use Rattle.sc_schema.specs.Values.{flag_text, text_value, value_of};

use crate::raw::RawOne;
use crate::value::{flag_of, number_of};
use itoa::Buffer;
use sc_record::Kind;
use sc_spelling::ValueRef;

/// The value that a field of this kind keeps of it, whose text may stand among the digits. `None` where it does not fit.
#[inline]
pub(crate) fn lent_value<'a>(
    kind: Kind,
    one: &'a RawOne,
    digits: &'a mut Buffer,
) -> Option<ValueRef<'a>>
    ensures { option_map lent_value result ≡ value_of kind one.entry.now }
{
    match kind {
        Kind::Str | Kind::Words => {
            let text = lent_text(one, digits)?;
            Some(ValueRef::Text(text))
        }
        Kind::Int => {
            let number = i32::try_from(number_of(one)?).ok()?;
            Some(ValueRef::Int(number))
        }
        Kind::Long => {
            let number = number_of(one)?;
            Some(ValueRef::Long(number))
        }
        Kind::Flag => {
            let flag = flag_of(one)?;
            Some(ValueRef::Flag(flag))
        }
    }
}

/// The text that the value is, where that of a number stands among the digits.
fn lent_text<'a>(one: &'a RawOne, digits: &'a mut Buffer) -> Option<&'a str>
    ensures { option_map (λ text. text.now) result ≡ text_value one.entry.now }
{
    match one {
        RawOne::Null | RawOne::Other => None,
        RawOne::Flag(flag) => Some(flag_text(*flag)),
        RawOne::Number(number) => Some(digits.format(*number)),
        RawOne::Text(text) => Some(text.as_str()),
    }
}

/// The name of the truth value.
fn flag_text<'a>(flag: bool) -> &'a str
    ensures { result.now ≡ flag_text flag }
{
    if flag { "true" } else { "false" }
}
