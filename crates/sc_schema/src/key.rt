ghost use Rattle.std.specs.Prelude.{◌≡◌, IfOk, option_map};
ghost use Rattle.std.specs.Fmt.{signed_decimal};
ghost use Rattle.sc_schema.specs.Values.{flag_named, flag_text};
ghost use Rattle.sc_schema.specs.Terms.{key_of, int_of};

use crate::value::{decimal, flag_named, number_text};
use crate::word::fold_word;
use sc_record::{Kind, Text};
use std::alloc::{AllocError, Global};

/// The key by which a query's text finds documents in a field of this kind: the text itself; the decimal text of the number that
/// it writes, where it is one of the kind; the truth value of that name; or its one word, folded. None where it can be no key.
pub fn key_of(alloc: Global, kind: Kind, text: &str) -> Result<Option<Text>, AllocError>
    ensures { IfOk result (λ key. key ≡ key_of kind text.now) }
{
    match kind {
        Kind::Str => Ok(Some(Text::new(alloc, text)?)),
        Kind::Int => number_key(alloc, int_of(text)),
        Kind::Long => number_key(alloc, number_text(text)),
        Kind::Flag => flag_key(alloc, text),
        Kind::Words => fold_word(alloc, text),
    }
}

/// The number of 32 bits that the text writes.
fn int_of(text: &str) -> Option<i64>
    ensures { result ≡ int_of text.now }
{
    let number = i32::try_from(number_text(text)?).ok()?;
    Some(i64::from(number))
}

/// The decimal text of a number, where there is one.
fn number_key(alloc: Global, number: Option<i64>) -> Result<Option<Text>, AllocError>
    ensures { IfOk result (λ key. key ≡ option_map signed_decimal number) }
{
    match number {
        Some(number) => Ok(Some(decimal(alloc, number)?)),
        None => Ok(None),
    }
}

/// The name of the truth value that has this name, where one has.
fn flag_key(alloc: Global, text: &str) -> Result<Option<Text>, AllocError>
    ensures { IfOk result (λ key. key ≡ option_map flag_text (flag_named text.now)) }
{
    match flag_named(text) {
        Some(_) => Ok(Some(Text::new(alloc, text)?)),
        None => Ok(None),
    }
}
