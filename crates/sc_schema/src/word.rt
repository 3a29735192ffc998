ghost use Rattle.std.specs.Prelude.{◌≡◌, ◌++◌, map, true, IfOk, OnOk, IsAscii};
ghost use Rattle.unicode_segmentation.specs.Word.{words};
ghost use Rattle.std.specs.Char.{is_ascii_uppercase, to_ascii_lowercase};
ghost use Rattle.std.specs.List.{list_all, list_any};
ghost use Rattle.std.specs.String.{string_bytes};
ghost use Rattle.sc_schema.specs.Terms.{folded, only_word};
ghost use Rattle.sc_schema.specs.Runs.{is_plain, closed, runs};

use caseless::default_case_fold_str;
use sc_record::Text;
use std::alloc::{AllocError, Global};
use unicode_segmentation::UnicodeSegmentation;

/// For so many runs of a text there is room at once.
const LIKELY_RUNS: usize = 16;

/// The one word of the text (Unicode Standard Annex 29), folded by default case folding. `None` where it has no word or
/// several.
pub fn fold_word(alloc: Global, text: &str) -> Result<Option<Text>, AllocError>
    ensures { IfOk result (λ word. word ≡ only_word (words text.now)) }
{
    let mut words = text.unicode_words();
    let Some(word) = words.next() else {
        return Ok(None);
    };
    if words.next().is_some() {
        return Ok(None);
    }
    Ok(Some(folded(alloc, word)?))
}

/// The text under default case folding.
fn folded(alloc: Global, text: &str) -> Result<Text, AllocError>
    ensures { IfOk result (λ kept. kept ≡ folded text.now) }
{
    if text.is_ascii() {
        return folded_ascii(alloc, text);
    }
    Text::from_string(alloc, default_case_fold_str(alloc, text)?)
}

/// The same of an ASCII text: its letters `A` to `Z` become small, and where it has none it stays.
fn folded_ascii(alloc: Global, text: &str) -> Result<Text, AllocError>
    requires { IsAscii text.now }
    ensures { IfOk result (λ kept. kept ≡ folded text.now) }
{
    if has_capital(text) {
        return lowered(alloc, text);
    }
    Text::new(alloc, text)
}

/// The text with small letters `a` to `z` in place of the capital ones.
fn lowered(alloc: Global, text: &str) -> Result<Text, AllocError>
    ensures { IfOk result (λ kept. kept ≡ map to_ascii_lowercase text.now) }
{
    Text::from_string(alloc, in_small_letters(alloc, text)?)
}

/// The same as a string.
pub fn in_small_letters(alloc: Global, text: &str) -> Result<String, AllocError>
    ensures { IfOk result (λ lower. string_bytes lower ≡ map to_ascii_lowercase text.now) }
{
    let mut lower = String::from_str(alloc, text)?;
    lower.make_ascii_lowercase();
    Ok(lower)
}

/// Whether one of the letters `A` to `Z` stands in the text.
pub fn has_capital(text: &str) -> bool
    ensures { result ≡ list_any is_ascii_uppercase text.now }
{
    let mut capital = false;
    for byte in text.as_bytes() {
        capital |= byte.is_ascii_uppercase();
    }
    capital
}

/// Puts each word of the text, folded, at the end.
pub fn push_words(alloc: Global, keys: &mut Vec<Text>, text: &str) -> Result<(), AllocError>
    ensures { OnOk result (keys.new.items ≡ keys.old.items ++ map folded (words text.now)) }
{
    if is_plain(text) {
        return push_plain_words(alloc, keys, text);
    }
    for word in text.unicode_words() {
        keys.push(folded(alloc, word)?)?;
    }
    Ok(())
}

/// Whether the words of the text are just the runs of its letters and digits.
pub fn is_plain(text: &str) -> bool
    ensures { result ≡ list_all is_plain text.now }
{
    let mut plain = true;
    for byte in text.as_bytes() {
        plain &= is_plain_byte(*byte);
    }
    plain
}

/// Whether the byte is a space, or an ASCII letter, digit or sign that no rule of word breaks joins with another.
fn is_plain_byte(byte: u8) -> bool
    ensures { result ≡ is_plain byte }
{
    (byte > 31)
        & (byte < 127)
        & (byte != 34)
        & (byte != 39)
        & (byte != 44)
        & (byte != 46)
        & (byte != 58)
        & (byte != 59)
        & (byte != 95)
}

/// Puts each word of a plain text, folded, at the end.
fn push_plain_words(alloc: Global, keys: &mut Vec<Text>, text: &str) -> Result<(), AllocError>
    requires { list_all is_plain text.now ≡ true }
    ensures { OnOk result (keys.new.items ≡ keys.old.items ++ map folded (words text.now)) }
{
    if has_capital(text) {
        let lower = in_small_letters(alloc, text)?;
        return push_runs(alloc, keys, lower.as_str());
    }
    push_runs(alloc, keys, text)
}

/// Puts each run of letters and digits of an ASCII text at the end.
fn push_runs(alloc: Global, keys: &mut Vec<Text>, text: &str) -> Result<(), AllocError>
    requires { IsAscii text.now }
    ensures { OnOk result (keys.new.items ≡ keys.old.items ++ runs text.now) }
{
    let runs = runs_of(alloc, text)?;
    for run in runs.as_slice() {
        keys.push(Text::new(alloc, run)?)?;
    }
    Ok(())
}

/// The runs of letters and digits of an ASCII text, lent by it.
pub fn runs_of(alloc: Global, text: &str) -> Result<Vec<&str>, AllocError>
    requires { IsAscii text.now }
    ensures { IfOk result (λ found. map (λ run. run.now) found.items ≡ runs text.now) }
{
    let bytes = text.as_bytes();
    let mut found = Vec::with_capacity(alloc, LIKELY_RUNS)?;
    let mut start = 0;
    for at in 0..bytes.len() {
        if !bytes[at].is_ascii_alphanumeric() {
            push_run(&mut found, &text[start..at])?;
            start = at + 1;
        }
    }
    push_run(&mut found, &text[start..])?;
    Ok(found)
}

/// Puts a run at the end, where it has a byte.
fn push_run<'a>(found: &mut Vec<&'a str>, run: &'a str) -> Result<(), AllocError>
    ensures { OnOk result (map (λ r. r.now) found.new.items ≡ map (λ r. r.now) found.old.items ++ closed run.now) }
{
    if run.is_empty() {
        return Ok(());
    }
    Ok(found.push(run)?)
}
