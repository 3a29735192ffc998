//! The counts among the parameters of a request.

ghost use Rattle.std.specs.Prelude.{◌≡◌, ◌<◌, Some, None, true, length, nat_le, option_copied, if◌then◌else◌};
ghost use Rattle.std.specs.Char.{is_ascii_digit};
ghost use Rattle.std.specs.List.{list_all};
ghost use Rattle.std.specs.Str.Parse.{digits_value};
ghost use Rattle.sc_model.specs.Counts as counts;

use sc_record::Text;

/// The count that a parameter gives, from 0 to the greatest; the usual one where the parameter is not there. None where its text is no
/// decimal number, has a sign or a zero before other digits, or is above the greatest.
pub fn count_of(usual: u32, most: u32, text: Option<&Text>) -> Option<u32>
    ensures { result ≡ counts.count_of usual most (option_copied text.entry) }
{
    match text {
        None => Some(usual),
        Some(text) => number_up_to(most, text.as_str()),
    }
}

// The number of a decimal text, where it is at most the greatest. No sign may stand, and no zero before other digits.
fn number_up_to(most: u32, text: &str) -> Option<u32>
    ensures { result ≡ counts.number_up_to most text.now }
{
    if text.is_empty() || !is_digits(text) || has_leading_zero(text) {
        return None;
    }
    parsed_up_to(most, text)
}

// Whether each byte is a decimal digit.
fn is_digits(text: &str) -> bool
    ensures { result ≡ list_all is_ascii_digit text.now }
{
    text.as_bytes().iter().all(|b| b.is_ascii_digit())
}

// Whether the first of several digits is 0.
fn has_leading_zero(text: &str) -> bool
    ensures { result ≡ counts.has_leading_zero text.now }
{
    text.len() > 1 && text.as_bytes()[0] == b'0'
}

// The number of digits, where it is at most the greatest.
fn parsed_up_to(most: u32, text: &str) -> Option<u32>
    requires some { 0 < length text.now }
    requires digits { list_all is_ascii_digit text.now ≡ true }
    ensures { result ≡ (if nat_le (digits_value 10 text.now) most then Some (digits_value 10 text.now) else None) }
{
    match text.parse::<u32>() {
        Ok(number) => { if number <= most { Some(number) } else { None } }
        Err(_) => None,
    }
}
