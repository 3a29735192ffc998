ghost use Rattle.std.specs.Prelude.{◌≡◌, ◌<◌, ◌^◌, length, nat_lt, true, if◌then◌else◌, Some, None};
ghost use Rattle.std.specs.Char.{is_ascii_digit};
ghost use Rattle.std.specs.List.{list_all};
ghost use Rattle.std.specs.Str.Parse.{digits_value};
ghost use Rattle.sc_arguments.specs.Options.{is_number};

/// The number of one to twenty decimal digits, where it has 64 bits.
pub(crate) fn number_of(text: &str) -> Option<u64>
    ensures { result ≡ (if is_number text.now then Some (digits_value 10 text.now) else None) }
{
    if text.is_empty() || text.len() > 20 || !is_digits(text) {
        return None;
    }
    parsed(text)
}

/// Whether each byte is a decimal digit.
fn is_digits(text: &str) -> bool
    ensures { result ≡ list_all is_ascii_digit text.now }
{
    text.as_bytes().iter().all(|b| b.is_ascii_digit())
}

/// The number of digits, where it has 64 bits.
fn parsed(text: &str) -> Option<u64>
    requires some { 0 < length text.now }
    requires digits { list_all is_ascii_digit text.now ≡ true }
    ensures { result ≡ (if nat_lt (digits_value 10 text.now) (2 ^ 64) then Some (digits_value 10 text.now) else None) }
{
    match text.parse() {
        Ok(number) => Some(number),
        Err(_) => None,
    }
}
