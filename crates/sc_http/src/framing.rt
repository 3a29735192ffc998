ghost use Rattle.std.specs.Prelude.{◌≡◌, ◌<◌, ◌||◌, ◌↔◌, length, map, filter, codes, All, IsTrue, IsSome, IfSome, IfOk};
ghost use Rattle.std.specs.List.{list_any};
ghost use Rattle.std.specs.Str.{str_eq_ignore_ascii_case};
ghost use Rattle.std.specs.Char.{is_ascii_digit, digit_value};
ghost use Rattle.httparse.specs.Spans.{header_bytes, IsHeaderWithin};
ghost use Rattle.sc_model.specs.Heads.{is_framing, length_of, coding_of, framing_of, framing_by};
ghost use Rattle.sc_http.specs.Lines.{framing_is, IsWithinBody};

use crate::lines::is_named;
use httparse::spans::HeaderSpan;

/// The most bytes of a body.
const MAX_BODY: u64 = 16_777_216;

/// How the end of a body is known (RFC 9112, section 6).
#[derive(Clone, Copy)]
pub(crate) enum Framing {
    /// The body has so many bytes.
    OfLength(usize),
    /// The body is in the chunked coding.
    Chunked,
}

/// Why the end of a body can't be known.
#[derive(Clone, Copy)]
pub(crate) enum LengthError {
    Malformed,
    TooLarge,
}

/// The framing of the body, by the headers in order.
pub(crate) fn stated_framing(head: &[u8], lines: &[HeaderSpan]) -> Result<Framing, LengthError>
    requires { All (IsHeaderWithin (length head.now)) lines.now }
    ensures bounded { IfOk result IsWithinBody }
    ensures framing { framing_is result ≡ framing_by (filter is_framing (map (header_bytes head.now) lines.now)) }
{
    for (i, line) in lines.iter().enumerate() {
        if states_framing(head, line) {
            let framing = framing_of(head, line)?;
            if has_framing(head, &lines[i + 1..]) {
                return Err(LengthError::Malformed);
            }
            return Ok(framing);
        }
    }
    Ok(Framing::OfLength(0))
}

/// Whether a line states the framing of the body.
pub(crate) fn has_framing(head: &[u8], lines: &[HeaderSpan]) -> bool
    requires { All (IsHeaderWithin (length head.now)) lines.now }
    ensures { result ≡ list_any is_framing (map (header_bytes head.now) lines.now) }
{
    for line in lines {
        if states_framing(head, line) {
            return true;
        }
    }
    false
}

fn states_framing(head: &[u8], line: &HeaderSpan) -> bool
    requires { IsHeaderWithin (length head.now) line.now }
    ensures { result ≡ is_framing (header_bytes head.now line.now) }
{
    is_named(head, line, b"content-length") || is_named(head, line, b"transfer-encoding")
}

/// The framing that one line states.
fn framing_of(head: &[u8], line: &HeaderSpan) -> Result<Framing, LengthError>
    requires { IsHeaderWithin (length head.now) line.now }
    ensures bounded { IfOk result IsWithinBody }
    ensures framing { framing_is result ≡ framing_of (header_bytes head.now line.now) }
{
    let value = line.value.of(head);
    if is_named(head, line, b"content-length") {
        return length_of(value);
    }
    coding_of(value)
}

/// The framing that a transfer coding is: no other than the chunked one is read.
fn coding_of(value: &[u8]) -> Result<Framing, LengthError>
    ensures bounded { IfOk result IsWithinBody }
    ensures framing { framing_is result ≡ coding_of value.now }
{
    if value.eq_ignore_ascii_case(b"chunked") {
        return Ok(Framing::Chunked);
    }
    Err(LengthError::Malformed)
}

/// The framing that a stated length is.
fn length_of(value: &[u8]) -> Result<Framing, LengthError>
    ensures bounded { IfOk result IsWithinBody }
    ensures framing { framing_is result ≡ length_of value.now }
{
    if value.is_empty() {
        return Err(LengthError::Malformed);
    }
    let mut length: u64 = 0;
    for byte in value {
        let Some(digit) = digit_of(*byte) else {
            return Err(LengthError::Malformed);
        };
        length = (length * 10 + digit).min(MAX_BODY + 1);
    }
    if length > MAX_BODY {
        return Err(LengthError::TooLarge);
    }
    Ok(Framing::OfLength(length as usize))
}

fn digit_of(byte: u8) -> Option<u64>
    ensures variant { IsSome result ↔ IsTrue (is_ascii_digit byte) }
    ensures value { IfSome result (λ digit. digit ≡ digit_value byte) }
    ensures small { IfSome result (λ digit. digit < 10) }
{
    match byte {
        b'0'..=b'9' => Some(u64::from(byte - b'0')),
        _ => None,
    }
}
