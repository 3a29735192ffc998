ghost use Rattle.std.specs.Prelude.{◌≡◌, ◌==◌, ◌&&◌, length, map, codes, All};
ghost use Rattle.std.specs.List.{list_any, slice_split};
ghost use Rattle.std.specs.Str.{str_eq_ignore_ascii_case};
ghost use Rattle.httparse.specs.Spans.{span_bytes, header_bytes, IsHeaderWithin};
ghost use Rattle.httparse.specs.Grammar.{is_ows, trim_ows};
ghost use Rattle.sc_model.specs.Heads.{comma, says_close, is_coding};
ghost use Rattle.sc_http.specs.Lines.{is_named, line_values, is_close};

use httparse::spans::HeaderSpan;

/// Whether the line has this name, in any case.
pub(crate) fn is_named(head: &[u8], line: &HeaderSpan, name: &[u8]) -> bool
    requires { IsHeaderWithin (length head.now) line.now }
    ensures { result ≡ str_eq_ignore_ascii_case (span_bytes head.now line.now.name) name.now }
{
    line.name.of(head).eq_ignore_ascii_case(name)
}

/// Whether the body has a content coding.
pub(crate) fn is_encoded(head: &[u8], lines: &[HeaderSpan]) -> bool
    requires { All (IsHeaderWithin (length head.now)) lines.now }
    ensures { result ≡ list_any is_coding (line_values (codes "content-encoding") (map (header_bytes head.now) lines.now)) }
{
    for line in lines {
        if line_encodes(head, line) {
            return true;
        }
    }
    false
}

fn line_encodes(head: &[u8], line: &HeaderSpan) -> bool
    requires { IsHeaderWithin (length head.now) line.now }
    ensures { result ≡ (is_named (codes "content-encoding") (header_bytes head.now line.now)
        && is_coding (span_bytes head.now line.now.value)) }
{
    is_named(head, line, b"content-encoding") && line.value.of(head) != b"identity".as_slice()
}

/// Whether a Connection header asks to close.
pub(crate) fn asks_close(head: &[u8], lines: &[HeaderSpan]) -> bool
    requires { All (IsHeaderWithin (length head.now)) lines.now }
    ensures { result ≡ list_any says_close (line_values (codes "connection") (map (header_bytes head.now) lines.now)) }
{
    for line in lines {
        if line_asks_close(head, line) {
            return true;
        }
    }
    false
}

fn line_asks_close(head: &[u8], line: &HeaderSpan) -> bool
    requires { IsHeaderWithin (length head.now) line.now }
    ensures { result ≡ (is_named (codes "connection") (header_bytes head.now line.now)
        && list_any is_close (slice_split (λ b. b == comma) (span_bytes head.now line.now.value))) }
{
    is_named(head, line, b"connection") && says_close(line.value.of(head))
}

/// Whether a list of tokens has the token close.
fn says_close(value: &[u8]) -> bool
    ensures { result ≡ list_any is_close (slice_split (λ b. b == comma) value.now) }
{
    value
        .split(|byte| *byte == b',')
        .any(|token| is_close(token))
}

fn is_close(token: &[u8]) -> bool
    ensures { result ≡ is_close token.now }
{
    trimmed(token).eq_ignore_ascii_case(b"close")
}

/// The bytes without the spaces and tabs around them.
fn trimmed(bytes: &[u8]) -> &[u8]
    ensures { result.now ≡ trim_ows bytes.now }
{
    let mut start = 0;
    let mut end = bytes.len();
    while start < end && is_blank(bytes[start]) {
        start += 1;
    }
    while start < end && is_blank(bytes[end - 1]) {
        end -= 1;
    }
    &bytes[start..end]
}

fn is_blank(byte: u8) -> bool
    ensures { result ≡ is_ows byte }
{
    byte == b' ' || byte == b'\t'
}
