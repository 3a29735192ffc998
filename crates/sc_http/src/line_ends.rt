ghost use Rattle.std.specs.Prelude.{◌≡◌, ◌<◌, ◌≤◌, length, take, IfSome, None};
ghost use Rattle.std.specs.List.{prefix_len};
ghost use Rattle.httparse.specs.Pieces.{is_newline};
ghost use Rattle.sc_http.specs.LineEnds.{line_ends, EndsLine};

/// Where the line of this number ends, counted from the request line, which is 1. Empty lines before that don't count.
pub(crate) fn end_of_line(bytes: &[u8], number: usize) -> Option<usize>
    requires { 0 < number }
    ensures found { IfSome result (λ end. EndsLine number (take end bytes.now)) }
    ensures within { IfSome result (λ end. end ≤ length bytes.now) }
    ensures fewer { result ≡ None → line_ends bytes.now < number }
{
    let start = request_line_start(bytes);
    let mut ended = 0;
    for (i, byte) in bytes[start..].iter().enumerate() {
        if *byte == b'\n' {
            ended += 1;
            if ended == number {
                return Some(start + i + 1);
            }
        }
    }
    None
}

/// Where the request line begins, after the empty lines before it.
fn request_line_start(bytes: &[u8]) -> usize
    ensures start { result ≡ prefix_len is_newline bytes.now }
    ensures within { result ≤ length bytes.now }
{
    let mut start = 0;
    while start < bytes.len() && is_newline(bytes[start]) {
        start += 1;
    }
    start
}

fn is_newline(byte: u8) -> bool
    ensures { result ≡ is_newline byte }
{
    byte == b'\r' || byte == b'\n'
}
