ghost use Rattle.std.specs.Prelude.{◌≡◌, ◌<◌, ◌≤◌, ◌+◌, ◌++◌, length, Some, IsSome, IfSome, OnOk, OnErr};
ghost use Rattle.sc_io.specs.Pieces.{AddsPrefix};
ghost use Rattle.arrayvec.specs.ArrayVec.{array_vec_len};
ghost use Rattle.sc_http.specs.ReplyHead.{head_text};
ghost use Rattle.sc_model.specs.Replies.{reason_of, close_line, one_write_limit, text_of};

use arrayvec::ArrayVec;
use itoa::Buffer;
use sc_io::{Failed, Sink};

/// The most bytes of a reply that is written at once, its head and its body together.
const ONE_WRITE: usize = 4096;

/// The most bytes of a reply that is put together in little room.
const SMALL_REPLY: usize = 1024;

/// Writes a reply whose body is JSON (RFC 9112, section 4; RFC 8259): at once where it has at most 4,096 bytes, else
/// its head and then its body. `close` says that the connection is closed after it. It takes no memory.
pub fn write_reply<W: Sink>(
    sink: &mut W,
    status: u16,
    body: &[u8],
    close: bool,
) -> Result<(), Failed>
    requires { IsSome (reason_of status) }
    ensures ok { OnOk result (IfSome (W.written sink.old)
        (λ bytes. W.written sink.new ≡ Some (bytes ++ text_of (record { status = status; body = body.now }) close))) }
    ensures err { OnErr result (IfSome (W.written sink.old)
        (λ bytes. AddsPrefix bytes (text_of (record { status = status; body = body.now }) close) (W.written sink.new))) }
    ensures steady { OnOk result (W.faults sink.new ≡ W.faults sink.old) }
    ensures cause { OnErr result (W.faults sink.old < W.faults sink.new) }
    ensures no_fall { W.faults sink.old ≤ W.faults sink.new }
    ensures two_writes { W.calls sink.new ≤ W.calls sink.old + 2 }
    ensures one_write { length (text_of (record { status = status; body = body.now }) close) ≤ one_write_limit
        → W.calls sink.new ≤ W.calls sink.old + 1 }
{
    let mut reply = head_of(status, body.len(), close);
    match reply.try_extend_from_slice(body) {
        Ok(()) => sink.write(reply.as_slice()),
        Err(_) => write_parts(sink, reply.as_slice(), body),
    }
}

/// Writes the head and then the body: at once where they have at most 4,096 bytes.
fn write_parts<W: Sink>(sink: &mut W, head: &[u8], body: &[u8]) -> Result<(), Failed>
    ensures ok { OnOk result (IfSome (W.written sink.old) (λ bytes. W.written sink.new ≡ Some (bytes ++ (head.now ++ body.now)))) }
    ensures err { OnErr result (IfSome (W.written sink.old) (λ bytes. AddsPrefix bytes (head.now ++ body.now) (W.written sink.new))) }
    ensures steady { OnOk result (W.faults sink.new ≡ W.faults sink.old) }
    ensures cause { OnErr result (W.faults sink.old < W.faults sink.new) }
    ensures two_writes { W.calls sink.new ≤ W.calls sink.old + 2 }
    ensures one_write { length head.now + length body.now ≤ one_write_limit → W.calls sink.new ≤ W.calls sink.old + 1 }
{
    if head.len() + body.len() > ONE_WRITE {
        return write_both(sink, head, body);
    }
    let mut reply: ArrayVec<u8, ONE_WRITE> = ArrayVec::new();
    let _fits = reply.try_extend_from_slice(head);
    let _fits = reply.try_extend_from_slice(body);
    sink.write(reply.as_slice())
}

/// Writes the head and then the body.
fn write_both<W: Sink>(sink: &mut W, head: &[u8], body: &[u8]) -> Result<(), Failed>
    ensures ok { OnOk result (IfSome (W.written sink.old) (λ bytes. W.written sink.new ≡ Some (bytes ++ (head.now ++ body.now)))) }
    ensures err { OnErr result (IfSome (W.written sink.old) (λ bytes. AddsPrefix bytes (head.now ++ body.now) (W.written sink.new))) }
    ensures steady { OnOk result (W.faults sink.new ≡ W.faults sink.old) }
    ensures cause { OnErr result (W.faults sink.old < W.faults sink.new) }
    ensures two_writes { W.calls sink.new ≤ W.calls sink.old + 2 }
{
    sink.write(head)?;
    sink.write(body)
}

/// The bytes of a reply up to its body.
fn head_of(status: u16, length: usize, close: bool) -> ArrayVec<u8, SMALL_REPLY>
    requires { IsSome (reason_of status) }
    ensures { result.items ≡ head_text status length close }
{
    let mut head = ArrayVec::new();
    put(&mut head, "HTTP/1.1 ");
    put(&mut head, Buffer::new().format(status));
    put(&mut head, " ");
    put(&mut head, reason_of(status));
    put(
        &mut head,
        "\r\nContent-Type: application/json;charset=utf-8\r\nContent-Length: ",
    );
    put(&mut head, Buffer::new().format(length));
    put(&mut head, "\r\n");
    put(&mut head, close_line(close));
    put(&mut head, "\r\n");
    head
}

/// The line that says that the connection is closed, where it is.
fn close_line(close: bool) -> &'static str
    ensures line { result.now ≡ close_line close }
    ensures short { length result.now ≤ 19 }
{
    if close { "Connection: close\r\n" } else { "" }
}

/// Puts the text after what is there.
fn put(bytes: &mut ArrayVec<u8, SMALL_REPLY>, text: &str)
    requires { array_vec_len bytes.old + length text.now ≤ SMALL_REPLY }
    ensures items { bytes.new.items ≡ bytes.old.items ++ text.now }
    ensures len { array_vec_len bytes.new ≡ array_vec_len bytes.old + length text.now }
{
    let _fits = bytes.try_extend_from_slice(text.as_bytes());
}

/// The reason of a status.
fn reason_of(status: u16) -> &'static str
    requires { IsSome (reason_of status) }
    ensures reason { reason_of status ≡ Some result.now }
    ensures short { length result.now ≤ 22 }
{
    match status {
        200 => "OK",
        400 => "Bad Request",
        404 => "Not Found",
        405 => "Method Not Allowed",
        409 => "Conflict",
        411 => "Length Required",
        413 => "Content Too Large",
        415 => "Unsupported Media Type",
        500 => "Internal Server Error",
        503 => "Service Unavailable",
        507 => "Insufficient Storage",
        _ => unreachable!(),
    }
}
