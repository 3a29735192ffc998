//! `sc_http`: `http.requests PIECE BYTES`, `http.request PIECE BYTES` and `http.reply STATUS BODY`, where a read gives as
//! many bytes as the piece has.

ghost use Rattle.std.specs.Prelude.{◌<◌};

use crate::line::Line;
use crate::words::word_and;
use sc_http::{Incoming, MessageEnd, Reader, write_reply};
use sc_io::{MemSink, MemSource};
use sc_model::Param;
use sc_record::List;
use std::alloc::{AllocError, Global};

pub fn answer(alloc: Global, question: &str, text: &str) -> Result<String, AllocError> {
    let (number, text) = word_and(text);
    let number = number.parse::<u16>().unwrap_or(0);
    if number == 0 {
        return Err(AllocError);
    }
    match question {
        "requests" => count(alloc, usize::from(number), text),
        "request" => first(alloc, usize::from(number), text),
        _ => reply(alloc, number, text),
    }
}

/// A source of the text's bytes.
fn source_of(alloc: Global, text: &str, most: usize) -> Result<MemSource, AllocError>
    requires { 0 < most }
{
    let bytes = List::from_vec(Vec::from_slice(alloc, text.as_bytes())?);
    Ok(MemSource::new(bytes, most, List::new(alloc)))
}

/// How many requests come first of the bytes, and why no other follows.
fn count(alloc: Global, most: usize, text: &str) -> Result<String, AllocError>
    requires { 0 < most }
{
    let mut source = source_of(alloc, text, most)?;
    let mut reader = Reader::new(alloc)?;
    counted(alloc, &mut reader, &mut source)
}

/// How many requests come, and why no other follows.
fn counted(
    alloc: Global,
    reader: &mut Reader,
    source: &mut MemSource,
) -> Result<String, AllocError> {
    for count in 0..9u32 {
        if let Some(end) = end_of(alloc, reader, source) {
            return format!(in alloc; "{count} {end:?}");
        }
    }
    Err(AllocError)
}

/// Why no other request follows, where none does.
fn end_of(alloc: Global, reader: &mut Reader, source: &mut MemSource) -> Option<MessageEnd> {
    match reader.next_message(alloc, source) {
        Ok(_) => None,
        Err(end) => Some(end),
    }
}

/// The first request of the bytes, and what comes after it.
fn first(alloc: Global, most: usize, text: &str) -> Result<String, AllocError>
    requires { 0 < most }
{
    let mut source = source_of(alloc, text, most)?;
    let mut reader = Reader::new(alloc)?;
    first_of(alloc, &mut reader, &mut source)
}

/// The next request.
fn next_request(
    alloc: Global,
    reader: &mut Reader,
    source: &mut MemSource,
) -> Result<String, AllocError> {
    match reader.next_message(alloc, source) {
        Ok(request) => request_line(alloc, &request),
        Err(_) => Err(AllocError),
    }
}

/// The next request, and where no other follows, why.
fn first_of(
    alloc: Global,
    reader: &mut Reader,
    source: &mut MemSource,
) -> Result<String, AllocError> {
    let line = next_request(alloc, reader, source)?;
    match end_of(alloc, reader, source) {
        None => Ok(line),
        Some(end) => format!(in alloc; "{line} {end:?}"),
    }
}

fn request_line(alloc: Global, request: &Incoming) -> Result<String, AllocError> {
    let mut line = Line::new(alloc);
    line.debug("", &request.method);
    line.push(" ");
    line.push(request.path.as_str());
    put_params(&mut line, &request.params);
    line.push(" ");
    line.push(std::str::from_utf8(request.body.as_slice()).unwrap_or("?"));
    line.put(" encoded=", &request.encoded);
    line.put(" lengthless=", &request.lengthless);
    line.put(" close=", &request.close);
    line.end()
}

/// The parameters, each after a space.
fn put_params(line: &mut Line, params: &List<Param>) {
    for param in params {
        line.push(" ");
        line.push(param.name.as_str());
        line.push("=");
        line.push(param.value.as_str());
    }
}

/// The bytes of a reply, and in how many writes. One of the status 413 closes the connection.
fn reply(alloc: Global, status: u16, body: &str) -> Result<String, AllocError> {
    let mut sink = MemSink::new(alloc, List::new(alloc));
    let written = match status {
        200 => write_reply(&mut sink, 200, body.as_bytes(), false),
        413 => write_reply(&mut sink, 413, body.as_bytes(), true),
        _ => return Err(AllocError),
    };
    match written {
        Ok(()) => shown_reply(alloc, &sink),
        Err(_) => Err(AllocError),
    }
}

fn shown_reply(alloc: Global, sink: &MemSink) -> Result<String, AllocError> {
    let text = std::str::from_utf8(sink.bytes.as_slice()).unwrap_or("?");
    let shown = text.get(..200).unwrap_or(text);
    format!(in alloc; "{} writes, {} bytes: {shown}", sink.calls, text.len())
}
