//! `sc_io`: standard input and output and the machine's clock, with calls that fail.

ghost use Rattle.std.specs.Prelude.{◌<◌, length};

use crate::support::assert_same;
use sc_io::{Clock, MachineClock, Sink, Source, StdSink, StdSource};
use std::alloc::{AllocError, Global};
use std::io::{ErrorKind, Read, Write};
use std::process::Abort;
use std::test::Fail;
use std::time::Duration;
use std::{io, rt};

// What each of the next reads into this buffer gave: its bytes, or a `!` where it failed, and then a `|`.
fn reads<S: Source>(
    alloc: Global,
    source: &mut S,
    into: &mut [u8],
    times: usize,
) -> Result<Vec<u8>, AllocError>
    requires { 0 < length into.old }
{
    let mut given = Vec::new(alloc);
    for _ in 0..times {
        match source.read(into) {
            Ok(count) => given.extend_from_slice(&into[..count])?,
            Err(_) => given.push(b'!')?,
        }
        given.push(b'|')?;
    }
    Ok(given)
}

// Which of the pieces were written.
fn writes<W: Sink>(alloc: Global, sink: &mut W, pieces: &[&str]) -> Result<Vec<bool>, AllocError> {
    let mut written = Vec::new(alloc);
    for piece in pieces {
        written.push(sink.write(piece.as_bytes()).is_ok())?;
    }
    Ok(written)
}

fn timestamps<C: Clock>(clock: &mut C) -> [u64; 4] {
    [clock.now(), clock.now(), clock.now(), clock.now()]
}

// A machine whose clock shows so many nanoseconds since 1970, or can't be read.
#[derive(Drop)]
struct Watch(Option<u64>);

impl rt::Clock for Watch {
    fn monotonic(&self) -> io::Result<Duration> {
        Ok(Duration::ZERO)
    }

    fn since_1970(&self) -> io::Result<Duration> {
        match self.0 {
            Some(nanos) => Ok(Duration::from_nanos(nanos)),
            None => Err(io::Error::from(ErrorKind::Unsupported)),
        }
    }
}

// A clock over the machine shows this time, each time.
fn assert_shows(rt: &impl Abort, watch: Watch, want: u64) {
    assert_same(rt, timestamps(&mut MachineClock::new(&watch)), [want; 4]);
}

#[test]
fn the_machines_clock_shows_milliseconds_since_1970(rt: HostRuntime) {
    for (nanos, want) in [
        (Some(0), 0),
        (Some(999_999), 0),
        (Some(1_609_459_200_123_999_999), 1_609_459_200_123),
        (None, 0),
    ] {
        assert_shows(&rt, Watch(nanos), want);
    }
    // the real one stands after 2021, when this was written
    assert!(rt; MachineClock::new(&rt).now() > 1_609_459_200_000);
}

// An input of two pieces, with an interrupted read between them.
#[derive(Drop)]
struct Pipe {
    calls: u64,
}

impl Read for Pipe {
    fn read(&mut self, buf: &mut [u8]) -> io::Result<usize> {
        let call = self.calls;
        self.calls = call.saturating_add(1);
        let mut piece: &[u8] = match call {
            0 => b"abc",
            1 => return Err(io::Error::from(ErrorKind::Interrupted)),
            2 => b"de",
            _ => b"",
        };
        piece.read(buf)
    }
}

#[test]
fn standard_input_is_read_on_after_an_interrupted_read(rt: HostRuntime) -> Result<(), Fail> {
    let alloc = rt.alloc();
    let mut source = StdSource::new(Pipe { calls: 0 });
    let given = reads(alloc, &mut source, &mut [0; 3], 4)?;
    assert_same(&rt, given.as_slice(), b"abc|!|de||");
    assert_same(&rt, source.faults.count(), 1);
    Ok(())
}

// An output that takes two bytes at most, is interrupted at every other write, and refuses a line feed.
#[derive(Drop)]
struct Paper {
    written: Vec<u8>,
    calls: u64,
}

impl Write for Paper {
    fn write(&mut self, buf: &[u8]) -> io::Result<usize> {
        let call = self.calls;
        self.calls = call.saturating_add(1);
        if call % 2 == 0 {
            return Err(io::Error::from(ErrorKind::Interrupted));
        }
        let piece = &buf[..buf.len().min(2)];
        if piece.contains(&b'\n') {
            return Err(io::Error::from(ErrorKind::BrokenPipe));
        }
        self.written.extend_from_slice(piece)?;
        Ok(piece.len())
    }

    fn flush(&mut self) -> io::Result<()> {
        Ok(())
    }
}

#[test]
fn standard_output_is_given_the_whole_pieces(rt: HostRuntime) -> Result<(), Fail> {
    let alloc = rt.alloc();
    let mut sink = StdSink::new(Paper {
        written: Vec::new(alloc),
        calls: 0,
    });
    let written = writes(alloc, &mut sink, &["abc", "de\n", "", "fgh"])?;
    assert_same(&rt, written.as_slice(), &[true, false, true, true]);
    assert_same(&rt, sink.faults.count(), 1);
    assert_same(&rt, sink.output.written.as_slice(), b"abcdefgh");
    Ok(())
}
