ghost use Rattle.std.specs.Prelude.{◌≡◌, ◌+◌, ◌-◌, ◌/◌, ◌^◌, ◌<◌, ◌≤◌, List, [], ◌++◌, Some, None, length, take, min, ⊤, IfOk, IfSome, OnOk, OnErr};
ghost use Rattle.std.specs.Duration.{as_nanos};
ghost use Rattle.sc_io.specs.Pieces.{AddsPrefix, TakesPrefix};

use crate::clock::Clock;
use crate::fault::{Failed, Faults};
use crate::sink::Sink;
use crate::source::Source;
use std::io::{ErrorKind, Read, Write};
use std::rt;
use std::time::{Duration, SystemTime};

/// A reader of the machine's, as standard input. A read that was interrupted or refused has failed, and
/// may be made again. It reads straight into the caller's buffer, and keeps nothing back.
///
/// As a source it reports no bytes: std does not say that a reader that reports none goes on so after a failed read.
/// What `read` takes from a reader that reports its bytes is said by clauses of its own.
#[derive(Drop)]
pub struct StdSource<I: Read> {
    pub input: I,
    pub faults: Faults,
}

impl<I: Read> StdSource<I> {
    pub fn new(input: I) -> StdSource<I>
        ensures input { result.input ≡ input }
        ensures faults { result.faults ≡ 0 }
    {
        StdSource {
            input,
            faults: Faults::none(),
        }
    }
}

impl<I: Read> Source for StdSource<I> {
    ghost rest = { λ _. None };

    ghost faults = { λ s. s.faults };

    fn read(&mut self, into: &mut [u8]) -> Result<usize, Failed>
        requires { 0 < length into.old }
        ensures bounded { IfOk result (λ n. n ≤ length into.new) }
        ensures taken { IfOk result (λ n. IfSome (I.remaining self.old.input)
            (λ bytes. TakesPrefix (take n into.new) bytes (I.remaining self.new.input))) }
        ensures end { result ≡ Ok 0 → IfSome (I.remaining self.old.input) (λ bytes. bytes ≡ []) }
        ensures failed { OnErr result (IfSome (I.remaining self.old.input) (λ bytes. I.remaining self.new.input ≡ Some bytes)) }
        ensures steady { OnOk result (self.new.faults ≡ self.old.faults) }
        ensures cause { OnErr result (self.new.faults ≡ self.old.faults + 1) }
    {
        match self.input.read(into) {
            Ok(count) => Ok(count),
            Err(_) => {
                self.faults.rise();
                Err(Failed)
            }
        }
    }
}

/// How many interrupted tries a write of one piece may have.
const MAX_INTERRUPTS: usize = 64;

/// A writer of the machine's, as standard output. A write that has returned stands in no buffer of its
/// own: whoever reads at the other end of a pipe can see it.
#[derive(Drop)]
pub struct StdSink<O: Write> {
    pub output: O,
    pub faults: Faults,
}

impl<O: Write> StdSink<O> {
    pub fn new(output: O) -> StdSink<O>
        ensures output { result.output ≡ output }
        ensures faults { result.faults ≡ 0 }
    {
        StdSink {
            output,
            faults: Faults::none(),
        }
    }
}

impl<O: Write> Sink for StdSink<O> {
    ghost written = { λ s. O.contents s.output };

    ghost faults = { λ s. s.faults };

    ghost calls = { λ _. 0 };

    fn write(&mut self, piece: &[u8]) -> Result<(), Failed>
        ensures whole { OnOk result (IfSome (O.contents self.old.output)
            (λ bytes. O.contents self.new.output ≡ Some (bytes ++ piece.now))) }
        ensures failed { OnErr result (IfSome (O.contents self.old.output)
            (λ bytes. AddsPrefix bytes piece.now (O.contents self.new.output))) }
        ensures steady { OnOk result (self.new.faults ≡ self.old.faults) }
        ensures cause { OnErr result (self.new.faults ≡ self.old.faults + 1) }
    {
        let written = write_whole(&mut self.output, piece);
        if written.is_err() {
            self.faults.rise();
        }
        written
    }
}

// Writes the piece in as many writes as the writer needs, and tries again where one was interrupted.
fn write_whole<O: Write>(output: &mut O, piece: &[u8]) -> Result<(), Failed>
    ensures whole { OnOk result (IfSome (O.contents output.old) (λ bytes. O.contents output.new ≡ Some (bytes ++ piece.now))) }
    ensures failed { OnErr result (IfSome (O.contents output.old) (λ bytes. AddsPrefix bytes piece.now (O.contents output.new))) }
{
    let mut done = 0;
    for _ in 0..piece.len().saturating_add(MAX_INTERRUPTS) {
        if done == piece.len() {
            return Ok(());
        }
        match output.write(&piece[done..]) {
            Ok(0) => return Err(Failed),
            Ok(count) => done += count,
            Err(error) if error.kind() == ErrorKind::Interrupted => {}
            Err(_) => return Err(Failed),
        }
    }
    if done == piece.len() {
        Ok(())
    } else {
        Err(Failed)
    }
}

/// The machine's clock: milliseconds since 1970-01-01 00:00 UTC, and 0 where it can't be read or
/// is set before that.
#[derive(Drop)]
pub struct MachineClock<R: rt::Clock> {
    pub runtime: R,
}

impl<R: rt::Clock> MachineClock<R> {
    pub fn new(runtime: R) -> MachineClock<R>
        ensures { result.runtime ≡ runtime }
    {
        MachineClock { runtime }
    }
}

impl<R: rt::Clock> Clock for MachineClock<R> {
    ghost gives = { λ _ _ _. ⊤ };

    fn now(&mut self) -> u64 {
        match SystemTime::now(&self.runtime) {
            Ok(time) => match time.duration_since(SystemTime::UNIX_EPOCH) {
                Ok(since) => milliseconds(since),
                Err(_) => 0,
            },
            Err(_) => 0,
        }
    }
}

// A time of more milliseconds than 64 bits hold is read as the greatest that they do.
fn milliseconds(since: Duration) -> u64
    ensures { result ≡ min (as_nanos since / 1_000_000) (2 ^ 64 - 1) }
{
    u64::try_from(since.as_millis()).unwrap_or(u64::MAX)
}
