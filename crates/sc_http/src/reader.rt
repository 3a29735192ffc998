ghost use Rattle.std.specs.Prelude.{◌≡◌, ◌≢◌, ◌≤◌, ◌⊎◌, [], ◌++◌, length, max, fold, IfOk, OnOk, IfErr, IfSome, OnErr, Err, IsSome};
ghost use Rattle.sc_model.specs.Messages.{ReadsMessage, HasNoMessage, EndsSo};
ghost use Rattle.sc_http.specs.Ends.{ending_of};
ghost use mathlib.Core.List.{IsSuffix};
ghost use Rattle.sc_http.specs.Stream.{KeepsBytes, HasEnded, HasNoMessageBefore, ReadsWhile, reader_limit};
ghost use Rattle.sc_http.specs.HeadEnd.{next_progress, IsJudged};
ghost use Rattle.sc_http.specs.Lines.{IsHeadOf, IsWithinBody};
ghost use Rattle.sc_io.specs.Counts.{CountsFaults};

use crate::body::read_body;
use crate::buffer::{Buffer, ROOM};
use crate::end::MessageEnd;
use crate::head::{Head, MAX_HEAD, parse_head};
use crate::head_end::HeadProgress;
use crate::stopped::Stopped;
use sc_io::Source;
use sc_model::{Bytes, Incoming};
use std::alloc::{AllocError, Global};
use std::marker::Model;

/// Reads the requests of a connection, one after another. Contracts see the bytes that it took from
/// its source and has not given out as part of a request.
#[derive(Drop)]
pub struct Reader {
    buffer: Buffer,
}

impl Model for Reader {
    ghost use Rattle.std.specs.Prelude.{List, ℕ};

    ghost Value = { List ℕ };

    ghost view = { λ r. r.buffer };
}

impl Reader {
    pub fn new(alloc: Global) -> Result<Reader, AllocError>
        ensures { IfOk result (λ reader. reader ≡ []) }
    {
        Ok(Reader {
            buffer: Buffer::new(alloc)?,
        })
    }

    /// The next request: its head, within 65,536 bytes and 128 header lines, and the body whose length the head states, or
    /// that comes in chunks, at most 16,777,216 bytes (RFC 9112, sections 2 to 7). Empty lines before it belong to it. A request that has
    /// come is given out without another read. After an error the connection is at its end: what was taken of a request
    /// that is not whole may be gone.
    pub fn next_message<S: Source>(
        &mut self,
        alloc: Global,
        source: &mut S,
    ) -> Result<Incoming, MessageEnd>
        ensures message { IfOk result (λ request. IfSome (S.rest source.old) (λ bytes. IfSome (S.rest source.new)
            (λ more. ReadsMessage (self.old ++ bytes) request (self.new ++ more)))) }
        ensures needed { OnOk result ((source.new ≡ source.old)
            ⊎ ReadsWhile (λ before. HasNoMessage (self.old ++ before)) (S.rest source.old) (S.rest source.new)) }
        ensures bounded { length self.new ≤ max (length self.old) reader_limit }
        ensures ends { IfErr result (λ end. IfSome (ending_of end) (λ ending. IfSome (S.rest source.old)
            (λ bytes. EndsSo (self.old ++ bytes) ending))) }
        ensures faults { CountsFaults (result ≡ Err MessageEnd.ReadFault) (S.faults source.old) (S.faults source.new) }
        ensures unfinished { result ≡ Err MessageEnd.ReadFault → IfSome (S.rest source.old) (λ bytes. IfSome (S.rest source.new)
            (λ more. HasNoMessageBefore more (self.old ++ bytes))) }
        ensures order { OnErr result (IfSome (S.rest source.old) (λ bytes. IfSome (S.rest source.new)
            (λ more. IsSuffix (self.new ++ more) (self.old ++ bytes)))) }
        ensures reports { IsSome (S.rest source.old) → IsSome (S.rest source.new) }
    {
        let head = read_head(alloc, &mut self.buffer, source)?;
        self.buffer.give(head.size);
        let body = read_body(alloc, &mut self.buffer, source, head.framing)?;
        let Head {
            method,
            path,
            params,
            encoded,
            lengthless,
            close,
            framing: _,
            size: _,
        } = head;
        Ok(Incoming {
            method,
            path,
            params,
            body: Bytes::from_vec(body),
            encoded,
            lengthless,
            close,
        })
    }
}

/// The head that comes next, which stays in the buffer.
fn read_head<S: Source>(
    alloc: Global,
    buffer: &mut Buffer,
    source: &mut S,
) -> Result<Head, MessageEnd>
    ensures gives { KeepsBytes [] buffer.new buffer.old (S.rest source.old) (S.rest source.new) }
    ensures head { IfOk result (IsHeadOf buffer.new) }
    ensures needed { (source.new ≡ source.old)
        ⊎ ReadsWhile (λ before. HasNoMessage (buffer.old ++ before)) (S.rest source.old) (S.rest source.new) }
    ensures bounded { length buffer.new ≤ max (length buffer.old) reader_limit }
    ensures body { IfOk result (λ head. IsWithinBody head.framing) }
    ensures ends { IfErr result (λ end. IfSome (ending_of end) (λ ending. IfSome (S.rest source.old) (λ bytes.
        EndsSo (buffer.old ++ bytes) ending))) }
    ensures unfinished { result ≡ Err MessageEnd.ReadFault → HasNoMessage buffer.new }
    ensures faults { CountsFaults (result ≡ Err MessageEnd.ReadFault) (S.faults source.old) (S.faults source.new) }
{
    match await_head(buffer, source) {
        Ok(()) => parse_head(alloc, buffer.unread()),
        Err(Stopped::Ended) => parse_head(alloc, buffer.unread()),
        Err(Stopped::Failed) => Err(MessageEnd::ReadFault),
        Err(Stopped::Memory) => Err(MessageEnd::Memory),
    }
}

/// Reads until the end of a head has come, or more bytes than a head may have.
fn await_head<S: Source>(buffer: &mut Buffer, source: &mut S) -> Result<(), Stopped>
    ensures gives { KeepsBytes [] buffer.new buffer.old (S.rest source.old) (S.rest source.new) }
    ensures ready { OnOk result (IsJudged buffer.new) }
    ensures needed { (source.new ≡ source.old)
        ⊎ ReadsWhile (λ before. HasNoMessage (buffer.old ++ before)) (S.rest source.old) (S.rest source.new) }
    ensures bounded { length buffer.new ≤ max (length buffer.old) reader_limit }
    ensures waiting { OnErr result (fold next_progress HeadProgress.Before buffer.new ≢ HeadProgress.End) }
    ensures ended { result ≡ Err Stopped.Ended → HasEnded (S.rest source.old) (S.rest source.new) }
    ensures faults { CountsFaults (result ≡ Err Stopped.Failed) (S.faults source.old) (S.faults source.new) }
{
    let mut progress = HeadProgress::Before;
    let mut searched = 0;
    loop {
        let unread = buffer.unread();
        progress = progress.after(&unread[searched..]);
        searched = unread.len();
        if progress.is_end() || searched > MAX_HEAD {
            return Ok(());
        }
        buffer.fill(source, ROOM)?;
    }
}
