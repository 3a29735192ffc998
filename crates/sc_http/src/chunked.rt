ghost use Rattle.std.specs.Prelude.{◌≡◌, ◌≤◌, ◌⊎◌, ◌++◌, length, max, IfOk, IfErr, OnOk, OnErr, Err, IfSome};
ghost use Rattle.sc_model.specs.Heads.{chunked};
ghost use Rattle.sc_http.specs.Bodies.{HasNoBody, EndsBody, GivesBody, LacksBody};
ghost use Rattle.sc_http.specs.Ends.{ending_of, end_of_refusal};
ghost use Rattle.sc_http.specs.Stream.{LeavesSuffix, ReadsWhile, reader_limit};
ghost use Rattle.sc_io.specs.Counts.{CountsFaults};

use crate::buffer::{Buffer, ROOM};
use crate::end::MessageEnd;
use sc_chunks::{DecodeError, Decoder};
use sc_io::Source;
use std::alloc::Global;

/// The data of the chunked coding that comes next (RFC 9112, section 7.1). What is read of it is copied once, to the data.
pub(crate) fn read_chunked<S: Source>(
    alloc: Global,
    buffer: &mut Buffer,
    source: &mut S,
) -> Result<Vec<u8>, MessageEnd>
    ensures body { IfOk result (λ body. GivesBody chunked body.items buffer.new buffer.old (S.rest source.old) (S.rest source.new)) }
    ensures needed { OnOk result ((source.new ≡ source.old)
        ⊎ ReadsWhile (λ before. HasNoBody chunked (buffer.old ++ before)) (S.rest source.old) (S.rest source.new)) }
    ensures bounded { length buffer.new ≤ max (length buffer.old) reader_limit }
    ensures ends { IfErr result (λ end. IfSome (ending_of end) (λ ending. IfSome (S.rest source.old)
        (λ bytes. EndsBody chunked (buffer.old ++ bytes) ending))) }
    ensures unfinished { result ≡ Err MessageEnd.ReadFault → LacksBody chunked buffer.old (S.rest source.old) (S.rest source.new) }
    ensures order { OnErr result (LeavesSuffix buffer.new buffer.old (S.rest source.old) (S.rest source.new)) }
    ensures faults { CountsFaults (result ≡ Err MessageEnd.ReadFault) (S.faults source.old) (S.faults source.new) }
{
    let mut decoder = Decoder::new(alloc);
    loop {
        match decoder.take(buffer.unread()) {
            Ok(count) => buffer.give(count),
            Err(error) => return Err(end_of_refusal(error)),
        }
        if decoder.is_whole() {
            return Ok(decoder.into_data());
        }
        if let Err(stopped) = buffer.fill(source, ROOM) {
            return Err(stopped.in_body());
        }
    }
}

/// Why there is no request where chunks can't be decoded.
fn end_of_refusal(error: DecodeError) -> MessageEnd
    ensures { result ≡ end_of_refusal error }
{
    match error {
        DecodeError::Malformed => MessageEnd::BadHead,
        DecodeError::TooLarge => MessageEnd::TooLarge,
        DecodeError::Memory => MessageEnd::Memory,
    }
}
