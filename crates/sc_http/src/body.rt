ghost use Rattle.std.specs.Prelude.{◌≡◌, ◌≤◌, ◌⊎◌, ◌++◌, length, max, IfOk, IfErr, OnOk, OnErr, Err, IfSome};
ghost use Rattle.sc_http.specs.Bodies.{HasNoBody, EndsBody, GivesBody, LacksBody};
ghost use Rattle.sc_http.specs.Ends.{ending_of};
ghost use Rattle.sc_http.specs.Lines.{framing_said, IsWithinBody};
ghost use Rattle.sc_http.specs.Stream.{LeavesSuffix, ReadsWhile, reader_limit};
ghost use Rattle.sc_io.specs.Counts.{CountsFaults};

use crate::buffer::Buffer;
use crate::chunked::read_chunked;
use crate::end::MessageEnd;
use crate::framing::Framing;
use crate::stated::read_stated;
use sc_io::Source;
use std::alloc::Global;

/// The body that comes next, by its framing.
pub(crate) fn read_body<S: Source>(
    alloc: Global,
    buffer: &mut Buffer,
    source: &mut S,
    framing: Framing,
) -> Result<Vec<u8>, MessageEnd>
    requires { IsWithinBody framing }
    ensures body { IfOk result (λ body. GivesBody (framing_said framing) body.items buffer.new buffer.old (S.rest source.old) (S.rest source.new)) }
    ensures needed { OnOk result ((source.new ≡ source.old)
        ⊎ ReadsWhile (λ before. HasNoBody (framing_said framing) (buffer.old ++ before)) (S.rest source.old) (S.rest source.new)) }
    ensures bounded { length buffer.new ≤ max (length buffer.old) reader_limit }
    ensures ends { IfErr result (λ end. IfSome (ending_of end) (λ ending. IfSome (S.rest source.old)
        (λ bytes. EndsBody (framing_said framing) (buffer.old ++ bytes) ending))) }
    ensures unfinished { result ≡ Err MessageEnd.ReadFault → LacksBody (framing_said framing) buffer.old (S.rest source.old) (S.rest source.new) }
    ensures order { OnErr result (LeavesSuffix buffer.new buffer.old (S.rest source.old) (S.rest source.new)) }
    ensures faults { CountsFaults (result ≡ Err MessageEnd.ReadFault) (S.faults source.old) (S.faults source.new) }
{
    match framing {
        Framing::OfLength(whole) => match read_stated(alloc, buffer, source, whole) {
            Ok(body) => Ok(body),
            Err(stopped) => Err(stopped.in_body()),
        },
        Framing::Chunked => read_chunked(alloc, buffer, source),
    }
}
