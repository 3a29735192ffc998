ghost use Rattle.std.specs.Prelude.{◌≡◌, ◌≢◌, ◌<◌, ◌≤◌, ◌⊎◌, ◌^◌, [], ◌++◌, length, vec_len, IfOk, IfErr, OnOk, OnErr, Err};
ghost use Rattle.sc_http.specs.Stream.{KeepsBytes, FallsShort, HasEnded, LeavesSuffix, ReadsWhile};
ghost use Rattle.sc_io.specs.Counts.{CountsFaults};

use crate::buffer::Buffer;
use crate::refill::refill;
use crate::stopped::Stopped;
use sc_io::Source;
use std::alloc::Global;

/// The next `whole` bytes: what the buffer has of them is copied once, and the rest is read to its place.
pub(crate) fn read_stated<S: Source>(
    alloc: Global,
    buffer: &mut Buffer,
    source: &mut S,
    whole: usize,
) -> Result<Vec<u8>, Stopped>
    requires { whole ≤ 2 ^ 32 }
    ensures body { IfOk result (λ body. KeepsBytes body.items buffer.new buffer.old (S.rest source.old) (S.rest source.new)) }
    ensures whole { IfOk result (λ body. vec_len body ≡ whole) }
    ensures needed { OnOk result ((source.new ≡ source.old)
        ⊎ ReadsWhile (λ before. length (buffer.old ++ before) < whole) (S.rest source.old) (S.rest source.new)) }
    ensures shorter { length buffer.new ≤ length buffer.old }
    ensures order { OnErr result (LeavesSuffix buffer.new buffer.old (S.rest source.old) (S.rest source.new)) }
    ensures short { IfErr result (λ e. e ≢ Stopped.Memory → FallsShort buffer.old whole (S.rest source.old) (S.rest source.new)) }
    ensures ended { result ≡ Err Stopped.Ended → HasEnded (S.rest source.old) (S.rest source.new) }
    ensures faults { CountsFaults (result ≡ Err Stopped.Failed) (S.faults source.old) (S.faults source.new) }
{
    let have = buffer.unread().len();
    let Ok(mut body) = Vec::from_slice(alloc, &buffer.unread()[..have.min(whole)]) else {
        return Err(Stopped::Memory);
    };
    buffer.give(have.min(whole));
    if have < whole {
        read_rest(&mut body, source, whole)?;
    }
    Ok(body)
}

/// Reads after what the body has until it is whole.
fn read_rest<S: Source>(body: &mut Vec<u8>, source: &mut S, whole: usize) -> Result<(), Stopped>
    requires fits { vec_len body.old ≤ whole }
    requires small { whole ≤ 2 ^ 32 }
    ensures body { OnOk result (KeepsBytes body.new.items [] body.old.items (S.rest source.old) (S.rest source.new)) }
    ensures whole { OnOk result (vec_len body.new ≡ whole) }
    ensures needed { OnOk result ((source.new ≡ source.old)
        ⊎ ReadsWhile (λ before. length (body.old.items ++ before) < whole) (S.rest source.old) (S.rest source.new)) }
    ensures short { OnErr result (FallsShort body.old.items whole (S.rest source.old) (S.rest source.new)) }
    ensures ended { result ≡ Err Stopped.Ended → HasEnded (S.rest source.old) (S.rest source.new) }
    ensures faults { CountsFaults (result ≡ Err Stopped.Failed) (S.faults source.old) (S.faults source.new) }
{
    let mut filled = body.len();
    while filled < whole {
        filled = refill(body, filled, whole, source)?;
    }
    Ok(())
}
