ghost use Rattle.std.specs.Prelude.{◌≡◌, ◌<◌, ◌≤◌, ◌+◌, ◌^◌, length, take, vec_len, max, IfOk, OnOk, OnErr, Err, []};
ghost use Rattle.sc_http.specs.Stream.{Gives, TakesMore, FillsMore, KeepsFilled, HasEnded};
ghost use Rattle.sc_io.specs.Counts.{CountsFaults};

use crate::stopped::Stopped;
use sc_io::Source;
use std::alloc::AllocError;

/// The least room that is made for a read, in bytes.
const LEAST_ROOM: usize = 4096;

/// Reads the next bytes into `bytes` after its first `filled`, and answers how many are filled then. The room grows by
/// at most doubling, and not beyond `limit`.
pub(crate) fn refill<S: Source>(
    bytes: &mut Vec<u8>,
    filled: usize,
    limit: usize,
    source: &mut S,
) -> Result<usize, Stopped>
    requires within { filled ≤ vec_len bytes.old }
    requires below { filled < limit }
    requires small { limit ≤ 2 ^ 32 }
    ensures grows { IfOk result (λ now. TakesMore (take filled bytes.old.items) (take now bytes.new.items) (S.rest source.old) (S.rest source.new)) }
    ensures fills { IfOk result (FillsMore filled limit bytes.new.items) }
    ensures room { KeepsFilled filled limit bytes.old.items bytes.new.items }
    ensures stays { OnErr result (Gives [] (S.rest source.old) (S.rest source.new)) }
    ensures ended { result ≡ Err Stopped.Ended → HasEnded (S.rest source.old) (S.rest source.new) }
    ensures faults { CountsFaults (result ≡ Err Stopped.Failed) (S.faults source.old) (S.faults source.new) }
{
    if filled == bytes.len() {
        make_room(bytes, limit)?;
    }
    let end = bytes.len().min(limit);
    match source.read(&mut bytes[filled..end]) {
        Ok(0) => Err(Stopped::Ended),
        Ok(count) => Ok(filled + count),
        Err(_) => Err(Stopped::Failed),
    }
}

/// Makes the vector longer, to twice its length where `limit` allows that. What it has stays its prefix.
fn make_room(bytes: &mut Vec<u8>, limit: usize) -> Result<(), AllocError>
    requires below { vec_len bytes.old < limit }
    requires small { limit ≤ 2 ^ 32 }
    ensures longer { vec_len bytes.old ≤ vec_len bytes.new }
    ensures room { OnOk result (vec_len bytes.old < vec_len bytes.new) }
    ensures bounded { vec_len bytes.new ≤ limit }
    ensures kept { take (vec_len bytes.old) bytes.new.items ≡ bytes.old.items }
{
    let len = bytes.len();
    let more = len.max(LEAST_ROOM).min(limit - len);
    bytes.reserve_exact(more)?;
    let mut left = more;
    'zeros: while left > LEAST_ROOM {
        bytes.extend_from_slice(&[0; LEAST_ROOM])?;
        left -= LEAST_ROOM;
    }
    bytes.extend_from_slice(&[0; LEAST_ROOM][..left])
}
