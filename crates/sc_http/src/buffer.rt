ghost use Rattle.std.specs.Prelude.{◌≡◌, ◌<◌, ◌≤◌, ◌^◌, [], length, drop, IfOk, OnOk, OnErr, Err};
ghost use Rattle.sc_http.specs.Stream.{Gives, TakesMore, HasEnded};
ghost use Rattle.sc_io.specs.Counts.{CountsFaults};

use crate::head::MAX_HEAD;
use crate::refill::refill;
use crate::stopped::Stopped;
use sc_io::Source;
use std::alloc::{AllocError, Global};
use std::marker::Model;

/// The room with which a buffer begins, in bytes.
const FIRST_ROOM: usize = 4096;

/// The most room of a buffer: a head that is too large by one byte, and what a read may give besides.
pub(crate) const ROOM: usize = MAX_HEAD + 4096;

/// Bytes that were read and not yet given out.
#[derive(Drop)]
pub(crate) struct Buffer {
    bytes: Vec<u8>,
    /// The place of the first byte that was not given out.
    start: usize,
    /// The place after the last byte that was read.
    filled: usize,
}

impl Model for Buffer {
    ghost use Rattle.std.specs.Prelude.{List, ℕ, ◌≤◌, length, slice_range};

    ghost Value = { List ℕ };

    ghost view = { λ b. slice_range b.bytes.items b.start b.filled };

    ghost invariant = { λ b. (b.start ≤ b.filled) × (b.filled ≤ length b.bytes.items) };
}

impl Buffer {
    pub(crate) fn new(alloc: Global) -> Result<Buffer, AllocError>
        ensures { IfOk result (λ buffer. buffer ≡ []) }
    {
        Ok(Buffer {
            bytes: vec![in alloc; 0; FIRST_ROOM]?,
            start: 0,
            filled: 0,
        })
    }

    pub(crate) fn unread(&self) -> &[u8]
        ensures { result.now ≡ self.now }
    {
        &self.bytes[self.start..self.filled]
    }

    /// Gives out the first `count` bytes.
    pub(crate) fn give(&mut self, count: usize)
        requires { count ≤ length self.old }
        ensures { self.new ≡ drop count self.old }
    {
        self.start += count;
        if self.start == self.filled {
            self.start = 0;
            self.filled = 0;
        }
    }

    /// Reads the next bytes after those that are there, up to `limit` in all. What is left of earlier bytes is moved to
    /// the first places before that.
    pub(crate) fn fill<S: Source>(&mut self, source: &mut S, limit: usize) -> Result<(), Stopped>
        requires below { length self.old < limit }
        requires small { limit ≤ 2 ^ 32 }
        ensures grows { OnOk result (TakesMore self.old self.new (S.rest source.old) (S.rest source.new)) }
        ensures bounded { OnOk result (length self.new ≤ limit) }
        ensures kept { OnErr result (self.new ≡ self.old) }
        ensures stays { OnErr result (Gives [] (S.rest source.old) (S.rest source.new)) }
        ensures ended { result ≡ Err Stopped.Ended → HasEnded (S.rest source.old) (S.rest source.new) }
        ensures faults { CountsFaults (result ≡ Err Stopped.Failed) (S.faults source.old) (S.faults source.new) }
    {
        if self.start > 0 {
            self.bytes.copy_within(self.start..self.filled, 0);
            self.filled -= self.start;
            self.start = 0;
        }
        self.filled = refill(&mut self.bytes, self.filled, limit, source)?;
        Ok(())
    }
}
