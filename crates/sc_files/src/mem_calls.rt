ghost use Rattle.std.specs.Prelude.{◌≡◌, ◌↔◌, ◌+◌, ◌-◌, ◌^◌, ◌<◌, ◌≤◌, [], ◌∷◌, ◌++◌, length, take, drop, min, IfOk, IsErr, IsTrue, OnOk, OnErr, Contains, if◌then◌else◌};
ghost use Rattle.sc_files.specs.Memory.{memory_state, overwritten, now_counts, now_only};
ghost use Rattle.sc_files.specs.declared.mem_file.Call.TheVariants as call;

use crate::file::LogFile;
use crate::mem_file::{Call, MemFile};
use sc_io::{Failed, Faults};
use sc_record::List;
use std::alloc::{AllocError, Global};

// The bytes with others over them from a place on.
pub(crate) fn write_over(
    alloc: Global,
    old: &[u8],
    at: usize,
    bytes: &[u8],
) -> Result<List<u8>, AllocError>
    requires { at ≤ length old.now }
    ensures { IfOk result (λ new. new ≡ overwritten old.now at bytes.now) }
{
    let mut new = old[..at].to_vec(alloc)?;
    new.extend_from_slice(bytes)?;
    if bytes.len() < old.len() - at {
        new.extend_from_slice(&old[at + bytes.len()..])?;
    }
    Ok(List::from_vec(new))
}

impl MemFile {
    // Counts a call, and says whether it is to fail.
    fn is_to_fail(&mut self) -> bool
        ensures fails { IsTrue result ↔ Contains self.old.fails self.old.calls }
        ensures counted { self.new ≡ record self.old { calls = min (self.old.calls + 1) (2 ^ 64 - 1) } }
    {
        let call = self.calls;
        self.calls = call.saturating_add(1);
        self.fails.as_slice().contains(&call)
    }

    // Counts a failure.
    fn failed<T>(&mut self) -> Result<T, Failed>
        ensures failed { IsErr result }
        ensures counted { self.new ≡ record self.old { faults = self.old.faults + 1 } }
    {
        self.faults.rise();
        Err(Failed)
    }

    // Writes, where that is to be done, and notes the call. Where there is no memory nothing changes.
    fn note_write(&mut self, at: usize, bytes: &[u8], done: bool) -> Result<(), AllocError>
        requires { at ≤ length self.old.bytes }
        ensures ok { OnOk result (self.new ≡ record self.old {
          bytes = if done then overwritten self.old.bytes at bytes.now else self.old.bytes;
          history = self.old.history ++ call.Write at bytes.now done ∷ [];
        }) }
        ensures err { OnErr result (self.new ≡ self.old) }
    {
        let next = write_over(self.alloc, self.bytes.as_slice(), at, bytes)?;
        let bytes = List::from_vec(bytes.to_vec(self.alloc)?);
        self.history.push(Call::Write { at, bytes, done })?;
        if done {
            self.bytes = next;
        }
        Ok(())
    }

    // Cuts, where that is to be done, and notes the call. Where there is no memory nothing changes.
    fn note_cut(&mut self, len: usize, done: bool) -> Result<(), AllocError>
        requires { len ≤ length self.old.bytes }
        ensures ok { OnOk result (self.new ≡ record self.old {
          bytes = if done then take len self.old.bytes else self.old.bytes;
          history = self.old.history ++ call.Cut len done ∷ [];
        }) }
        ensures err { OnErr result (self.new ≡ self.old) }
    {
        let next = List::from_vec(self.bytes.as_slice()[..len].to_vec(self.alloc)?);
        self.history.push(Call::Cut { len, done })?;
        if done {
            self.bytes = next;
        }
        Ok(())
    }
}

impl LogFile for MemFile {
    ghost state = { memory_state };

    ghost counts_now = { λ file t c le now. now_counts file.first file.history t c le now };

    ghost only_now = { λ file c left. now_only file.first file.history c left };

    fn len(&mut self) -> Result<u64, Failed> {
        if self.is_to_fail() {
            return self.failed();
        }
        Ok(self.bytes.len() as u64)
    }

    fn read(&mut self, at: u64, into: &mut [u8]) -> Result<usize, Failed> {
        if self.is_to_fail() {
            return self.failed();
        }
        let bytes = self.bytes.as_slice();
        let from = bytes.len().min(at as usize);
        let count = (bytes.len() - from).min(into.len());
        into[..count].copy_from_slice(&bytes[from..from + count]);
        Ok(count)
    }

    fn write(&mut self, at: u64, bytes: &[u8]) -> Result<(), Failed> {
        let done = !self.is_to_fail();
        match self.note_write(at as usize, bytes, done) {
            Ok(()) if done => Ok(()),
            Ok(()) => self.failed(),
            Err(_) => self.failed(),
        }
    }

    fn cut(&mut self, len: u64) -> Result<(), Failed> {
        let done = !self.is_to_fail();
        match self.note_cut(len as usize, done) {
            Ok(()) if done => Ok(()),
            Ok(()) => self.failed(),
            Err(_) => self.failed(),
        }
    }

    fn sync(&mut self) -> Result<(), Failed> {
        let done = !self.is_to_fail();
        match self.history.push(Call::Sync { done }) {
            Ok(()) if done => Ok(()),
            Ok(()) => self.failed(),
            Err(_) => self.failed(),
        }
    }
}
