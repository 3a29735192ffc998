ghost use Rattle.std.specs.Prelude.{◌≡◌, ◌≢◌, ◌+◌, ◌^◌, ◌<◌, ◌≤◌, [], ◌∷◌, ◌++◌, length, map, Some, None, Err, IsSome, IsErr, OnOk, OnErr, IfSome};
ghost use Rattle.sc_io.specs.Counts.{CountsFaults};
ghost use Rattle.sc_files.specs.States.{LeavesOnly, AreAmong};
ghost use Rattle.sc_tail.specs.Frames.{opened};
ghost use Rattle.sc_tail.specs.Files.{Behind, IsShut, IsWhole, behind_mark, OpensToEither};
ghost use Rattle.sc_tail.specs.Tails.{bodies_of, staged_of, IsTail};
ghost use Rattle.sc_tail.specs.declared.fault.TailFault.TheVariants as faults;

use crate::fault::TailFault;
use http_server::Log;
use sc_files::LogFile;
use sc_io::Failed;
use sc_record::List;
use std::mem;

// From so many bytes on no frame is appended: 2^62.
const MOST: u64 = 0x4000_0000_0000_0000;

/// A file with the frames that it holds. `end` is the place, in bytes, of the mark that isn't open; `half` tells that an append failed
/// while it wrote that mark, and the length of its body, which stands behind the mark.
#[derive(Drop)]
pub struct Tail<F: LogFile> {
    pub file: F,
    pub end: u64,
    pub half: Option<u64>,
    /// The bodies of the frames, which proofs alone read.
    pub bodies: Log<List<u8>, ()>,
    /// The same and the half one's.
    pub staged: Log<List<u8>, ()>,
}

impl<F: LogFile> Tail<F> {
    /// A file whose frames, of these bodies, end at this place in a closed mark: one that was read and closed, or begun anew.
    pub fn new(file: F, end: u64, bodies: Log<List<u8>, ()>) -> Tail<F>
        requires { IsWhole (F.state file) end (map (λ one. one.0) bodies.items) }
        ensures sound { IsTail F.state result }
        ensures whole { result.half ≡ None }
        ensures end { result.end ≡ end }
        ensures file { result.file ≡ file }
        ensures bodies { result.bodies.items ≡ bodies.items }
    {
        Tail {
            file,
            end,
            half: None,
            bodies,
            staged: Log::new(),
        }
    }

    /// Gives the file.
    pub fn into_file(self) -> F
        ensures { result ≡ self.file }
    {
        let Tail { file, .. } = self;
        file
    }

    /// Appends a frame of this body: length, body and a closed mark behind the mark, then the mark, with a sync after each. After a
    /// failure before the mark the next append begins again; after one at the mark there is a half frame, and `finish` alone may be
    /// called. All that was written since the last sync that succeeded is written again before the next: a sync that failed may have
    /// lost it for good.
    pub fn append(&mut self, body: &List<u8>) -> Result<(), TailFault>
        requires sound { IsTail F.state self.old }
        requires whole { self.old.half ≡ None }

        ensures sound { IsTail F.state self.new }
        ensures appended { OnOk result (bodies_of self.new ≡ bodies_of self.old ++ body.now ∷ []) }
        ensures whole { OnOk result (self.new.half ≡ None) }
        ensures crash { OnOk result (AreAmong (F.state self.new.file).may_leave (λ c. opened c ≡ bodies_of self.old ++ body.now ∷ [])) }
        ensures refused { OnErr result (bodies_of self.new ≡ bodies_of self.old) }
        ensures half { IsSome self.new.half → staged_of self.new ≡ bodies_of self.old ++ body.now ∷ [] }

        // A crash at any moment of the call leaves the bodies from before it, with the new one or without.
        ensures any_moment { LeavesOnly (F.state self.old.file) (F.state self.new.file)
            (OpensToEither (bodies_of self.old) (bodies_of self.old ++ body.now ∷ [])) }

        ensures cause { CountsFaults (result ≡ Err faults.Failed) (F.state self.old.file).faults (F.state self.new.file).faults }
        ensures full { result ≡ Err faults.Full → 2 ^ 62 ≤ self.old.end }
    {
        if self.end >= MOST {
            return Err(TailFault::Full);
        }
        let bytes = body.as_slice();
        self.stage(bytes)?;
        self.staged = self.bodies.and(body, &());
        self.half = Some(bytes.len() as u64);
        self.finish()?;
        Ok(())
    }

    // Writes the length, the body and a closed mark behind the mark, and waits until they are on the disk.
    fn stage(&mut self, body: &[u8]) -> Result<(), Failed>
        requires sound { IsWhole (F.state self.old.file) self.old.end (bodies_of self.old) }
        requires room { self.old.end < 2 ^ 62 }

        ensures rest { (file : _) × (self.new ≡ record self.old { file = file }) }
        ensures seen { OnOk result (IfSome (F.state self.new.file).seen (Behind (bodies_of self.old) IsShut (behind_mark body.now))) }
        ensures crash { OnOk result (AreAmong (F.state self.new.file).may_leave (Behind (bodies_of self.old) IsShut (behind_mark body.now))) }
        ensures kept { OnOk result (AreAmong (F.state self.new.file).kept (Behind (bodies_of self.old) IsShut (behind_mark body.now))) }
        ensures room { OnOk result (self.old.end + (9 + length body.now) < 2 ^ 64) }
        ensures refused { OnErr result (IsWhole (F.state self.new.file) self.old.end (bodies_of self.old)) }
        ensures any_moment { LeavesOnly (F.state self.old.file) (F.state self.new.file) (λ c. opened c ≡ bodies_of self.old) }
        ensures cause { CountsFaults (IsErr result) (F.state self.old.file).faults (F.state self.new.file).faults }
    {
        let len = body.len() as u64;
        self.file.write(self.end + 1, &len.to_le_bytes())?;
        self.file.write(self.end + 9, body)?;
        self.file.write(self.end + 9 + len, &[0])?;
        self.file.sync()?;
        Ok(())
    }

    /// Opens the frame that an append left half done, by its mark alone: the mark may be open on the disk already, so nothing behind it
    /// is written.
    pub fn finish(&mut self) -> Result<(), Failed>
        requires sound { IsTail F.state self.old }
        requires half { IsSome self.old.half }

        ensures sound { IsTail F.state self.new }
        ensures appended { OnOk result (bodies_of self.new ≡ staged_of self.old) }
        ensures whole { OnOk result (self.new.half ≡ None) }
        ensures crash { OnOk result (AreAmong (F.state self.new.file).may_leave (λ c. opened c ≡ staged_of self.old)) }
        ensures refused { OnErr result ((file : _) × (self.new ≡ record self.old { file = file })) }
        ensures any_moment { LeavesOnly (F.state self.old.file) (F.state self.new.file)
            (OpensToEither (bodies_of self.old) (staged_of self.old)) }
        ensures cause { CountsFaults (IsErr result) (F.state self.old.file).faults (F.state self.new.file).faults }
    {
        let len = self.half.unwrap();
        self.file.write(self.end, &[1])?;
        self.file.sync()?;
        self.end += 9 + len;
        self.half = None;
        self.bodies = mem::replace(&mut self.staged, Log::new());
        Ok(())
    }
}
