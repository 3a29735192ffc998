ghost use Rattle.std.specs.Prelude.{◌≡◌, ◌+◌, ◌^◌, ◌<◌, ◌≤◌, true, false, [], ◌∷◌, ◌++◌, length, get_or, take, drop, Some, None, Ok, Err, IsErr, IfOk, IfSome, OnOk, OnErr};
ghost use Rattle.sc_io.specs.Counts.{CountsFaults};
ghost use Rattle.sc_files.specs.States.{IsFresh, IsDurable, Stays, LeavesOnly};
ghost use Rattle.std.specs.Int.{w64, to_le_bytes, from_le_bytes};
ghost use Rattle.sc_tail.specs.Frames.{opened};
ghost use Rattle.sc_tail.specs.Files.{IsShut, IsWhole, GoesOn};
ghost use Rattle.sc_tail.specs.Tails.{read_bodies, IsReading};
ghost use Rattle.sc_tail.specs.declared.fault.ReadFault.TheVariants as faults;

use crate::fault::ReadFault;
use http_server::Log;
use sc_files::LogFile;
use sc_io::Failed;
use sc_record::List;
use std::alloc::Global;

/// How far a file was read. `at` is the place after the frames that were read, `len` the length of the file, both in bytes.
#[derive(Drop)]
pub struct Reading {
    pub at: u64,
    pub len: u64,
    /// The bodies that were read, which proofs alone read.
    pub bodies: Log<List<u8>, ()>,
}

impl Reading {
    /// Begins to read a file of which no sync has failed. It waits until what a read gives is on the disk.
    pub fn begin<F: LogFile>(file: &mut F) -> Result<Reading, Failed>
        requires fresh { IsFresh (F.state file.old) }
        ensures reading { IfOk result (λ reading. IsReading (F.state file.new) reading) }
        ensures none { IfOk result (λ reading. read_bodies reading ≡ []) }
        ensures seen { (F.state file.new).seen ≡ (F.state file.old).seen }
        ensures fresh { OnOk result (IsFresh (F.state file.new)) }
        ensures durable { OnOk result (IsDurable (F.state file.new)) }
        ensures any_moment { LeavesOnly (F.state file.old) (F.state file.new) (F.state file.old).may_leave }
        ensures cause { CountsFaults (IsErr result) (F.state file.old).faults (F.state file.new).faults }
    {
        file.sync()?;
        let len = file.len()?;
        Ok(Reading {
            at: 0,
            len,
            bodies: Log::new(),
        })
    }

    /// The body of the next open frame; none where reading ends.
    pub fn next<F: LogFile>(
        &mut self,
        alloc: Global,
        file: &mut F,
    ) -> Result<Option<List<u8>>, ReadFault>
        requires reading { IsReading (F.state file.old) self.old }
        ensures reading { IsReading (F.state file.new) self.new }
        ensures body { IfOk result (λ found. IfSome found (λ body. read_bodies self.new ≡ read_bodies self.old ++ body ∷ [])) }
        ensures end { result ≡ Ok None → (self.new ≡ self.old)
            × IfSome (F.state file.old).seen (λ bytes. opened bytes ≡ read_bodies self.old) }
        ensures refused { OnErr result (self.new ≡ self.old) }
        ensures stays { Stays (F.state file.old) (F.state file.new) }
        ensures cause { CountsFaults (result ≡ Err faults.Failed) (F.state file.old).faults (F.state file.new).faults }
    {
        let told = match self.told(file)? {
            Some(told) => told,
            None => return Ok(None),
        };
        let body = match read_body(alloc, file, self.at + 9, told)? {
            Some(body) => body,
            None => return Ok(None),
        };
        self.bodies = self.bodies.and(&body, &());
        self.at += 9 + told;
        Ok(Some(body))
    }

    // The length of the body of the next open frame; none where reading ends.
    fn told<F: LogFile>(&self, file: &mut F) -> Result<Option<u64>, Failed>
        requires reading { IsReading (F.state file.old) self.now }
        ensures room { IfOk result (λ found. IfSome found (λ told. self.now.at + (9 + told) < self.now.len)) }
        ensures told { IfOk result (λ found. IfSome found (λ told.
            IfSome (F.state file.old).seen (GoesOn (read_bodies self.now) self.now.at self.now.len told))) }
        ensures end { result ≡ Ok None → IfSome (F.state file.old).seen (λ bytes. opened bytes ≡ read_bodies self.now) }
        ensures stays { Stays (F.state file.old) (F.state file.new) }
        ensures cause { CountsFaults (IsErr result) (F.state file.old).faults (F.state file.new).faults }
    {
        if self.len - self.at < 10 {
            return Ok(None);
        }
        let mut head = [0; 9];
        if !read_whole(file, self.at, &mut head)? {
            return Ok(None);
        }
        let told = told_in(&head);
        if head[0] != 1 {
            return Ok(None);
        }
        if self.len - self.at - 10 < told {
            return Ok(None);
        }
        Ok(Some(told))
    }

    /// Closes the mark at which reading ended, where it reads 1 though no whole frame stands there: a copy of a file may have been cut
    /// short, and what is appended behind that mark could complete the frame. Then the file is one of these bodies.
    pub fn close<F: LogFile>(&self, file: &mut F) -> Result<(), Failed>
        requires reading { IsReading (F.state file.old) self.now }
        requires ended { IfSome (F.state file.old).seen (λ bytes. opened bytes ≡ read_bodies self.now) }
        requires some { self.now.at < self.now.len }
        requires fresh { IsFresh (F.state file.old) }
        requires durable { IsDurable (F.state file.old) }
        ensures whole { OnOk result (IsWhole (F.state file.new) self.now.at (read_bodies self.now)) }
        ensures any_moment { LeavesOnly (F.state file.old) (F.state file.new) (λ c. opened c ≡ read_bodies self.now) }
        ensures cause { CountsFaults (IsErr result) (F.state file.old).faults (F.state file.new).faults }
    {
        if !self.is_open(file)? {
            return Ok(());
        }
        file.write(self.at, &[0])?;
        file.sync()?;
        Ok(())
    }

    // The mark at which reading ended reads 1.
    fn is_open<F: LogFile>(&self, file: &mut F) -> Result<bool, Failed>
        requires reading { IsReading (F.state file.old) self.now }
        requires some { self.now.at < self.now.len }
        ensures open { IfOk result (λ is_open. is_open ≡ true → IfSome (F.state file.old).seen (λ bytes. get_or (take 1 (drop self.now.at bytes)) 0 0 ≡ 1)) }
        ensures shut { IfOk result (λ is_open. is_open ≡ false → IfSome (F.state file.old).seen (λ bytes. IsShut (get_or (take 1 (drop self.now.at bytes)) 0 0))) }
        ensures stays { Stays (F.state file.old) (F.state file.new) }
        ensures cause { CountsFaults (IsErr result) (F.state file.old).faults (F.state file.new).faults }
    {
        // Only a length that is read is known to fit its type.
        let _len = self.len;
        let mut mark = [1];
        if !read_whole(file, self.at, &mut mark)? {
            return Ok(true);
        }
        Ok(mark[0] == 1)
    }
}

// The length that stands after a mark, in the 8 bytes that spell it.
fn told_in(head: &[u8]) -> u64
    requires { length head.now ≡ 9 }
    ensures told { result ≡ from_le_bytes w64 (drop 1 head.now) }
    ensures spelt { to_le_bytes w64 result ≡ drop 1 head.now }
{
    let (_, told) = head.split_at(1);
    number_in(told)
}

// The number that 8 bytes spell, the lowest first.
fn number_in(bytes: &[u8]) -> u64
    requires { length bytes.now ≡ 8 }
    ensures { result ≡ from_le_bytes w64 bytes.now }
{
    u64::from_le_bytes([
        bytes[0], bytes[1], bytes[2], bytes[3], bytes[4], bytes[5], bytes[6], bytes[7],
    ])
}

// The body of this length that stands at a place; none where the file ends before.
fn read_body<F: LogFile>(
    alloc: Global,
    file: &mut F,
    at: u64,
    told: u64,
) -> Result<Option<List<u8>>, ReadFault>
    requires { at + told < 2 ^ 64 }
    ensures length { IfOk result (λ found. IfSome found (λ body. length body ≡ told)) }
    ensures body { IfOk result (λ found. IfSome found (λ body. IfSome (F.state file.old).seen (λ bytes. body ≡ take told (drop at bytes)))) }
    ensures end { result ≡ Ok None → IfSome (F.state file.old).seen (λ bytes. length bytes < at + told) }
    ensures stays { Stays (F.state file.old) (F.state file.new) }
    ensures cause { CountsFaults (result ≡ Err faults.Failed) (F.state file.old).faults (F.state file.new).faults }
{
    let mut body = vec![in alloc; 0; told as usize]?;
    if !read_whole(file, at, &mut body)? {
        return Ok(None);
    }
    Ok(Some(List::from_vec(body)))
}

// Fills the room with the bytes from a place on. It is false where the file ends before.
fn read_whole<F: LogFile>(file: &mut F, at: u64, into: &mut [u8]) -> Result<bool, Failed>
    requires { at + length into.old < 2 ^ 64 }
    ensures room { length into.new ≡ length into.old }
    ensures filled { result ≡ Ok true → IfSome (F.state file.old).seen (λ bytes. into.new ≡ take (length into.new) (drop at bytes)) }
    ensures short { result ≡ Ok false → IfSome (F.state file.old).seen (λ bytes. length bytes < at + length into.new) }
    ensures stays { Stays (F.state file.old) (F.state file.new) }
    ensures cause { CountsFaults (IsErr result) (F.state file.old).faults (F.state file.new).faults }
{
    let mut done = 0;
    'filling: while done < into.len() {
        match read_more(file, at, into, done)? {
            Some(now) => done = now,
            None => return Ok(false),
        }
    }
    Ok(true)
}

// Reads once into the room behind what was read, and says how much of it is filled then; none at the end of the file.
fn read_more<F: LogFile>(
    file: &mut F,
    at: u64,
    into: &mut [u8],
    done: usize,
) -> Result<Option<usize>, Failed>
    requires room { done < length into.old }
    requires small { at + length into.old < 2 ^ 64 }
    ensures more { IfOk result (λ found. IfSome found (λ now. (done < now) × (now ≤ length into.old))) }
    ensures room { length into.new ≡ length into.old }
    ensures filled { IfOk result (λ found. IfSome found (λ now. IfSome (F.state file.old).seen
        (λ bytes. take done into.old ≡ take done (drop at bytes) → take now into.new ≡ take now (drop at bytes)))) }
    ensures end { result ≡ Ok None → IfSome (F.state file.old).seen (λ bytes. length bytes ≤ at + done) }
    ensures stays { Stays (F.state file.old) (F.state file.new) }
    ensures cause { CountsFaults (IsErr result) (F.state file.old).faults (F.state file.new).faults }
{
    let count = file.read(at + done as u64, &mut into[done..])?;
    if count == 0 {
        return Ok(None);
    }
    Ok(Some(done + count))
}
