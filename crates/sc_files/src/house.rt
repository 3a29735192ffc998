ghost use Rattle.std.specs.Prelude.{◌≡◌, ◌<◌, ◌≤◌, ◌+◌, ◌-◌, ◌^◌, ℕ, Bool, true, false, map, min, Option, Some, None, IsErr, IfOk, IfSome, OnOk, OnErr, Contains, vec_len};
ghost use Rattle.sc_io.specs.Counts.{CountsFaults};
ghost use Rattle.sc_files.specs.Places.{SetsAt, SetsTold, AreAsBefore, found_at, is_out};

use crate::file::LogFile;
use sc_io::{Failed, Faults};
use sc_record::List;
use std::alloc::{AllocError, Global};
use std::marker::Send;
use std::mem;

/// What gives the files of a log, each by the number of its bucket, and takes them back: the machine's folder, files in memory.
pub trait LogHouse {
    type F: LogFile + Send + Drop;

    /// The files that are still to be given, by the bucket's number, where it tells them.
    ghost files: { Self → Option (ℕ → Option Self.F) };

    /// The files that were taken back, by the bucket's number, where it tells them.
    ghost files_back: { Self → Option (ℕ → Option Self.F) };

    /// The file of this number was given and is not back.
    ghost out: { Self → ℕ → Bool };

    /// How often giving a file has failed.
    ghost faults: { Self → ℕ };

    /// Gives the file of the bucket of this number, of which no sync has failed.
    fn file(&mut self, bucket: u32) -> Result<Self::F, Failed>
        ensures given { IfOk result (λ file. IfSome (files self.old) (λ all. all bucket ≡ Some file)) }
        ensures files { OnOk result (SetsTold bucket None (files self.old) (files self.new)) }
        ensures out { OnOk result (SetsAt bucket true (out self.old) (out self.new)) }
        ensures refused { OnErr result (files self.new ≡ files self.old) }
        ensures refused_out { OnErr result (AreAsBefore (out self.old) (out self.new)) }
        ensures files_back { files_back self.new ≡ files_back self.old }
        ensures cause { CountsFaults (IsErr result) (faults self.old) (faults self.new) };

    /// Takes the file of this number back.
    fn back(&mut self, bucket: u32, file: Self::F)
        requires { out self.old bucket ≡ true }
        ensures files_back { SetsTold bucket (Some file) (files_back self.old) (files_back self.new) }
        ensures out { SetsAt bucket false (out self.old) (out self.new) }
        ensures files { files self.new ≡ files self.old }
        ensures faults { faults self.new ≡ faults self.old };

    /// Hears how many entries were read, of how many files; none of either where a new log was begun.
    fn opened(&mut self, entries: u64, read: u32)
        ensures files { files self.new ≡ files self.old }
        ensures files_back { files_back self.new ≡ files_back self.old }
        ensures out { AreAsBefore (out self.old) (out self.new) }
        ensures faults { faults self.new ≡ faults self.old };
}

/// A house that has the files in a list, by the bucket's number, and keeps those that are back in another. The calls of `file` whose
/// numbers, counted from 0, are in `fails` fail, and so does one for a number that has no file, or none any more. `calls` is the number
/// of the next call; at 2^64 - 1 it stands still, and each call from there on has that number.
#[derive(Drop)]
pub struct MemHouse<F> {
    pub files: Vec<Option<F>>,
    pub back: Vec<Option<F>>,
    pub fails: List<u64>,
    pub calls: u64,
    pub faults: Faults,
    pub ghost same_length: { vec_len back ≡ vec_len files },
}

impl<F> MemHouse<F> {
    /// A house with these files, which gave none yet. Its calls take no memory. An error means out of memory.
    pub fn new(alloc: Global, files: Vec<F>, fails: List<u64>) -> Result<MemHouse<F>, AllocError>
    where
        F: Drop,
        ensures files { IfOk result (λ house. house.files.items ≡ map (λ file. Some file) files.items) }
        ensures back { IfOk result (λ house. house.back.items ≡ map (λ file. None) files.items) }
        ensures fails { IfOk result (λ house. house.fails ≡ fails) }
        ensures calls { IfOk result (λ house. house.calls ≡ 0) }
        ensures faults { IfOk result (λ house. house.faults ≡ 0) }
    {
        let (given, back) = placed(alloc, files)?;
        Ok(MemHouse {
            files: given,
            back,
            fails,
            calls: 0,
            faults: Faults::none(),
        })
    }
}

// A place for each of these, with it there, and one with nothing in it.
fn placed<T: Drop>(
    alloc: Global,
    all: Vec<T>,
) -> Result<(Vec<Option<T>>, Vec<Option<T>>), AllocError>
    ensures given { IfOk result (λ places. places.0.items ≡ map (λ one. Some one) all.items) }
    ensures back { IfOk result (λ places. places.1.items ≡ map (λ one. None) all.items) }
{
    let mut given = Vec::with_capacity(alloc, all.len())?;
    let mut back = Vec::with_capacity(alloc, all.len())?;
    for one in all {
        given.push_reserved(Some(one));
        back.push_reserved(None);
    }
    Ok((given, back))
}

// Takes what stands at this number, where something does and nothing is back there.
fn take_out<T>(
    files: &mut Vec<Option<T>>,
    back: &Vec<Option<T>>,
    bucket: u32,
) -> Result<T, AllocError>
    requires { vec_len back.now ≡ vec_len files.old }
    ensures given { IfOk result (λ file. found_at files.old.items bucket ≡ Some file) }
    ensures files { OnOk result (SetsAt bucket None (found_at files.old.items) (found_at files.new.items)) }
    ensures out { OnOk result (SetsAt bucket true (is_out files.old.items back.now.items) (is_out files.new.items back.now.items)) }
    ensures refused { OnErr result (files.new ≡ files.old) }
    ensures length { vec_len files.new ≡ vec_len files.old }
{
    let at = bucket as usize;
    if at >= files.len() || files[at].is_none() || back[at].is_some() {
        return Err(AllocError);
    }
    Ok(files[at].take().unwrap())
}

// Puts this back at the number that it was taken from.
fn put_back<T>(files: &Vec<Option<T>>, back: &mut Vec<Option<T>>, bucket: u32, file: T)
    requires length { vec_len back.old ≡ vec_len files.now }
    requires out { is_out files.now.items back.old.items bucket ≡ true }
    ensures back { SetsAt bucket (Some file) (found_at back.old.items) (found_at back.new.items) }
    ensures out { SetsAt bucket false (is_out files.now.items back.old.items) (is_out files.now.items back.new.items) }
    ensures length { vec_len back.new ≡ vec_len back.old }
{
    match mem::replace(&mut back[bucket as usize], Some(file)) {
        None => {}
        Some(_) => unreachable!(),
    }
}

impl<T: LogFile + Send + Drop> LogHouse for MemHouse<T> {
    type F = T;

    ghost files = { λ s. Some (found_at s.files.items) };

    ghost files_back = { λ s. Some (found_at s.back.items) };

    ghost out = { λ s. is_out s.files.items s.back.items };

    ghost faults = { λ s. s.faults };

    fn file(&mut self, bucket: u32) -> Result<T, Failed>
        ensures given { IfOk result (λ file. found_at self.old.files.items bucket ≡ Some file) }
        ensures files { OnOk result (SetsAt bucket None (found_at self.old.files.items) (found_at self.new.files.items)) }
        ensures out { OnOk result (SetsAt bucket true (is_out self.old.files.items self.old.back.items) (is_out self.new.files.items self.new.back.items)) }
        ensures refused { OnErr result (self.new.files ≡ self.old.files) }
        ensures back { self.new.back ≡ self.old.back }
        ensures cause { CountsFaults (IsErr result) self.old.faults self.new.faults }

        ensures fails { Contains self.old.fails self.old.calls → IsErr result }
        ensures counted { self.new.calls ≡ min (self.old.calls + 1) (2 ^ 64 - 1) }
        ensures kept_fails { self.new.fails ≡ self.old.fails }
    {
        let call = self.calls;
        self.calls = call.saturating_add(1);
        if !self.fails.as_slice().contains(&call) {
            if let Ok(file) = take_out(&mut self.files, &self.back, bucket) {
                return Ok(file);
            }
        }
        self.faults.rise();
        Err(Failed)
    }

    fn back(&mut self, bucket: u32, file: T)
        requires { is_out self.old.files.items self.old.back.items bucket ≡ true }
        ensures back { SetsAt bucket (Some file) (found_at self.old.back.items) (found_at self.new.back.items) }
        ensures out { SetsAt bucket false (is_out self.old.files.items self.old.back.items) (is_out self.new.files.items self.new.back.items) }
        ensures files { self.new.files ≡ self.old.files }
        ensures faults { self.new.faults ≡ self.old.faults }
    {
        put_back(&self.files, &mut self.back, bucket, file);
    }

    fn opened(&mut self, _: u64, _: u32)
        ensures { self.new ≡ self.old }
    {}
}
