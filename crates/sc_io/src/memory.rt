ghost use Rattle.std.specs.Prelude.{◌≡◌, ◌+◌, ◌-◌, ◌^◌, ◌<◌, ◌≤◌, List, [], ◌++◌, length, take, drop, min, Some, None, IfOk, IsErr, OnOk, OnErr, IsTrue, Contains, slice_index, if◌then◌else◌};
ghost use Rattle.sc_io.specs.Pieces.{TakesPrefix};
ghost use Rattle.sc_io.specs.Memory.{ReadsMemory};
ghost use Rattle.sc_io.specs.Moments.{next_moment};

use crate::clock::Clock;
use crate::fault::{Failed, Faults};
use crate::hosts::Hosts;
use crate::mem_source::MemSource;
use crate::pace::{Pace, SplitStep};
use crate::sink::Sink;
use crate::source::Source;
use sc_record::List;
use std::alloc::Global;
use std::mem;

impl Source for MemSource {
    ghost rest = { λ s. Some (drop s.at s.bytes) };

    ghost faults = { λ s. s.faults };

    fn read(&mut self, into: &mut [u8]) -> Result<usize, Failed>
        requires { 0 < length into.old }
        ensures bounded { IfOk result (λ n. n ≤ length into.new) }
        ensures taken { IfOk result (λ n. TakesPrefix (take n into.new) (drop self.old.at self.old.bytes)
            (Some (drop self.new.at self.new.bytes))) }
        ensures end { result ≡ Ok 0 → drop self.old.at self.old.bytes ≡ [] }
        ensures failed { OnErr result (self.new.at ≡ self.old.at) }
        ensures steady { OnOk result (self.new.faults ≡ self.old.faults) }
        ensures cause { OnErr result (self.new.faults ≡ self.old.faults + 1) }
        ensures reads { ReadsMemory self.old self.new into.old into.new result }
    {
        let call = self.calls;
        self.calls = call.saturating_add(1);
        if self.fails.as_slice().contains(&call) {
            self.faults.rise();
            return Err(Failed);
        }
        let bytes = &self.bytes.as_slice()[self.at..];
        let count = bytes.len().min(self.most).min(into.len());
        into[..count].copy_from_slice(&bytes[..count]);
        self.at += count;
        Ok(count)
    }
}

/// A sink that keeps what it is given. The writes whose numbers, counted from 0, are in `fails`
/// fail, and so does one that finds no memory; a write that failed wrote nothing. `calls` is the
/// number of the next write; at 2^64 - 1 it stands still, and each write from there on has that
/// number.
#[derive(Debug, Drop)]
pub struct MemSink {
    pub bytes: List<u8>,
    pub fails: List<u64>,
    pub calls: u64,
    pub faults: Faults,
    alloc: Global,
}

impl MemSink {
    /// A sink that was given nothing yet. It takes no memory before the first write.
    pub fn new(alloc: Global, fails: List<u64>) -> MemSink
        ensures bytes { result.bytes ≡ [] }
        ensures fails { result.fails ≡ fails }
        ensures calls { result.calls ≡ 0 }
        ensures faults { result.faults ≡ 0 }
    {
        MemSink {
            bytes: List::from_vec(Vec::new(alloc)),
            fails,
            calls: 0,
            faults: Faults::none(),
            alloc,
        }
    }

    fn append(&mut self, piece: &[u8]) -> bool
        ensures bytes { self.new.bytes ≡ (if result then self.old.bytes ++ piece.now else self.old.bytes) }
        ensures fails { self.new.fails ≡ self.old.fails }
        ensures calls { self.new.calls ≡ self.old.calls }
        ensures faults { self.new.faults ≡ self.old.faults }
    {
        let empty = List::from_vec(Vec::new(self.alloc));
        let mut bytes = mem::replace(&mut self.bytes, empty).into_vec();
        let added = bytes.extend_from_slice(piece).is_ok();
        self.bytes = List::from_vec(bytes);
        added
    }
}

impl Sink for MemSink {
    ghost written = { λ s. Some s.bytes };

    ghost faults = { λ s. s.faults };

    ghost calls = { λ s. s.calls };

    fn write(&mut self, piece: &[u8]) -> Result<(), Failed>
        ensures whole { OnOk result (self.new.bytes ≡ self.old.bytes ++ piece.now) }
        ensures failed { OnErr result (self.new.bytes ≡ self.old.bytes) }
        ensures steady { OnOk result (self.new.faults ≡ self.old.faults) }
        ensures cause { OnErr result (self.new.faults ≡ self.old.faults + 1) }

        ensures fails { Contains self.old.fails self.old.calls → IsErr result }
        ensures counted { self.new.calls ≡ min (self.old.calls + 1) (2 ^ 64 - 1) }
        ensures kept_count { self.old.calls ≤ self.new.calls }
        ensures kept_fails { self.new.fails ≡ self.old.fails }
    {
        let call = self.calls;
        self.calls = call.saturating_add(1);
        if self.fails.as_slice().contains(&call) || !self.append(piece) {
            self.faults.rise();
            return Err(Failed);
        }
        Ok(())
    }
}

/// A clock that gives these timestamps in order, in milliseconds, and then the last one for ever. `at` is the place of
/// the next one.
#[derive(Debug, Drop)]
pub struct MemClock {
    pub moments: List<u64>,
    pub at: usize,
    pub ghost within: { at < length moments },
}

impl MemClock {
    pub fn new(moments: List<u64>) -> MemClock
        requires { 0 < length moments }
        ensures moments { result.moments ≡ moments }
        ensures at { result.at ≡ 0 }
    {
        MemClock { moments, at: 0 }
    }
}

impl Clock for MemClock {
    ghost gives = { λ s moment t. (moment ≡ slice_index s.moments s.at)
        × (t.moments ≡ s.moments) × (t.at ≡ next_moment s.moments s.at) };

    fn now(&mut self) -> u64 {
        let moments = self.moments.as_slice();
        let moment = moments[self.at];
        if self.at + 1 < moments.len() {
            self.at += 1;
        }
        moment
    }
}

/// A clock that stands still.
#[derive(Debug, Clone, Copy, PartialEq, Eq)]
pub struct Fixed {
    pub moment: u64,
}

impl Clock for Fixed {
    ghost gives = { λ s moment t. (moment ≡ s.moment) × (t ≡ s) };

    fn now(&mut self) -> u64 {
        self.moment
    }
}

/// A source with no bytes, a sink that drops what it is given, hosts that keep no list and reach each node, and a pace that always goes on. It never
/// fails.
#[derive(Debug, Clone, Copy, PartialEq, Eq)]
pub struct Never;

impl Source for Never {
    ghost rest = { λ _. Some [] };

    ghost faults = { λ _. 0 };

    fn read(&mut self, into: &mut [u8]) -> Result<usize, Failed>
        requires { 0 < length into.old }
        ensures end { result ≡ Ok 0 }
        ensures untouched { into.new ≡ into.old }
    {
        Ok(0)
    }
}

impl Sink for Never {
    ghost written = { λ _. None };

    ghost faults = { λ _. 0 };

    ghost calls = { λ _. 0 };

    fn write(&mut self, piece: &[u8]) -> Result<(), Failed>
        ensures { result ≡ Ok tt }
    {
        Ok(())
    }
}

impl Hosts for Never {
    ghost started = { λ _. None };

    ghost start_faults = { λ _. 0 };

    ghost stop_faults = { λ _. 0 };

    ghost reached = { λ _. record { faults = 0; nodes = None } };

    fn start_core(&mut self, _: u32, _: &str) -> Result<(), Failed>
        ensures { result ≡ Ok tt }
    {
        Ok(())
    }

    fn stop_core(&mut self, _: u32, _: &str) -> Result<(), Failed>
        ensures { result ≡ Ok tt }
    {
        Ok(())
    }

    fn reach(&mut self, _: u32) -> Result<(), Failed>
        ensures { result ≡ Ok tt }
    {
        Ok(())
    }
}

impl Pace for Never {
    ghost stops = { λ _. 0 };

    fn between(&mut self, _: SplitStep) -> bool
        ensures { IsTrue result }
    {
        true
    }
}
