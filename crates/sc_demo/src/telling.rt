//! What is told of a demonstration.
ghost use Rattle.std.specs.Prelude.{◌≡◌, Some, IfOk, string_bytes};
ghost use Rattle.sc_shared.specs.Passes.{seen_of};
ghost use Rattle.sc_shared.specs.Collections.{layout_of};
ghost use Rattle.sc_shared.specs.Sharing.{ArePasses};
ghost use Rattle.sc_demo.specs.Telling.{AreLines, CountsOn, TellsOutcome, after_makers, tally};

use crate::counting::{Found, count_on};
use crate::lines::lines_of;
use crate::task::Outcome;
use sc_arguments::Demo;
use sc_collection::{Desk, Trail};
use sc_io::Sink;
use sc_shared::{Collection, Home, Passes, Shared};
use std::alloc::{AllocError, Global};
use std::marker::Brand;
use std::sync::Wait;
use std::thread::Threads;

/// Writes the lines on what came of all makers, and tells the status of the demonstration.
pub fn tell<R: Threads + Wait + Sync, W: Sink>(
    rt: &R,
    alloc: Global,
    demo: &Demo,
    collection: &Collection,
    passes: Passes,
    trail: &mut Trail,
    sink: &mut W,
    outcome: Outcome,
) -> u8
    requires { ArePasses collection.now passes }
    ensures { TellsOutcome (after_makers (layout_of collection.now) (seen_of passes)) demo.now.count
        (record { written = W.written sink.old; faults = W.faults sink.old })
        (record { written = W.written sink.new; faults = W.faults sink.new })
        outcome result }
{
    let (accepted, split) = match outcome {
        Outcome::HostFailed => return 8,
        Outcome::Memory => return 6,
        Outcome::Told { accepted, split } => (accepted, split),
    };
    let Ok(lines) = lines_on(
        rt,
        alloc,
        demo.count,
        collection,
        passes,
        trail,
        accepted,
        split.as_str(),
    ) else {
        return 6;
    };
    if sink.write(lines.as_bytes()).is_err() {
        return 5;
    }
    0
}

/// The lines on what the makers made. An error means out of memory.
fn lines_on<R: Threads + Wait + Sync>(
    rt: &R,
    alloc: Global,
    orders: u32,
    collection: &Collection,
    passes: Passes,
    trail: &mut Trail,
    accepted: u32,
    split: &str,
) -> Result<String, AllocError>
    requires { ArePasses collection.now passes }
    ensures { IfOk result (λ text. AreLines (after_makers (layout_of collection.now) (seen_of passes))
        (tally orders accepted split.now) (string_bytes text)) }
{
    let found = count_at::<Brand, R>(rt, alloc, collection, passes, trail)?;
    lines_of(alloc, orders, accepted, split, found)
}

// What is found on a collection, over the one of its desk's home.
fn count_at<N: Home, R: Threads + Wait + Sync>(
    rt: &R,
    alloc: Global,
    collection: &Collection,
    passes: Passes,
    trail: &mut Trail,
) -> Result<Found, AllocError>
    requires home { N.locks ≡ Some collection.now }
    requires passes { ArePasses collection.now passes }
    ensures { IfOk result (CountsOn (after_makers (layout_of collection.now) (seen_of passes))) }
{
    let mut desk = Shared::<R, N>::new(rt, collection, passes);
    let _ = desk.buckets(); // by it the proof knows how many there may be, and that what was seen is legal
    let found = count_on(rt, alloc, &mut desk, trail);
    let _ = desk.into_passes();
    found
}
