ghost use Rattle.std.specs.Prelude.{◌≡◌, ◌≤◌, true, false, length, drop, Err, OnOk};
ghost use Rattle.std.specs.List.{AllByRecursion};
ghost use Rattle.sc_io.specs.Counts.{CountsFaults};
ghost use Rattle.sc_seen.specs.Seen.{SeesMore, IsStopWithin};
ghost use Rattle.sc_collection.specs.Desks.{IsDeskAtRest};
ghost use Rattle.sc_gate.specs.Gates.{Gated, no_gate, KeepsStops, KeepsCommits, KeepsAll, StandsOpen, StillKeeps, SeesOnly};
ghost use Rattle.sc_gate.specs.declared.gate.GateFault.TheVariants as reports;

use sc_collection::{Desk, Trail};
use std::alloc::Global;

/// Why a gate could not be passed. What was kept up to then is kept.
#[derive(Debug, Clone, Copy)]
pub enum GateFault {
    /// What keeps the entries failed. It has counted that.
    Failed,
    /// Memory ran out.
    Memory,
}

/// What keeps the entries of the buckets' journals, as the files of a disk do. Whoever is to answer that entries were made passes it
/// first, with a desk at rest: it may wait, and hold buckets by that desk, each for itself.
pub trait Gate<D: Desk> {
    /// The journals that it keeps are those that this desk sees.
    ghost fits: { Self → D → Type 0 };

    /// What it keeps, and how often keeping has failed.
    ghost state: { Self → Gated };

    /// From the one on until the other, at each moment what a crash leaves is no less than what the first kept.
    ghost since: { Self → Self → Type 0 };

    /// Whether it is known to stand open: all is kept as it is made, and nobody has to pass it.
    fn is_open(&self) -> bool
        ensures { result ≡ true → StandsOpen (state self.now) }
    {
        false
    }

    /// Keeps the entries that were made at the stops of the trail from a place on, the first of which is at 0, and the commits that were
    /// made there. The stops of the board are passed over.
    fn pass(
        &mut self,
        alloc: Global,
        desk: &mut D,
        trail: &Trail,
        from: usize,
    ) -> Result<(), GateFault>
        requires fits { fits self.old desk.old }
        requires rest { IsDeskAtRest (D.layout desk.old) (D.out desk.old) (D.seen desk.old) }
        requires from { from ≤ length trail.now.stops }
        requires stops { AllByRecursion (IsStopWithin (D.layout desk.old) (D.seen desk.old)) (drop from trail.now.stops) }
        ensures kept { OnOk result (KeepsStops (D.layout desk.old) (D.seen desk.old) (state self.new) (drop from trail.now.stops)) }
        ensures commits { OnOk result (KeepsCommits (D.layout desk.old) (D.seen desk.old) (state self.new) (drop from trail.now.stops)) }
        ensures stays { StillKeeps (state self.old) (state self.new) }
        ensures met { SeesOnly (D.seen desk.old) (D.seen desk.new) }
        ensures alone { (state self.old).meets ≡ false → D.seen desk.new ≡ D.seen desk.old }
        ensures fits { fits self.new desk.new }
        ensures rest { IsDeskAtRest (D.layout desk.new) (D.out desk.new) (D.seen desk.new) }
        ensures layout { D.layout desk.new ≡ D.layout desk.old }
        ensures cause { CountsFaults (result ≡ Err reports.Failed) (state self.old).faults (state self.new).faults }
        ensures since { since self.old self.new };

    /// Keeps each entry that the desk has seen of any bucket.
    fn keep_all(&mut self, alloc: Global, desk: &mut D) -> Result<(), GateFault>
        requires fits { fits self.old desk.old }
        requires rest { IsDeskAtRest (D.layout desk.old) (D.out desk.old) (D.seen desk.old) }
        ensures kept { OnOk result (KeepsAll (D.layout desk.old) (D.seen desk.old) (state self.new)) }
        ensures stays { StillKeeps (state self.old) (state self.new) }
        ensures met { SeesOnly (D.seen desk.old) (D.seen desk.new) }
        ensures alone { (state self.old).meets ≡ false → D.seen desk.new ≡ D.seen desk.old }
        ensures fits { fits self.new desk.new }
        ensures rest { IsDeskAtRest (D.layout desk.new) (D.out desk.new) (D.seen desk.new) }
        ensures layout { D.layout desk.new ≡ D.layout desk.old }
        ensures cause { CountsFaults (result ≡ Err reports.Failed) (state self.old).faults (state self.new).faults }
        ensures since { since self.old self.new };

    ghost since_same: { (gate : Self) → since gate gate };

    ghost since_then: { (old between new : Self) → since old between → since between new → since old new };

    ghost fits_on: { (gate : Self) (old new : D) → fits gate old → D.layout new ≡ D.layout old
        → SeesMore (D.seen old) (D.seen new) → fits gate new };
}

/// No gate: all is kept as it is, and it is always passed.
#[derive(Debug, Clone, Copy)]
pub struct NoGate;

impl<D: Desk> Gate<D> for NoGate {
    ghost fits = { λ gate desk. Unit {0} };

    ghost state = { λ gate. no_gate };

    ghost since = { λ old new. Unit {0} };

    ghost since_same = { λ gate. tt };

    ghost since_then = { λ old between new one two. tt };

    ghost fits_on = { λ gate old new fits layout more. tt };

    fn is_open(&self) -> bool {
        true
    }

    fn pass(&mut self, _: Global, _: &mut D, _: &Trail, _: usize) -> Result<(), GateFault> {
        Ok(())
    }

    fn keep_all(&mut self, _: Global, _: &mut D) -> Result<(), GateFault> {
        Ok(())
    }
}
