ghost use Rattle.std.specs.Prelude.{◌≡◌, ◌≤◌, ◌↔◌, length, drop, IsFalse};
ghost use Rattle.std.specs.List.{AllByRecursion};
ghost use Rattle.sc_seen.specs.Seen.{IsStopWithin};
ghost use Rattle.sc_collection.specs.Desks.{IsDeskAtRest};
ghost use Rattle.sc_session.specs.Connection.{MakeNothing};
ghost use Rattle.sc_session.specs.Serving.{NoteNothing, PassesGate, outcome_of};

use sc_collection::{Desk, Trail};
use sc_gate::{Gate, GateFault};
use std::alloc::Global;

/// Passes the gate with what was made at the stops of the trail from a place on, if anything was and the gate does not stand open. Where one of them noted something on
/// the board, all that was seen of the buckets is kept.
pub(crate) fn pass_from<D: Desk, G: Gate<D>>(
    alloc: Global,
    desk: &mut D,
    trail: &Trail,
    from: usize,
    gate: &mut G,
) -> Result<(), GateFault>
    requires fits { G.fits gate.old desk.old }
    requires rest { IsDeskAtRest (D.layout desk.old) (D.out desk.old) (D.seen desk.old) }
    requires from { from ≤ length trail.now.stops }
    requires stops { AllByRecursion (IsStopWithin (D.layout desk.old) (D.seen desk.old)) (drop from trail.now.stops) }
    ensures passes { PassesGate (D.layout desk.old) (drop from trail.now.stops) (record { seen = D.seen desk.old; gate = G.state gate.old })
        (record { seen = D.seen desk.new; gate = G.state gate.new }) (outcome_of result) }
    ensures rest { IsDeskAtRest (D.layout desk.new) (D.out desk.new) (D.seen desk.new) }
    ensures layout { D.layout desk.new ≡ D.layout desk.old }
    ensures fits { G.fits gate.new desk.new }
    ensures since { G.since gate.old gate.new }
{
    if gate.is_open() || !has_made(trail, from) {
        return Ok(());
    }
    let board = desk.buckets();
    match gate.pass(alloc, desk, trail, from) {
        Ok(()) => {
            if has_noted(trail, from, board) {
                gate.keep_all(alloc, desk)
            } else {
                Ok(())
            }
        }
        Err(fault) => Err(fault),
    }
}

/// Whether an entry was made at one of the stops of the trail from a place on.
fn has_made(trail: &Trail, from: usize) -> bool
    requires { from ≤ length trail.now.stops }
    ensures { IsFalse result ↔ MakeNothing (drop from trail.now.stops) }
{
    for at in from..trail.len() {
        if let Some(stop) = trail.get(at) {
            if stop.made {
                return true;
            }
        }
    }
    false
}

/// Whether an entry of the board was made at one of the stops of the trail from a place on. The board's lock comes after those of so many
/// buckets.
fn has_noted(trail: &Trail, from: usize, board: u32) -> bool
    requires { from ≤ length trail.now.stops }
    ensures { IsFalse result → NoteNothing board (drop from trail.now.stops) }
{
    for at in from..trail.len() {
        if let Some(stop) = trail.get(at) {
            if stop.made && stop.lock == board {
                return true;
            }
        }
    }
    false
}
