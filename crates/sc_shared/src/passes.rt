//! The passes of one thread, and how they are split and joined.
ghost use Rattle.std.specs.Prelude.{◌≡◌, ◌≤◌, length, All, IfOk, OnErr};
ghost use Rattle.sc_lock.specs.Tokens.{splits_left};
ghost use Rattle.sc_shared.specs.Passes.{BucketPass};
ghost use Rattle.sc_shared.specs.PassCalls.{AreFreePasses, ArePassesSplit, ArePassesJoined};

use crate::board::KeptBoard;
use crate::collection::Collection;
use crate::numbered::Numbered;
use sc_lock::{Lock, Pass};
use std::alloc::{AllocError, Global};

/// The passes of one thread: one for the lock of each bucket, by its number, and one for that of the board. They know what the thread
/// has seen of each journal, and which entries are its own. They have no bytes but those of the list.
#[derive(Drop)]
pub struct Passes {
    pub(crate) buckets: Vec<Pass<Numbered>>,
    pub(crate) board: Pass<KeptBoard>,
}

// Splits a pass off each of these. An error means out of memory.
fn split_each(
    alloc: Global,
    locks: &Vec<Lock<Numbered>>,
    passes: &mut Vec<Pass<Numbered>>,
) -> Result<Vec<Pass<Numbered>>, AllocError>
    requires passes { AreFreePasses locks.now.items passes.old.items }
    requires splits { All (λ (pass : BucketPass). 1 ≤ splits_left pass) passes.old.items }
    ensures split { IfOk result (λ others. ArePassesSplit (length locks.now.items) locks.now.items passes.old.items passes.new.items others.items) }
    ensures unchanged { OnErr result (passes.new ≡ passes.old) }
{
    let mut others = Vec::with_capacity(alloc, locks.len())?;
    for b in 0..locks.len() {
        others.push_reserved(locks[b].split_pass(&mut passes[b]));
    }
    Ok(others)
}

// Joins each of these with the other of its number.
fn join_each(locks: &Vec<Lock<Numbered>>, into: &mut Vec<Pass<Numbered>>, from: Vec<Pass<Numbered>>)
    requires into { AreFreePasses locks.now.items into.old.items }
    requires from { AreFreePasses locks.now.items from.items }
    ensures { ArePassesJoined 0 locks.now.items into.old.items from.items into.new.items }
{
    let mut from = from;
    while let Some(pass) = from.pop() {
        let b = from.len();
        locks[b].join_pass(&mut into[b], pass);
    }
}

impl Collection {
    ghost use Rattle.std.specs.Prelude.{ℕ, ◌+◌};
    ghost use Rattle.sc_shared.specs.Passes.{seen_of, CanSplit};
    ghost use Rattle.sc_shared.specs.Collections.{SeesTheSame, SeesOthers, SeesBoth};
    ghost use Rattle.sc_shared.specs.Sharing.{ArePasses};

    /// Splits off the passes of another thread, which have seen the same and have no entries of their own. An error means out of memory.
    pub fn split_passes(&self, alloc: Global, passes: &mut Passes) -> Result<Passes, AllocError>
        requires passes { ArePasses self.now passes.old }
        requires splits { CanSplit 1 passes.old }
        ensures passes { ArePasses self.now passes.new }
        ensures same { SeesTheSame (seen_of passes.old) (seen_of passes.new) }
        ensures splits { (count : ℕ) → CanSplit (count + 1) passes.old → CanSplit count passes.new }
        ensures new { IfOk result (λ other. ArePasses self.now other × SeesOthers (seen_of passes.old) (seen_of other)) }
        ensures unchanged { OnErr result (passes.new ≡ passes.old) }
    {
        let buckets = split_each(alloc, &self.locks, &mut passes.buckets)?;
        Ok(Passes {
            buckets,
            board: self.board.split_pass(&mut passes.board),
        })
    }

    /// Brings the passes of two threads together: `into` has seen what both have seen, and has the entries of both.
    pub fn join_passes(&self, into: &mut Passes, from: Passes)
        requires into { ArePasses self.now into.old }
        requires from { ArePasses self.now from }
        ensures passes { ArePasses self.now into.new }
        ensures joined { SeesBoth (seen_of into.old) (seen_of from) (seen_of into.new) }
    {
        let Passes { buckets, board } = from;
        join_each(&self.locks, &mut into.buckets, buckets);
        self.board.join_pass(&mut into.board, board);
    }
}
