//! A collection whose buckets and board stand behind locks of their own.
ghost use Rattle.std.specs.Prelude.{◌≤◌, ◌+◌, IfOk, length};
ghost use Rattle.sc_journal.specs.Limits.{least_journal, greatest_journal};
ghost use Rattle.sc_journal.specs.Down.{all_followers};
ghost use Rattle.sc_bucket.specs.Sound.{AreActive};
ghost use Rattle.sc_shared.specs.NewLocks.{IsNewLock, AreNewLocks};

use crate::board::KeptBoard;
use crate::keepers::Keepers;
use crate::numbered::Numbered;
use crate::passes::Passes;
use sc_bucket::Bucket;
use sc_cluster::ClusterMap;
use sc_collection::{Board, FullSlot, OpenedWith, Shape};
use sc_lock::{Badge, Keeper, Lock, Pass};
use sc_record::CloneIn;
use std::alloc::{AllocError, Global};
use std::marker::Model;

/// A collection that threads share: each bucket behind a lock of its own, by its number, and the board behind another.
#[derive(Drop)]
pub struct Collection {
    pub(crate) locks: Vec<Lock<Numbered>>,
    pub(crate) board: Lock<KeptBoard>,
    pub(crate) nodes: u32,
    /// The map with which each bucket began.
    first: ClusterMap,
}

impl Model for Collection {
    ghost use Rattle.sc_shared.specs.Collections.{Locks, AreLocks};

    ghost Value = { Locks };

    ghost view = { λ c. record { buckets = c.locks.items; board = c.board; nodes = c.nodes } };

    ghost invariant = { λ c. AreLocks (record { buckets = c.locks.items; board = c.board; nodes = c.nodes }) c.first };
}

// The lock of a new bucket, with its first pass, its keeper and a badge.
#[derive(Drop)]
struct NewLock {
    lock: Lock<Numbered>,
    pass: Pass<Numbered>,
    keeper: Keeper<Numbered>,
    badge: Badge<Numbered>,
}

// The locks of new buckets, by number, with the first pass, the keeper and a badge of each.
#[derive(Drop)]
struct NewLocks {
    locks: Vec<Lock<Numbered>>,
    passes: Vec<Pass<Numbered>>,
    keepers: Vec<Keeper<Numbered>>,
    badges: Vec<Badge<Numbered>>,
}

// A lock round a new bucket of this number. An error means out of memory.
fn new_lock(
    alloc: Global,
    first: &ClusterMap,
    number: u32,
    buckets: u32,
    limit: u64,
) -> Result<NewLock, AllocError>
    requires active { AreActive first.now }
    requires least { least_journal + length (all_followers first.now) ≤ limit }
    requires most { limit ≤ greatest_journal }
    ensures { IfOk result (IsNewLock (record { number = number; buckets = buckets; first = first.now; limit = limit })) }
{
    let bucket = Bucket::new(alloc, first, limit)?;
    let slot = FullSlot::new(alloc, bucket)?;
    let (lock, pass, keeper) = Lock::new(
        alloc,
        Numbered {
            number,
            buckets,
            bucket: slot,
        },
    )?;
    let badge = lock.badge(&keeper)?;
    Ok(NewLock {
        lock,
        pass,
        keeper,
        badge,
    })
}

// A lock round a new bucket for each number. An error means out of memory.
fn new_locks(
    alloc: Global,
    first: &ClusterMap,
    buckets: u32,
    limit: u64,
) -> Result<NewLocks, AllocError>
    requires active { AreActive first.now }
    requires least { least_journal + length (all_followers first.now) ≤ limit }
    requires most { limit ≤ greatest_journal }
    ensures { IfOk result (AreNewLocks buckets first.now limit buckets) }
{
    let count = buckets as usize;
    let mut locks = Vec::with_capacity(alloc, count)?;
    let mut passes = Vec::with_capacity(alloc, count)?;
    let mut keepers = Vec::with_capacity(alloc, count)?;
    let mut badges = Vec::with_capacity(alloc, count)?;
    for number in 0..buckets {
        let NewLock {
            lock,
            pass,
            keeper,
            badge,
        } = new_lock(alloc, first, number, buckets, limit)?;
        locks.push_reserved(lock);
        passes.push_reserved(pass);
        keepers.push_reserved(keeper);
        badges.push_reserved(badge);
    }
    Ok(NewLocks {
        locks,
        passes,
        keepers,
        badges,
    })
}

impl Collection {
    ghost use Rattle.std.specs.Prelude.{◌≡◌, ◌^◌};
    ghost use Rattle.sc_seen.specs.Seen.{nothing_opened};
    ghost use Rattle.sc_collection.specs.Shapes.{IsShape, HasShape, SeesOpened};
    ghost use Rattle.sc_shared.specs.Passes.{seen_of, CanSplit};
    ghost use Rattle.sc_shared.specs.Collections.{layout_of};
    ghost use Rattle.sc_shared.specs.Sharing.{ArePasses};

    /// A collection of this shape on which nothing happened yet, and the first passes. An error means out of memory.
    pub fn new(alloc: Global, shape: &Shape) -> Result<(Collection, Passes), AllocError>
        requires { IsShape shape.now }
        ensures layout { IfOk result (λ made. HasShape shape.now (layout_of made.0)) }
        ensures passes { IfOk result (λ made. ArePasses made.0 made.1) }
        ensures opened { IfOk result (λ made. (layout_of made.0).opened ≡ nothing_opened) }
        ensures seen { IfOk result (λ made. SeesOpened (layout_of made.0).opened (seen_of made.1)) }
        ensures splits { IfOk result (λ made. CanSplit (2 ^ 31) made.1) }
    {
        let first = ClusterMap::new(alloc, shape.shards, shape.replicas, shape.nodes)?;
        let NewLocks {
            locks,
            passes,
            keepers,
            badges,
        } = new_locks(alloc, &first, shape.buckets, shape.log_limit)?;
        let board = Board::new(
            alloc,
            first.clone_in(alloc)?,
            shape.log_limit,
            Keepers { keepers },
        )?;
        // The board's keeper has nothing to keep.
        let (board, pass, _keeper) = Lock::new(
            alloc,
            KeptBoard {
                board,
                badges,
                opened: OpenedWith::nothing(),
            },
        )?;
        let collection = Collection {
            locks,
            board,
            nodes: shape.nodes,
            first,
        };
        let passes = Passes {
            buckets: passes,
            board: pass,
        };
        Ok((collection, passes))
    }

    /// The map with which each bucket began.
    pub fn first(&self) -> &ClusterMap
        ensures { result.now ≡ (layout_of self.now).first }
    {
        &self.first
    }
}
