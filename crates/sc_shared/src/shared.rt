//! The desk of one thread over a collection that threads share.
ghost use Rattle.std.specs.Prelude.{◌≡◌, List, Some, None};
ghost use Rattle.sc_seen.specs.declared.board.BoardEntry.{BoardEntry};
ghost use Rattle.sc_board.specs.Boards.{IsSoundBoard};
ghost use Rattle.sc_collection.specs.Desks.{IsBoardOf, MayReplaceBoard, StillFit, AreAtRest};
ghost use Rattle.sc_collection.specs.Handing.{TakesBackBoard, desk_state};

use crate::board::KeptBoard;
use crate::collection::Collection;
use crate::holding::{give_bucket, give_by_keeper, hold_bucket, hold_by_keeper};
use crate::keepers::Keepers;
use crate::numbered::Numbered;
use crate::passes::Passes;
use sc_board::Board;
use sc_bucket::Bucket;
use sc_collection::{Desk, EmptySlot, OpenedWith};
use sc_lock::{Badge, Turn};
use std::marker::{Brand, Model, PhantomData};
use std::mem;
use std::sync::Wait;

/// Which collection a desk is over. A function for any `Home` knows of its desk that it is over the same collection, whatever was called
/// with it meanwhile; who calls that function, at `Brand`, picks the collection.
pub trait Home {
    ghost use Rattle.std.specs.Prelude.{Option};
    ghost use Rattle.sc_shared.specs.Collections.{Locks};

    ghost locks: { Option Locks };
}

impl Home for Brand {
    ghost locks = { None };
}

/// The desk of one thread: it has that thread's passes, and waits for a bucket or the board where another thread has it. It is made in
/// its thread (`new`) and gives the passes back there (`into_passes`). Its holds take no memory.
pub struct Shared<'a, R, N: Home> {
    rt: &'a R,
    collection: &'a Collection,
    passes: Passes,
    /// The bucket that is out.
    bucket: Option<TakenBucket>,
    /// The board that is out.
    board: Option<TakenBoard>,
    home: PhantomData<N>,
}

/// A bucket that is out, by its number; whether its keeper has it; the turn that is given back with it; and its slot.
pub(crate) struct TakenBucket {
    number: u32,
    by_keeper: bool,
    turn: Turn<Numbered>,
    slot: EmptySlot,
}

/// What stood beside the board that is out, and the turn that is given back with it.
pub(crate) struct TakenBoard {
    turn: Turn<KeptBoard>,
    badges: Vec<Badge<Numbered>>,
    opened: OpenedWith,
}

// Fills an empty slot with what can't be let go of.
fn put<T>(slot: &mut Option<T>, value: T)
    requires empty { slot.old ≡ None }
    ensures full { slot.new ≡ Some value }
{
    match mem::replace(slot, Some(value)) {
        None => {}
        Some(_) => unreachable!(),
    }
}

// Empties a full slot.
fn take<T>(slot: &mut Option<T>) -> T
    requires full { (value : T) × (slot.old ≡ Some value) }
    ensures was { slot.old ≡ Some result }
    ensures empty { slot.new ≡ None }
{
    mem::replace(slot, None).unwrap()
}

impl<'a, R, N: Home> Model for Shared<'a, R, N> {
    ghost use Rattle.sc_shared.specs.Sharing.{SharedState, shared_of, IsAtHome};

    ghost Value = { SharedState };

    ghost view = { λ s. shared_of s.collection.now s.passes s.bucket s.board };

    ghost invariant = { λ s. IsAtHome N.locks (shared_of s.collection.now s.passes s.bucket s.board) };
}

impl<'a, R, N: Home> Shared<'a, R, N> {
    ghost use Rattle.sc_collection.specs.Desks.{nothing_out};
    ghost use Rattle.sc_shared.specs.Sharing.{ArePasses, out_of};

    /// A desk with these passes, out of which nothing is. `rt` is what its holds wait by.
    pub fn new(rt: &'a R, collection: &'a Collection, passes: Passes) -> Shared<'a, R, N>
        requires home { N.locks ≡ Some collection.now }
        requires passes { ArePasses collection.now passes }
        ensures locks { result.locks ≡ collection.now }
        ensures passes { result.passes ≡ passes }
        ensures nothing_out { out_of result ≡ nothing_out }
    {
        Shared {
            rt,
            collection,
            passes,
            bucket: None,
            board: None,
            home: PhantomData,
        }
    }

    /// The passes, while nothing is out.
    pub fn into_passes(self) -> Passes
        requires nothing_out { out_of self ≡ nothing_out }
        ensures home { N.locks ≡ Some self.entry.locks }
        ensures passes { ArePasses self.entry.locks result }
        ensures are { result ≡ self.entry.passes }
    {
        // What is out can't be let go of, so the desk is taken apart here.
        let Shared {
            rt: _,
            collection: _,
            passes,
            bucket,
            board,
            home: _,
        } = self;
        match (bucket, board) {
            (None, None) => passes,
            (_, _) => unreachable!(),
        }
    }
}

impl<'a, R: Wait, N: Home> Desk for Shared<'a, R, N> {
    ghost use Rattle.sc_shared.specs.Keepers.{keeping_of};
    ghost use Rattle.sc_shared.specs.Passes.{seen_of};
    ghost use Rattle.sc_shared.specs.Collections.{layout_of};
    ghost use Rattle.sc_shared.specs.Sharing.{out_of, Fit};
    ghost use Rattle.sc_shared.specs.declared.keepers.Keepers.{Keepers};

    type Keepers = Keepers;

    ghost layout = { λ shared. layout_of shared.locks };

    ghost seen = { λ shared. seen_of shared.passes };

    ghost out = { out_of };

    ghost fits = { λ shared keepers. Fit shared keepers.keepers.items };

    ghost keeping = { λ shared keepers. keeping_of keepers.keepers.items };

    fn buckets(&self) -> u32 {
        let collection = self.collection;
        collection.locks.len() as u32
    }

    fn nodes(&self) -> u32 {
        let collection = self.collection;
        collection.nodes
    }

    fn hold(&mut self, b: u32) -> Bucket {
        let (full, turn) = hold_bucket(self.rt, self.collection, &mut self.passes, b);
        let (bucket, slot) = full.take();
        put(
            &mut self.bucket,
            TakenBucket {
                number: b,
                by_keeper: false,
                turn,
                slot,
            },
        );
        bucket
    }

    fn give(&mut self, b: u32, bucket: Bucket) {
        let TakenBucket {
            number: _,
            by_keeper: _,
            turn,
            slot,
        } = take(&mut self.bucket);
        let full = slot.put(bucket);
        give_bucket(self.collection, &mut self.passes, turn, b, full);
    }

    fn hold_keeper(&mut self, keepers: &mut Keepers, b: u32) -> Bucket {
        let (full, turn) = hold_by_keeper(self.rt, self.collection, &mut self.passes, keepers, b);
        let (bucket, slot) = full.take();
        put(
            &mut self.bucket,
            TakenBucket {
                number: b,
                by_keeper: true,
                turn,
                slot,
            },
        );
        bucket
    }

    fn give_keeper(&mut self, keepers: &mut Keepers, b: u32, bucket: Bucket) {
        let TakenBucket {
            number: _,
            by_keeper: _,
            turn,
            slot,
        } = take(&mut self.bucket);
        let full = slot.put(bucket);
        give_by_keeper(self.collection, &mut self.passes, keepers, turn, b, full);
    }

    fn hold_board(&mut self) -> Board<Keepers> {
        let collection = self.collection;
        let (kept, turn) = collection.board.hold(self.rt, &mut self.passes.board);
        let KeptBoard {
            board,
            badges,
            opened,
        } = kept;
        put(
            &mut self.board,
            TakenBoard {
                turn,
                badges,
                opened,
            },
        );
        board
    }

    fn give_board(&mut self, board: Board<Keepers>)
        requires sound { IsSoundBoard board }
        requires is_of { IsBoardOf (layout_of self.old.locks) board.first board.limit }
        requires is_out { (entries : List BoardEntry) × ((out_of self.old).board ≡ Some entries)
            × MayReplaceBoard (layout_of self.old.locks) (seen_of self.old.passes) entries board.journal.entries }
        requires no_bucket { (out_of self.old).bucket ≡ None }
        requires rest { (keepers : Keepers) → board.keepers ≡ Some keepers → Fit self.old keepers.keepers.items
            × AreAtRest (layout_of self.old.locks) board.journal.entries (keeping_of keepers.keepers.items) }
        ensures taken { TakesBackBoard board.journal.entries
            (desk_state (layout_of self.old.locks) (seen_of self.old.passes) (out_of self.old))
            (desk_state (layout_of self.new.locks) (seen_of self.new.passes) (out_of self.new)) }
        ensures keepers { board.keepers ≡ None → (keepers : Keepers) → Fit self.old keepers.keepers.items
            → StillFit (Fit self.new keepers.keepers.items) (keeping_of keepers.keepers.items) (keeping_of keepers.keepers.items) }
    {
        let TakenBoard {
            turn,
            badges,
            opened,
        } = take(&mut self.board);
        let collection = self.collection;
        let kept = KeptBoard {
            board,
            badges,
            opened,
        };
        collection.board.give(&mut self.passes.board, turn, kept);
    }
}
