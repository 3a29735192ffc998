ghost use Rattle.std.specs.Prelude.{◌≡◌, ◌≤◌, ◌<◌, ◌+◌, List, Some, None, IfOk, length, slice_get};
ghost use Rattle.sc_cluster.specs.Map.{AreFirst};
ghost use Rattle.sc_journal.specs.Limits.{least_journal, greatest_journal};
ghost use Rattle.sc_journal.specs.Down.{all_followers};
ghost use Rattle.sc_bucket.specs.Sound.{AreActive};
ghost use Rattle.sc_collection.specs.Alone.{AreNewSlots, seen_alone, entries_alone, keeping_alone, KeepersAreOut, IsDesk, MayStand, handed_out, taken_back};
ghost use Rattle.sc_seen.specs.declared.board.BoardEntry.{BoardEntry};
ghost use Rattle.sc_seen.specs.Board.{running_split};
ghost use Rattle.sc_board.specs.Boards.{IsSoundBoard};
ghost use Rattle.sc_collection.specs.Desks.{Held, IsBoardOf, MayReplaceBoard, StillFit, AreAtRest};
ghost use Rattle.sc_collection.specs.Handing.{TakesBackBoard, desk_state};
ghost use Rattle.sc_seen.specs.Seen.{nothing_opened};
ghost use Rattle.sc_collection.specs.Shapes.{IsShape, HasShape, SeesOpened};
ghost use Rattle.sc_collection.specs.Opened.{in_slots, desk_with, MayBeOpened};

use crate::desk::Desk;
use crate::opened::OpenedWith;
use crate::shape::Shape;
use crate::slot::Slot;
use http_server::Log;
use sc_board::Board;
use sc_bucket::Bucket;
use sc_cluster::ClusterMap;
use sc_record::{CloneIn, List};
use std::alloc::{AllocError, Global};
use std::marker::Model;
use std::mem::forget;

/// A desk for one thread, which keeps all buckets in a plain list, and the board beside it. Nobody else takes a bucket or the board, so
/// what is handed out is what was seen of it. Its keepers have nothing, since there is nobody else whom they could keep out. No call but
/// `new` and `of` takes memory.
#[derive(Drop)]
pub struct Alone {
    /// Each bucket by its number; none while it is out.
    slots: Vec<Slot>,
    nodes: u32,
    /// The map with which each bucket began.
    first: ClusterMap,
    /// How many entries each journal may have.
    limit: u64,
    /// How many each had when the collection was opened.
    opened: OpenedWith,
    /// The board; none while it is out.
    board: Option<Board<()>>,
    /// The bucket that is out, with its number and whether its keeper has it, and nothing else. It takes no memory.
    out: Log<(u32, bool), Bucket>,
    /// The board that is out, and nothing else. It takes no memory.
    board_out: Log<(), Board<()>>,
}

impl Model for Alone {
    ghost use Rattle.sc_collection.specs.Alone.{AloneState, layout_alone, out_alone, board_out_of, desk_of, IsDesk};

    ghost Value = { AloneState };

    ghost view = { λ a. desk_of (layout_alone a.slots.items a.nodes a.first a.limit a.opened) a.slots.items (out_alone a.out.items) a.board (board_out_of a.board_out.items) };

    ghost invariant = { λ a. IsDesk (desk_of (layout_alone a.slots.items a.nodes a.first a.limit a.opened) a.slots.items (out_alone a.out.items) a.board (board_out_of a.board_out.items)) };
}

// A bucket in each of so many slots, each with an empty journal.
fn new_slots(
    alloc: Global,
    first: &ClusterMap,
    buckets: u32,
    limit: u64,
) -> Result<Vec<Slot>, AllocError>
    requires active { AreActive first.now }
    requires least { least_journal + length (all_followers first.now) ≤ limit }
    requires most { limit ≤ greatest_journal }
    ensures count { IfOk result (λ slots. length slots.items ≡ buckets) }
    ensures each { IfOk result (λ slots. AreNewSlots first.now limit slots.items) }
{
    let mut slots = Vec::with_capacity(alloc, buckets as usize)?;
    for _b in 0..buckets {
        slots.push_reserved(Slot::full(alloc, Bucket::new(alloc, first, limit)?)?);
    }
    Ok(slots)
}

// Each of the buckets in a slot.
fn full_slots(alloc: Global, buckets: List<Bucket>) -> Result<Vec<Slot>, AllocError>
    ensures { IfOk result (λ slots. slots.items ≡ in_slots buckets) }
{
    let mut slots = Vec::with_capacity(alloc, buckets.len())?;
    for bucket in buckets.into_vec() {
        slots.push_reserved(Slot::full(alloc, bucket)?);
    }
    Ok(slots)
}

impl Alone {
    /// A desk of this shape, on which nothing happened yet. An error means out of memory.
    pub fn new(alloc: Global, shape: &Shape) -> Result<Alone, AllocError>
        requires { IsShape shape.now }
        ensures layout { IfOk result (λ desk. HasShape shape.now desk.layout) }
        ensures opened { IfOk result (λ desk. desk.layout.opened ≡ nothing_opened) }
        ensures seen { IfOk result (λ desk. SeesOpened desk.layout.opened (seen_alone desk)) }
        ensures out { IfOk result (λ desk. desk.out ≡ None) }
        ensures board_out { IfOk result (λ desk. desk.board_out ≡ None) }
    {
        let first = ClusterMap::new(alloc, shape.shards, shape.replicas, shape.nodes)?;
        let board = Board::new(alloc, first.clone_in(alloc)?, shape.log_limit, ())?;
        Ok(Alone {
            slots: new_slots(alloc, &first, shape.buckets, shape.log_limit)?,
            nodes: shape.nodes,
            first,
            limit: shape.log_limit,
            opened: OpenedWith::nothing(),
            board: Some(board),
            out: Log::new(),
            board_out: Log::new(),
        })
    }

    /// A desk of this shape over these buckets, which are in the order of their numbers, and this board. What their journals have is
    /// nobody's own. An error means out of memory; the buckets and the board are gone then.
    pub fn of(
        alloc: Global,
        shape: &Shape,
        buckets: List<Bucket>,
        board: Board<()>,
    ) -> Result<Alone, AllocError>
        requires shape { IsShape shape.now }
        requires opened { MayBeOpened shape.now buckets board }
        ensures desk { IfOk result (λ desk. desk ≡ desk_with shape.now buckets board) }
        ensures layout { IfOk result (λ desk. HasShape shape.now desk.layout) }
        ensures seen { IfOk result (λ desk. SeesOpened desk.layout.opened (seen_alone desk)) }
    {
        let opened = OpenedWith::of(buckets.as_slice(), &board);
        let first = board.first.clone_in(alloc)?;
        Ok(Alone {
            slots: full_slots(alloc, buckets)?,
            nodes: shape.nodes,
            first,
            limit: shape.log_limit,
            opened,
            board: Some(board),
            out: Log::new(),
            board_out: Log::new(),
        })
    }

    /// The map with which each bucket began.
    pub fn first(&self) -> &ClusterMap
        ensures { result.now ≡ self.now.layout.first }
    {
        &self.first
    }

    /// Leaves the collection to the system as the program ends, which is faster than taking it apart piece by piece. While no split runs,
    /// each bucket is as the board says.
    pub fn leave(self)
        requires home { self.board_out ≡ None }
        ensures rest { running_split (entries_alone self) ≡ None → AreAtRest self.layout (entries_alone self) (keeping_alone self) }
    {
        forget(self);
    }

    // Takes the bucket of this number out of its slot, for its keeper or for another.
    fn take_out(&mut self, b: u32, by_keeper: bool) -> Bucket
        requires within { b < self.old.layout.buckets }
        requires nothing_out { self.old.out ≡ None }
        ensures is { IsDesk self.old }
        ensures there { slice_get self.old.slots b ≡ Some (Some result) }
        ensures after { self.new ≡ handed_out self.old (record { number = b; bucket = result; by_keeper = by_keeper }) }
    {
        let bucket = self.slots[b as usize].take();
        self.out = Log::new().and(&(b, by_keeper), &bucket);
        bucket
    }

    // Puts the bucket of this number, which is out, into its slot.
    fn put_back(&mut self, b: u32, bucket: Bucket)
        requires is_out { (held : Held) × (self.old.out ≡ Some held) × (held.number ≡ b) × (IsDesk self.old → MayStand self.old held bucket) }
        ensures is { IsDesk self.old }
        ensures after { self.new ≡ taken_back self.old b bucket }
    {
        self.slots[b as usize].put(bucket);
        self.out = Log::new();
    }
}

impl Desk for Alone {
    type Keepers = ();

    ghost layout = { λ desk. desk.layout };

    ghost seen = { seen_alone };

    ghost out = { λ desk. record { bucket = desk.out; board = desk.board_out } };

    ghost fits = { λ desk keepers. KeepersAreOut desk };

    ghost keeping = { λ desk keepers. keeping_alone desk };

    fn buckets(&self) -> u32 {
        self.slots.len() as u32
    }

    fn nodes(&self) -> u32 {
        self.nodes
    }

    fn hold(&mut self, b: u32) -> Bucket {
        self.take_out(b, false)
    }

    fn give(&mut self, b: u32, bucket: Bucket) {
        self.put_back(b, bucket);
    }

    fn hold_keeper(&mut self, _keepers: &mut (), b: u32) -> Bucket {
        self.take_out(b, true)
    }

    fn give_keeper(&mut self, _keepers: &mut (), b: u32, bucket: Bucket) {
        self.put_back(b, bucket);
    }

    fn hold_board(&mut self) -> Board<()> {
        let board = self.board.take().unwrap();
        self.board_out = Log::new().and(&(), &board);
        board
    }

    fn give_board(&mut self, board: Board<()>)
        requires sound { IsSoundBoard board }
        requires is_of { IsBoardOf self.old.layout board.first board.limit }
        requires is_out { (entries : List BoardEntry) × (self.old.board_out ≡ Some entries)
            × MayReplaceBoard self.old.layout (seen_alone self.old) entries board.journal.entries }
        requires no_bucket { self.old.out ≡ None }
        requires rest { (keepers : Unit {0}) → board.keepers ≡ Some keepers
            → KeepersAreOut self.old × AreAtRest self.old.layout board.journal.entries (keeping_alone self.old) }
        ensures taken { TakesBackBoard board.journal.entries
            (desk_state self.old.layout (seen_alone self.old) (record { bucket = self.old.out; board = self.old.board_out }))
            (desk_state self.new.layout (seen_alone self.new) (record { bucket = self.new.out; board = self.new.board_out })) }
        ensures keepers { board.keepers ≡ None → (keepers : Unit {0}) → KeepersAreOut self.old
            → StillFit (KeepersAreOut self.new) (keeping_alone self.old) (keeping_alone self.new) }
    {
        self.board = Some(board);
        self.board_out = Log::new();
    }
}
