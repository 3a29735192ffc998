ghost use Rattle.std.specs.Prelude.{◌≡◌, ◌<◌, ◌≤◌, List, Some, None, true, false};
ghost use Rattle.sc_record.specs.declared.entry.Entry.{Entry};
ghost use Rattle.sc_router.specs.Route.{IsBucketCount};
ghost use Rattle.sc_seen.specs.Seen.{Layout, Seen, AreLegal};
ghost use Rattle.sc_seen.specs.declared.board.BoardEntry.{BoardEntry};
ghost use Rattle.sc_keeper.specs.declared.part.Part.{Part};
ghost use Rattle.sc_keeper.specs.Part.{part_of};
ghost use Rattle.sc_board.specs.Boards.{IsSoundBoard};
ghost use Rattle.sc_collection.specs.Desks.{Out, Held, Keeping, IsBoardOf, MayReplace, KeeperMayReplace, MayReplaceBoard, SeesGiven, SeesKeeperGiven, StillFit, KeepsGiven, AreAtRest};
ghost use Rattle.sc_collection.specs.Handing.{HandsOut, HandsOutBoard, TakesBackBoard, desk_state};

use sc_board::Board;
use sc_bucket::Bucket;

/// The keepers of all buckets of a collection, as whoever changes all buckets alike has them. What they left in each bucket is told by the
/// desk that they belong to (`keeping`).
pub trait Parts {}

impl Parts for () {}

/// What hands out the buckets of a collection, one at a time, and its board. A bucket is taken, one event at most is done on it, and it
/// is given back. Others may do so in between: what is handed out extends what was seen of it. What was seen is legal.
///
/// Whoever holds the keepers of all buckets alone does the events of a split, and finds each bucket's part as they left it. The board
/// has them while no split runs, and then each bucket is as the board says. The board is taken and given back while no bucket is out, so
/// that of two who share a collection none waits for the board with a bucket in hand. No call takes memory.
pub trait Desk {
    /// What stands for the keepers of all buckets.
    type Keepers: Parts + Drop;

    /// How the collection is laid out, which no call changes.
    ghost layout: { Self → Layout };

    /// What was seen of it so far.
    ghost seen: { Self → Seen };

    /// What is handed out, as it was then.
    ghost out: { Self → Out };

    /// These are the keepers of its buckets, and somebody else has them than the desk.
    ghost fits: { Self → Self.Keepers → Type 0 };

    /// What they keep.
    ghost keeping: { Self → Self.Keepers → Keeping };

    /// How many buckets there are: a power of two.
    fn buckets(&self) -> u32
        ensures count { result ≡ (layout self.now).buckets }
        ensures power { IsBucketCount result }
        ensures legal { AreLegal (layout self.now) (seen self.now) };

    /// How many nodes there are, at least 1.
    fn nodes(&self) -> u32
        ensures count { result ≡ (layout self.now).nodes }
        ensures least { 1 ≤ result };

    /// Hands out the bucket of this number.
    fn hold(&mut self, b: u32) -> Bucket
        requires within { b < (layout self.old).buckets }
        requires nothing_out { (out self.old).bucket ≡ None }
        ensures handed { HandsOut (record { number = b; bucket = result; by_keeper = false })
            (desk_state (layout self.old) (seen self.old) (out self.old)) (desk_state (layout self.new) (seen self.new) (out self.new)) }
        ensures keepers { (keepers : Self.Keepers) → fits self.old keepers
            → StillFit (fits self.new keepers) (keeping self.old keepers) (keeping self.new keepers) };

    /// Takes back the bucket of this number, which was handed out.
    fn give(&mut self, b: u32, bucket: Bucket)
        requires is_out { (held : Held) × ((out self.old).bucket ≡ Some held) × (held.number ≡ b)
            × MayReplace (layout self.old) held bucket }
        ensures seen { (held : Held) → (out self.old).bucket ≡ Some held
            → SeesGiven held bucket (seen self.old) (seen self.new) }
        ensures out { out self.new ≡ record (out self.old) { bucket = None } }
        ensures legal { AreLegal (layout self.new) (seen self.new) }
        ensures layout { layout self.new ≡ layout self.old }
        ensures keepers { (keepers : Self.Keepers) → fits self.old keepers
            → StillFit (fits self.new keepers) (keeping self.old keepers) (keeping self.new keepers) };

    /// Hands out the bucket of this number to its keeper, as that left it but for what others wrote.
    fn hold_keeper(&mut self, keepers: &mut Self::Keepers, b: u32) -> Bucket
        requires within { b < (layout self.old).buckets }
        requires nothing_out { (out self.old).bucket ≡ None }
        requires fits { fits self.old keepers.old }
        ensures handed { HandsOut (record { number = b; bucket = result; by_keeper = true })
            (desk_state (layout self.old) (seen self.old) (out self.old)) (desk_state (layout self.new) (seen self.new) (out self.new)) }
        ensures part { part_of result ≡ (keeping self.old keepers.old).part b }
        ensures keepers { StillFit (fits self.new keepers.new) (keeping self.old keepers.old) (keeping self.new keepers.new) };

    /// Takes back the bucket of this number from its keeper.
    fn give_keeper(&mut self, keepers: &mut Self::Keepers, b: u32, bucket: Bucket)
        requires is_out { (held : Held) × ((out self.old).bucket ≡ Some held) × (held.number ≡ b)
            × KeeperMayReplace (layout self.old) held bucket }
        requires fits { fits self.old keepers.old }
        ensures seen { (held : Held) → (out self.old).bucket ≡ Some held
            → SeesKeeperGiven held bucket (seen self.old) (seen self.new) }
        ensures keeping { (held : Held) → (out self.old).bucket ≡ Some held
            → KeepsGiven held bucket (keeping self.old keepers.old) (keeping self.new keepers.new) }
        ensures fits { fits self.new keepers.new }
        ensures out { out self.new ≡ record (out self.old) { bucket = None } }
        ensures legal { AreLegal (layout self.new) (seen self.new) }
        ensures layout { layout self.new ≡ layout self.old };

    /// Hands out the board. While no split runs it has the keepers of all buckets. Whoever began the split that runs finds it as he
    /// left it.
    fn hold_board(&mut self) -> Board<Self::Keepers>
        requires nothing_out { (out self.old).board ≡ None }
        requires no_bucket { (out self.old).bucket ≡ None }
        ensures handed { HandsOutBoard result
            (desk_state (layout self.old) (seen self.old) (out self.old)) (desk_state (layout self.new) (seen self.new) (out self.new)) }
        ensures rest { (keepers : Self.Keepers) → result.keepers ≡ Some keepers
            → fits self.new keepers × AreAtRest (layout self.old) result.journal.entries (keeping self.new keepers) }
        ensures keepers { (keepers : Self.Keepers) → fits self.old keepers
            → StillFit (fits self.new keepers) (keeping self.old keepers) (keeping self.new keepers) };

    /// Takes back the board, which was handed out, with the keepers of all buckets where no split runs.
    fn give_board(&mut self, board: Board<Self::Keepers>)
        requires sound { IsSoundBoard board }
        requires is_of { IsBoardOf (layout self.old) board.first board.limit }
        requires is_out { (entries : List BoardEntry) × ((out self.old).board ≡ Some entries)
            × MayReplaceBoard (layout self.old) (seen self.old) entries board.journal.entries }
        requires no_bucket { (out self.old).bucket ≡ None }
        requires rest { (keepers : Self.Keepers) → board.keepers ≡ Some keepers
            → fits self.old keepers × AreAtRest (layout self.old) board.journal.entries (keeping self.old keepers) }
        ensures taken { TakesBackBoard board.journal.entries
            (desk_state (layout self.old) (seen self.old) (out self.old)) (desk_state (layout self.new) (seen self.new) (out self.new)) }
        ensures keepers { board.keepers ≡ None → (keepers : Self.Keepers) → fits self.old keepers
            → StillFit (fits self.new keepers) (keeping self.old keepers) (keeping self.new keepers) };
}
