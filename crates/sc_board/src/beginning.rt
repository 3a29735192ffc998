//! A split begins.

ghost use Rattle.std.specs.Prelude.{◌≡◌, ◌≤◌, ◌+◌, ℕ, List, Some, None, length, map, IfOk, IfErr, OnOk, OnErr};
ghost use Rattle.sc_cluster.specs.declared.slice.Slice.{Slice};
ghost use Rattle.sc_cluster.specs.Limits.{most_slices};
ghost use Rattle.sc_cluster.specs.Plans.{sub_bounds, IsPlan};
ghost use Rattle.sc_seen.specs.Board.{MayNote, BoardHasRoom};
ghost use Rattle.sc_board.specs.Boards.{IsSoundBoard};
ghost use Rattle.sc_board.specs.Splits.{IsCut, parts_of, cut_ranges, board_basis, asked_for, Prevents, IsRefusal, IsPlanOf, IsCutCause, MaySplit, MayBeCut};
ghost use Rattle.sc_board.specs.Events.{Notes, IsSameBoardButRoom, BeginsSplit};
ghost use Rattle.sc_board.specs.declared.fault.BoardFault.TheVariants as faults;
ghost use Rattle.sc_board.specs.declared.cut.Cut.{Cut};
ghost use Rattle.sc_board.specs.declared.fault.BoardFault.{BoardFault};

use crate::board::Board;
use crate::cut::Cut;
use crate::fault::BoardFault;
use sc_cluster::{MOST_SLICES, Slice, SplitPlan, State, cut, tiles};
use sc_record::CloneIn;
use sc_seen::BoardEntry;
use std::alloc::{AllocError, Global};

impl<K: Drop> Board<K> {
    /// Begins a split of the slice of this name, and hands out the keepers of all buckets with its plan (Solr Reference Guide, "Shard
    /// Management", SPLITSHARD). The first cause of a refusal counts, in the order of `BoardFault`; after a refusal the board is as it
    /// was, but for room in memory. All memory is taken here, for the entries that the split makes owed too.
    pub fn begin_split(
        &mut self,
        alloc: Global,
        shard: &str,
        cut: &Cut,
    ) -> Result<(SplitPlan, K), BoardFault>
        requires sound { IsSoundBoard self.old }
        requires cut { IsCut cut.now }
        ensures { BeginsSplit (asked_for shard.now cut.now) self.old self.new result }
    {
        let plan = self.plan_of(alloc, shard, cut)?;
        let keepers = self.put_begun(alloc, &plan)?;
        Ok((plan, keepers))
    }

    // The plan of the split that is asked for. The board is only read.
    fn plan_of(&self, alloc: Global, shard: &str, cut: &Cut) -> Result<SplitPlan, BoardFault>
        requires sound { IsSoundBoard self.now }
        requires cut { IsCut cut.now }
        ensures plan { IfOk result (IsPlanOf self.now.first self.now.journal.entries (asked_for shard.now cut.now)) }
        ensures allowed { OnOk result ((cause : BoardFault) → ¬ Prevents (board_basis self.now) self.now.journal.entries (asked_for shard.now cut.now) cause) }
        ensures refused { IfErr result (IsRefusal self.now.first self.now.limit self.now.journal.entries (asked_for shard.now cut.now)) }
    {
        let parent = self.parent_of(shard)?;
        check_ranges(parent, cut)?;
        if self.map.len() + parts_of(cut) > MOST_SLICES {
            return Err(BoardFault::TooManySlices);
        }
        if self.limit < self.journal.len() + self.owed + 4 {
            return Err(BoardFault::LogFull);
        }
        self.planned(alloc, parent, cut)
    }

    // The slice that is to be split.
    fn parent_of(&self, shard: &str) -> Result<&Slice, BoardFault>
        requires { IsSoundBoard self.now }
        ensures found { IfOk result (λ slice. MaySplit self.now.map shard.now slice.now) }
        ensures refused { (cut : Cut) → IfErr result (IsRefusal self.now.first self.now.limit self.now.journal.entries (asked_for shard.now cut)) }
    {
        let Some(slice) = self.named(shard) else {
            return Err(BoardFault::UnknownShard);
        };
        if let Some(shard) = self.running_name()? {
            return Err(BoardFault::Running { shard });
        }
        match slice.state {
            State::Active => Ok(slice),
            state => Err(BoardFault::NotActive { state }),
        }
    }

    // The plan of a split of the slice. An error means out of memory.
    fn planned(&self, alloc: Global, slice: &Slice, how: &Cut) -> Result<SplitPlan, BoardFault>
        requires sound { IsSoundBoard self.now }
        requires cut { IsCut how.now }
        requires slice { (name : List ℕ) × MaySplit self.now.map name slice.now }
        requires fits { MayBeCut how.now slice.now }
        requires few { length self.now.map + parts_of how.now ≤ most_slices }
        requires room { BoardHasRoom 4 self.now.limit self.now.first self.now.journal.entries }
        ensures parent { IfOk result (λ plan. plan.parent ≡ slice.now.id) }
        ensures ranges { IfOk result (λ plan. map sub_bounds plan.subs ≡ cut_ranges how.now slice.now) }
        ensures plan { IfOk result (λ plan. IsPlan self.now.map plan.parent plan.subs) }
        ensures memory { IfErr result (λ fault. fault ≡ faults.Memory) }
    {
        match how {
            Cut::Parts { n } => match cut(alloc, &slice.range, *n) {
                Ok(ranges) => Ok(self.map.plan(alloc, slice.id, &ranges)?),
                Err(_) => Err(BoardFault::Memory),
            },
            Cut::Ranges { list } => Ok(self.map.plan(alloc, slice.id, list)?),
        }
    }

    // Puts the entry that begins the split of the plan into the journal, with room for those that it makes owed, has the first replica
    // of each sub lead it, and hands out the keepers. After an error the board is as it was, but for room in memory.
    fn put_begun(&mut self, alloc: Global, plan: &SplitPlan) -> Result<K, AllocError>
        requires sound { IsSoundBoard self.old }
        requires may { MayNote self.old.first self.old.journal.entries (BoardEntry.Begun plan.now) }
        requires room { BoardHasRoom 4 self.old.limit self.old.first self.old.journal.entries }
        ensures sound { IsSoundBoard self.new }
        ensures begun { OnOk result (Notes self.old (BoardEntry.Begun plan.now) self.new) }
        ensures keepers { IfOk result (λ keepers. self.old.keepers ≡ Some keepers) }
        ensures handed_out { OnOk result (self.new.keepers ≡ None) }
        ensures same { OnErr result (IsSameBoardButRoom self.old self.new) }
    {
        let noted = plan.clone_in(alloc)?;
        self.journal.reserve(self.owed as usize + 4)?;
        let leaders = self.leaders.with_first(alloc, plan.subs.len())?;
        self.map.begin(plan)?;
        self.leaders = leaders;
        self.owed += 3;
        self.journal.append(BoardEntry::Begun { plan: noted });
        Ok(self.keepers.take().unwrap())
    }
}

// How many ranges the cut gives.
fn parts_of(cut: &Cut) -> usize
    ensures { result ≡ parts_of cut.now }
{
    match cut {
        Cut::Parts { n } => *n as usize,
        Cut::Ranges { list } => list.len(),
    }
}

// The slice's range can be cut so.
fn check_ranges(slice: &Slice, cut: &Cut) -> Result<(), BoardFault>
    ensures fits { OnOk result (MayBeCut cut.now slice.now) }
    ensures refused { IfErr result (IsCutCause cut.now slice.now) }
{
    match cut {
        Cut::Parts { n } => {
            if slice.range.size() < u64::from(*n) {
                return Err(BoardFault::RangeTooSmall);
            }
        }
        Cut::Ranges { list } => {
            if !tiles(list, &slice.range) {
                return Err(BoardFault::BadRanges);
            }
        }
    }
    Ok(())
}
