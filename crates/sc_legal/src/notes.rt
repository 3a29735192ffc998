//! What is kept once an entry came that may come next.

ghost use Rattle.std.specs.Prelude.{◌≡◌, ◌<◌, ◌≤◌, ◌+◌, ◌^◌, Some, None, [], ◌∷◌, ◌++◌, filter, not, nat_eq, OnOk, OnErr};
ghost use Rattle.sc_record.specs.declared.slice.CoreId.{CoreId};
ghost use Rattle.sc_record.specs.declared.entry.Entry.TheVariants as entry;
ghost use Rattle.sc_record.specs.Names.{is_core};
ghost use Rattle.sc_cluster.specs.Changes.{Change, after, IsBeingSplit, MayChange};
ghost use Rattle.sc_cluster.specs.Plans.{IsPlan};
ghost use Rattle.sc_legal.specs.Kept.{MayCome, Notes, Stays};

use crate::kept::Kept;
use sc_cluster::SplitPlan;
use sc_record::{Cell, CloneIn, CoreId, Entry, List, SliceId, SubSlice};
use std::alloc::{AllocError, Global};

impl Kept {
    /// The entry came, which may come next. An error means out of memory.
    pub(crate) fn note(&mut self, alloc: Global, entry: &Entry) -> Result<(), AllocError>
        requires { MayCome self.old entry.now }
        ensures ok { OnOk result (Notes entry.now self.old self.new) }
        ensures err { OnErr result (Stays self.old self.new) }
    {
        match entry {
            Entry::Write(cell) => self.write(alloc, cell),
            Entry::Settled { place } => {
                self.settled(*place);
                Ok(())
            }
            Entry::Committed => {
                self.committed();
                Ok(())
            }
            Entry::Begun { parent, subs } => self.begun(alloc, *parent, subs),
            Entry::Switched { parent } => {
                self.switched(*parent);
                Ok(())
            }
            Entry::Failed { parent } => {
                self.failed(*parent);
                Ok(())
            }
            Entry::Dropped { slice } => {
                self.dropped(*slice);
                Ok(())
            }
            Entry::Down { core } => self.down(*core),
            Entry::Up { core } => {
                self.up(*core);
                Ok(())
            }
            Entry::Led { core } => self.down(*core),
        }
    }

    // A write came. An error means out of memory.
    fn write(&mut self, alloc: Global, cell: &Cell) -> Result<(), AllocError>
        requires few { self.old.entries + 1 < 2 ^ 64 }
        requires writes { self.old.writes ≤ self.old.entries }
        ensures ok { OnOk result (Notes (entry.Write cell.now) self.old self.new) }
        ensures err { OnErr result (Stays self.old self.new) }
    {
        let id = cell.id().clone_in(alloc)?;
        self.unsettled.insert(self.entries)?;
        if self.newest.insert(id, cell.version()).is_err() {
            self.unsettled.remove(&self.entries);
            return Err(AllocError);
        }
        self.writes += 1;
        self.entries += 1;
        Ok(())
    }

    // The write at the place is settled.
    fn settled(&mut self, place: u64)
        requires { self.old.entries + 1 < 2 ^ 64 }
        ensures { Notes (entry.Settled place) self.old self.new }
    {
        self.unsettled.remove(&place);
        self.entries += 1;
    }

    // An entry came that changes nothing but the count.
    fn committed(&mut self)
        requires { self.old.entries + 1 < 2 ^ 64 }
        ensures { self.new ≡ record self.old { entries = self.old.entries + 1 } }
    {
        self.entries += 1;
    }

    // A split of the parent into the subs began. An error means out of memory.
    fn begun(
        &mut self,
        alloc: Global,
        parent: SliceId,
        subs: &List<SubSlice>,
    ) -> Result<(), AllocError>
        requires few { self.old.entries + 1 < 2 ^ 64 }
        requires plan { IsPlan self.old.map parent subs.now }
        ensures ok { OnOk result (self.new ≡ record self.old {
          map = after self.old.map (Change.Begun parent subs.now);
          split = Some parent;
          entries = self.old.entries + 1;
        }) }
        ensures err { OnErr result (self.new ≡ self.old) }
    {
        let subs = subs.clone_in(alloc)?;
        let plan = SplitPlan { parent, subs };
        self.map.begin(&plan)?;
        self.split = Some(parent);
        self.entries += 1;
        Ok(())
    }

    // The open split took its parent's place.
    fn switched(&mut self, parent: SliceId)
        requires few { self.old.entries + 1 < 2 ^ 64 }
        requires split { IsBeingSplit self.old.map parent }
        ensures { self.new ≡ record self.old {
          map = after self.old.map (Change.Switched parent);
          split = None;
          entries = self.old.entries + 1;
        } }
    {
        self.map.switched(parent);
        self.split = None;
        self.entries += 1;
    }

    // The open split ended.
    fn failed(&mut self, parent: SliceId)
        requires few { self.old.entries + 1 < 2 ^ 64 }
        requires split { IsBeingSplit self.old.map parent }
        ensures { self.new ≡ record self.old {
          map = after self.old.map (Change.Failed parent);
          split = None;
          entries = self.old.entries + 1;
        } }
    {
        self.map.failed(parent);
        self.split = None;
        self.entries += 1;
    }

    // The inactive slice is gone.
    fn dropped(&mut self, slice: SliceId)
        requires few { self.old.entries + 1 < 2 ^ 64 }
        requires inactive { MayChange self.old.map (Change.Dropped slice) }
        ensures { self.new ≡ record self.old {
          map = after self.old.map (Change.Dropped slice);
          down = filter (λ (other : CoreId). not (nat_eq other.slice.0 slice.0)) self.old.down;
          entries = self.old.entries + 1;
        } }
    {
        self.map.dropped(slice);
        self.down.remove_slice(slice);
        self.entries += 1;
    }

    // The core went down, or took the lead. An error means out of memory.
    fn down(&mut self, core: CoreId) -> Result<(), AllocError>
        requires { self.old.entries + 1 < 2 ^ 64 }
        ensures ok { OnOk result (self.new ≡ record self.old {
          down = self.old.down ++ core ∷ [];
          entries = self.old.entries + 1;
        }) }
        ensures err { OnErr result (self.new ≡ self.old) }
    {
        self.down.push(core)?;
        self.entries += 1;
        Ok(())
    }

    // The core came up.
    fn up(&mut self, core: CoreId)
        requires { self.old.entries + 1 < 2 ^ 64 }
        ensures { self.new ≡ record self.old {
          down = filter (λ other. not (is_core other core)) self.old.down;
          entries = self.old.entries + 1;
        } }
    {
        self.down.remove(core);
        self.entries += 1;
    }
}
