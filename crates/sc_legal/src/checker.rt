ghost use Rattle.std.specs.Prelude.{◌≡◌, ◌≢◌, ◌<◌, ◌+◌, ◌^◌, ◌↔◌, [], ◌∷◌, ◌++◌, length, true, Ok, IsTrue, IfOk, OnOk, OnErr};
ghost use Rattle.sc_cluster.specs.Slices.{forming};
ghost use Rattle.sc_journal.specs.Legal.{MayFollow, IsLegal};
ghost use Rattle.sc_journal.specs.Computed.{HasComputed};

use crate::kept::Kept;
use http_server::Log;
use sc_cluster::ClusterMap;
use sc_record::{CloneIn, Entry};
use std::alloc::{AllocError, Global};
use std::marker::Model;

/// Takes the entries of a journal one after another, each where it may follow those before it. Contracts see it as the first map and the
/// journal that it has passed, which is legal; kept is only what the next entry depends on.
#[derive(Drop)]
pub struct Checker {
    first: ClusterMap,
    kept: Kept,
    // the entries that were passed, which proofs alone read
    passed: Log<Entry, ()>,
}

impl Model for Checker {
    ghost use Rattle.sc_legal.specs.Passed.{Passed};
    ghost use Rattle.sc_legal.specs.Kept.{entries_of, IsChecked};

    ghost Value = { Passed };

    ghost view = { λ a. record { first = a.first; journal = entries_of a.passed.items } };

    ghost invariant = { λ a. IsChecked a.first (entries_of a.passed.items) a.kept };
}

impl Checker {
    /// No entry was passed of a journal whose first map is this. An error means out of memory.
    pub fn new(alloc: Global, map: &ClusterMap) -> Result<Checker, AllocError>
        requires { forming map.now ≡ [] }
        ensures first { IfOk result (λ checker. checker.first ≡ map.now) }
        ensures journal { IfOk result (λ checker. checker.journal ≡ []) }
    {
        let _ = map.get(0); // by it the proof knows that it is a map
        let first = map.clone_in(alloc)?;
        let kept = Kept::new(alloc, map)?;
        Ok(Checker {
            first,
            kept,
            passed: Log::new(),
        })
    }

    /// Whether the entry may follow those that were passed; it is passed where it may. An error means out of memory.
    pub fn may_follow(&mut self, alloc: Global, entry: &Entry) -> Result<bool, AllocError>
        requires few { length self.old.journal + 1 < 2 ^ 64 }
        requires computed { HasComputed entry.now }
        ensures exactly { IfOk result (λ may. IsTrue may ↔ MayFollow self.old.first self.old.journal entry.now) }
        ensures passed { result ≡ Ok true → self.new ≡ record self.old { journal = self.old.journal ++ entry.now ∷ [] } }
        ensures stays { result ≢ Ok true → self.new ≡ self.old }
        ensures legal { IsLegal self.new.first self.new.journal }
    {
        let may = self.allows(alloc, entry)?;
        if may {
            self.pass(alloc, entry)?;
        }
        Ok(may)
    }

    // Whether the entry may follow those that were passed.
    fn allows(&self, alloc: Global, entry: &Entry) -> Result<bool, AllocError>
        requires few { length self.now.journal + 1 < 2 ^ 64 }
        requires computed { HasComputed entry.now }
        ensures exactly { IfOk result (λ may. IsTrue may ↔ MayFollow self.now.first self.now.journal entry.now) }
        ensures legal { IsLegal self.now.first self.now.journal }
    {
        match entry {
            Entry::Write(cell) => Ok(self.kept.may_write(cell)),
            Entry::Settled { place } => Ok(self.kept.is_unsettled(*place)),
            Entry::Committed => Ok(true),
            Entry::Begun { parent, subs } => self.kept.may_be_split(alloc, *parent, subs),
            Entry::Switched { parent } => Ok(self.kept.is_split(*parent)),
            Entry::Failed { parent } => Ok(self.kept.is_split(*parent)),
            Entry::Dropped { slice } => Ok(self.kept.may_be_dropped(*slice)),
            Entry::Down { core } => Ok(self.kept.may_go_down(*core)),
            Entry::Up { core } => Ok(self.kept.may_come_up(*core)),
            Entry::Led { core } => Ok(self.kept.may_lead(*core)),
        }
    }

    // Passes the entry.
    fn pass(&mut self, alloc: Global, entry: &Entry) -> Result<(), AllocError>
        requires few { length self.old.journal + 1 < 2 ^ 64 }
        requires may { MayFollow self.old.first self.old.journal entry.now }
        ensures ok { OnOk result (self.new ≡ record self.old { journal = self.old.journal ++ entry.now ∷ [] }) }
        ensures err { OnErr result (self.new ≡ self.old) }
        ensures legal { IsLegal self.new.first self.new.journal }
    {
        self.kept.note(alloc, entry)?;
        self.passed = self.passed.and(entry, &());
        Ok(())
    }
}
