ghost use Rattle.std.specs.Prelude.{◌≡◌, [], ◌∷◌, ◌++◌, filter, not, nat_eq, OnOk, OnErr};
ghost use Rattle.std.specs.List.{list_any};
ghost use Rattle.sc_record.specs.declared.slice.CoreId.{CoreId};
ghost use Rattle.sc_record.specs.Names.{key_of_core, is_key, is_core};
ghost use Rattle.sc_legal.specs.Kept.{is_among};

use sc_record::{CoreId, SliceId};
use std::alloc::{AllocError, Global};
use std::marker::Model;

/// The cores that are down, which contracts see as the list of them. All of them are followers of slices that are there.
#[derive(Drop)]
pub(crate) struct DownCores {
    cores: Vec<CoreId>,
}

impl Model for DownCores {
    ghost use Rattle.std.specs.Prelude.{List};
    ghost use Rattle.sc_record.specs.declared.slice.CoreId.{CoreId};

    ghost Value = { List CoreId };

    ghost view = { λ a. a.cores.items };
}

impl DownCores {
    /// No cores. It takes no memory.
    pub(crate) fn new(alloc: Global) -> DownCores
        ensures { result ≡ [] }
    {
        DownCores {
            cores: Vec::new(alloc),
        }
    }

    /// Whether the core is among them.
    pub(crate) fn contains(&self, core: CoreId) -> bool
        ensures { result ≡ is_among (key_of_core core) self.now }
    {
        self.cores.iter().any(|other| is_same(core, *other))
    }

    /// Puts the core at the end.
    pub(crate) fn push(&mut self, core: CoreId) -> Result<(), AllocError>
        ensures ok { OnOk result (self.new ≡ self.old ++ core ∷ []) }
        ensures err { OnErr result (self.new ≡ self.old) }
    {
        self.cores.push(core)?;
        Ok(())
    }

    /// Takes the core out.
    pub(crate) fn remove(&mut self, core: CoreId)
        ensures { self.new ≡ filter (λ other. not (is_core other core)) self.old }
    {
        self.cores.retain(|other| !is_same(*other, core));
    }

    /// Takes the cores of a slice out.
    pub(crate) fn remove_slice(&mut self, slice: SliceId)
        ensures { self.new ≡ filter (λ (other : CoreId). not (nat_eq other.slice.0 slice.0)) self.old }
    {
        self.cores.retain(|other| other.slice.0 != slice.0);
    }
}

// The two are one core.
fn is_same(core: CoreId, other: CoreId) -> bool
    ensures { result ≡ is_core core other }
{
    core.slice.0 == other.slice.0 && core.replica == other.replica
}
