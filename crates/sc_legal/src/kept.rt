ghost use Rattle.std.specs.Prelude.{◌≡◌, [], IfOk};
ghost use Rattle.sc_legal.specs.Kept.{IsKept};

use crate::down::DownCores;
use sc_cluster::ClusterMap;
use sc_record::{CloneIn, Id, SliceId};
use std::alloc::{AllocError, Global};
use std::collections::{BTreeMap, BTreeSet};

/// What is kept of a journal: all that its next entry depends on.
#[derive(Drop)]
pub(crate) struct Kept {
    /// The map after it.
    pub(crate) map: ClusterMap,
    /// The slice whose split is open.
    pub(crate) split: Option<SliceId>,
    /// The version of the last write of each id.
    pub(crate) newest: BTreeMap<Id, i64>,
    /// How many writes it has.
    pub(crate) writes: u64,
    /// The places of the writes that no entry settles.
    pub(crate) unsettled: BTreeSet<u64>,
    pub(crate) down: DownCores,
    /// How many entries it has.
    pub(crate) entries: u64,
}

impl Kept {
    /// What is kept of a journal with no entries, whose first map is this.
    pub(crate) fn new(alloc: Global, map: &ClusterMap) -> Result<Kept, AllocError>
        ensures { IfOk result (IsKept map.now []) }
    {
        let map = map.clone_in(alloc)?;
        Ok(Kept {
            map,
            split: None,
            newest: BTreeMap::new(alloc),
            writes: 0,
            unsettled: BTreeSet::new(alloc),
            down: DownCores::new(alloc),
            entries: 0,
        })
    }
}
