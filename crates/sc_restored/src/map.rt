//! The map after a journal.

ghost use Rattle.std.specs.Prelude.{◌≡◌, [], IfOk, OnOk};
ghost use Rattle.sc_cluster.specs.Slices.{forming};
ghost use Rattle.sc_cluster.specs.Changes.{Change, after};
ghost use Rattle.sc_cluster.specs.Plans.{IsPlan};
ghost use Rattle.sc_journal.specs.Legal.{IsLegal};
ghost use Rattle.sc_journal.specs.Splits.{map_after};
ghost use Rattle.sc_restored.specs.Course.{Allows, changed_by};

use sc_cluster::{ClusterMap, SplitPlan};
use sc_record::{CloneIn, Entry, List, SliceId, SubSlice};
use std::alloc::{AllocError, Global};

/// The map after the entries, from the first map on. An error means out of memory.
pub(crate) fn map_after(
    alloc: Global,
    first: &ClusterMap,
    entries: &[Entry],
) -> Result<ClusterMap, AllocError>
    requires idle { forming first.now ≡ [] }
    requires legal { IsLegal first.now entries.now }
    ensures { IfOk result (λ map. map ≡ map_after first.now entries.now) }
{
    let _ = first.get(0); // by it the proof knows that it is a map
    let mut map = first.clone_in(alloc)?;
    for entry in entries {
        change(alloc, &mut map, entry)?;
    }
    Ok(map)
}

// The entry came. An error means out of memory.
fn change(alloc: Global, map: &mut ClusterMap, entry: &Entry) -> Result<(), AllocError>
    requires { Allows map.old entry.now }
    ensures { OnOk result (map.new ≡ changed_by entry.now map.old) }
{
    match entry {
        Entry::Begun { parent, subs } => begin(alloc, map, *parent, subs),
        Entry::Switched { parent } => {
            map.switched(*parent);
            Ok(())
        }
        Entry::Failed { parent } => {
            map.failed(*parent);
            Ok(())
        }
        Entry::Dropped { slice } => {
            map.dropped(*slice);
            Ok(())
        }
        _ => Ok(()),
    }
}

// A split of the parent into the subs began. An error means out of memory.
fn begin(
    alloc: Global,
    map: &mut ClusterMap,
    parent: SliceId,
    subs: &List<SubSlice>,
) -> Result<(), AllocError>
    requires { IsPlan map.old parent subs.now }
    ensures { OnOk result (map.new ≡ after map.old (Change.Begun parent subs.now)) }
{
    let subs = subs.clone_in(alloc)?;
    let plan = SplitPlan { parent, subs };
    map.begin(&plan)
}
