ghost use Rattle.std.specs.Prelude.{◌≡◌, ◌++◌, ◌∷◌, [], map, filter, not, nat_eq, Contains, IfOk, OnOk};
ghost use Rattle.std.specs.Arc.{arc_value};
ghost use Rattle.sc_snapshot.specs.Rows.{SnapshotState};
ghost use Rattle.sc_cluster.specs.declared.slice.Slice.{Slice};
ghost use Rattle.sc_cluster.specs.Slices.{forming};
ghost use Rattle.sc_replicas.specs.declared.standing.Standing.{Standing};
ghost use Rattle.sc_replicas.specs.Searchers.{StandingState, standing_of};
ghost use Rattle.sc_bucket.specs.Searchers.{cut_to, AreHandedOn};

use sc_cluster::{ClusterMap, Slice};
use sc_record::{List, SliceId};
use sc_replicas::{Standing, searcher_for};
use std::alloc::{AllocError, Global};
use std::sync::Arc;

/// The searchers as the switch of the parent's split leaves them: a share of each but the parent's, and one of the parent's for each
/// sub. The only error is that memory was refused.
pub fn hand_on(
    alloc: Global,
    slices: &ClusterMap,
    parent: SliceId,
    searchers: &List<Standing>,
) -> Result<List<Standing>, AllocError>
    requires { Contains (map (λ (searcher : Standing). searcher.slice) searchers.now) parent }
    ensures { IfOk result (AreHandedOn slices.now parent searchers.now) }
{
    let mut handed = Vec::new(alloc);
    push_others(&mut handed, parent, searchers.as_slice())?;
    push_subs(&mut handed, slices, searcher_for(searchers, parent))?;
    handed.shrink_to_fit();
    Ok(List::from_vec(handed))
}

// Puts a share of each searcher but the parent's at the end.
fn push_others(
    handed: &mut Vec<Standing>,
    parent: SliceId,
    searchers: &[Standing],
) -> Result<(), AllocError>
    ensures { OnOk result (map standing_of handed.new.items ≡ map standing_of handed.old.items
        ++ filter (λ (other : StandingState). not (nat_eq other.slice.0 parent.0)) (map standing_of searchers.now)) }
{
    for searcher in searchers {
        push_other(handed, parent, searcher)?;
    }
    Ok(())
}

// Puts a share of the searcher at the end, where it is not the parent's.
fn push_other(
    handed: &mut Vec<Standing>,
    parent: SliceId,
    searcher: &Standing,
) -> Result<(), AllocError>
    ensures { OnOk result (map standing_of handed.new.items ≡ map standing_of handed.old.items
        ++ filter (λ (other : StandingState). not (nat_eq other.slice.0 parent.0)) (standing_of searcher.now ∷ [])) }
{
    if searcher.slice != parent {
        handed.push(Standing {
            slice: searcher.slice,
            range: searcher.range,
            snapshot: Arc::try_clone(&searcher.snapshot)?,
        })?;
    }
    Ok(())
}

// Puts a searcher of each sub at the end, which finds in the sub's range what this one finds.
fn push_subs(
    handed: &mut Vec<Standing>,
    slices: &ClusterMap,
    searcher: &Standing,
) -> Result<(), AllocError>
    ensures { OnOk result (map standing_of handed.new.items ≡ map standing_of handed.old.items
        ++ map (λ (sub : Slice). cut_to sub (standing_of searcher.now)) (forming slices.now)) }
{
    for at in 0..slices.len() {
        let slice = slices.get(at).unwrap();
        push_sub(handed, slice, searcher)?;
    }
    Ok(())
}

// Puts a searcher of the slice at the end, where it is a sub, which finds in its range what this one finds.
fn push_sub(
    handed: &mut Vec<Standing>,
    slice: &Slice,
    searcher: &Standing,
) -> Result<(), AllocError>
    ensures { OnOk result (map standing_of handed.new.items ≡ map standing_of handed.old.items
        ++ map (λ (sub : Slice). cut_to sub (standing_of searcher.now)) (forming (slice.now ∷ []))) }
{
    if slice.state.is_forming() {
        handed.push(Standing {
            slice: slice.id,
            range: slice.range,
            snapshot: Arc::try_clone(&searcher.snapshot)?,
        })?;
    }
    Ok(())
}
