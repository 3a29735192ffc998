//! The steps that a split makes on a list of slices.

ghost use Rattle.std.specs.Prelude.{◌≡◌, ◌==◌, not, map, filter};
ghost use Rattle.sc_cluster.specs.declared.slice.Slice.{Slice};
ghost use Rattle.sc_cluster.specs.Slices.{is_forming};
ghost use Rattle.sc_cluster.specs.Changes.{recovering_slice, switched_slice};

use crate::slice::{Slice, State};
use sc_record::SliceId;

// The slice is in recovery, if it was under construction.
fn recover(slice: &mut Slice)
    ensures { slice.new ≡ recovering_slice slice.old }
{
    if slice.state.is_forming() {
        slice.state = State::Recovery;
    }
}

/// Every slice under construction is in recovery.
pub(crate) fn start_recovery(slices: &mut [Slice])
    ensures { slices.new ≡ map recovering_slice slices.old }
{
    for slice in slices {
        recover(slice);
    }
}

// The slice is active, if a split was making it, and inactive, if it is the parent.
fn switch(slice: &mut Slice, parent: SliceId)
    ensures { slice.new ≡ switched_slice parent slice.old }
{
    if slice.state.is_forming() {
        slice.state = State::Active;
    } else if slice.id == parent {
        slice.state = State::Inactive;
    }
}

/// Every slice that a split was making is active, and its parent is inactive.
pub(crate) fn replace_parent(slices: &mut [Slice], parent: SliceId)
    ensures { slices.new ≡ map (switched_slice parent) slices.old }
{
    for slice in slices {
        switch(slice, parent);
    }
}

/// Takes away the slices that a split was making.
pub(crate) fn remove_forming(slices: &mut Vec<Slice>)
    ensures { slices.new.items ≡ filter (λ slice. not (is_forming slice)) slices.old.items }
{
    slices.retain(|slice| !slice.state.is_forming());
}

/// Takes away the slice with this id.
pub(crate) fn remove_slice(slices: &mut Vec<Slice>, id: SliceId)
    ensures { slices.new.items ≡ filter (λ (slice : Slice). not (slice.id.0 == id.0)) slices.old.items }
{
    slices.retain(|slice| slice.id != id);
}
