//! Whether a split may begin.

ghost use Rattle.std.specs.Prelude.{◌≡◌, ◌↔◌, ◌+◌, ℕ, IsTrue, Some, slice_get};
ghost use Rattle.sc_record.specs.declared.slice.SubSlice.{SubSlice};
ghost use Rattle.sc_cluster.specs.Map.{IsMap};
ghost use Rattle.sc_cluster.specs.Plans.{IsPlanned, IsPlan};

use crate::name::is_sub_name;
use crate::plan::SplitPlan;
use crate::query::{greatest_id, is_idle, slice_of};
use crate::slice::Slice;
use crate::tile::tile;
use sc_record::{SliceId, SubSlice};

/// The most slices of a map.
pub const MOST_SLICES: usize = 256;

// The id is the one that sub i, from 0, has where the greatest id is this.
fn is_next_id(id: SliceId, greatest: u32, i: usize) -> bool
    ensures { IsTrue result ↔ (id.0 ≡ greatest + 1 + i) }
{
    id.0 > greatest && (id.0 - greatest - 1) as usize == i
}

// The sub is sub i, from 0, of a split of the parent, where the greatest id is this.
fn is_planned(parent: &Slice, greatest: u32, i: usize, sub: &SubSlice) -> bool
    ensures { IsTrue result ↔ IsPlanned parent.now greatest i sub.now }
{
    is_next_id(sub.id, greatest, i)
        && is_sub_name(sub.name.as_str(), parent.name.as_str(), i)
        && sub.replicas == parent.replicas
        && sub.node == parent.node
}

// The subs are those of a split of the parent, where the greatest id is this.
fn are_planned(parent: &Slice, greatest: u32, subs: &[SubSlice]) -> bool
    ensures { IsTrue result
        ↔ ((i : ℕ) (sub : SubSlice) → slice_get subs.now i ≡ Some sub → IsPlanned parent.now greatest i sub) }
{
    for (i, sub) in subs.iter().enumerate() {
        if !is_planned(parent, greatest, i, sub) {
            return false;
        }
    }
    true
}

/// The split of the plan may begin. Of a map's slices none has the name of a sub that is not being made, so that no
/// name is compared.
pub(crate) fn is_plan(slices: &[Slice], plan: &SplitPlan) -> bool
    requires { IsMap slices.now }
    ensures { IsTrue result ↔ IsPlan slices.now plan.now.parent plan.now.subs }
{
    let Some(parent) = slice_of(slices, plan.parent) else {
        return false;
    };
    let subs = plan.subs.as_slice();
    if !is_idle(slices) {
        return false;
    }
    if !parent.state.is_active() {
        return false;
    }
    if subs.len() > MOST_SLICES - slices.len() {
        return false;
    }
    tile(subs, &parent.range) && are_planned(parent, greatest_id(slices), subs)
}
