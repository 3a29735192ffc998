//! Whether two changes are the same.

ghost use Rattle.std.specs.Prelude.{◌≡◌};
ghost use Rattle.std.specs.Cmp.Lexicographic.{pointwise};
ghost use Rattle.sc_opening.specs.Same.{same_sub, same_plan, same_change};
ghost use Rattle.sc_cluster.specs.declared.plan.SplitPlan.{SplitPlan};

use crate::change::Change;
use sc_cluster::SplitPlan;
use sc_record::{SliceId, SubSlice};

// The slices that two splits make are the same, part by part.
fn is_same_sub(one: &SubSlice, other: &SubSlice) -> bool
    ensures { result ≡ same_sub one.now other.now }
{
    one.id == other.id
        && one.name == other.name
        && one.min == other.min
        && one.max == other.max
        && one.replicas == other.replicas
        && one.node == other.node
}

// They are as many, and each is the same.
fn are_same_subs(one: &[SubSlice], other: &[SubSlice]) -> bool
    ensures { result ≡ pointwise same_sub one.now other.now }
{
    if one.len() != other.len() {
        return false;
    }
    for (i, sub) in one.iter().enumerate() {
        if !is_same_sub(sub, &other[i]) {
            return false;
        }
    }
    true
}

/// A split of this parent into these slices is that of the plan.
pub(crate) fn is_of_plan(parent: SliceId, subs: &[SubSlice], plan: &SplitPlan) -> bool
    ensures { result ≡ same_plan (record { parent = parent; subs = subs.now }) plan.now }
{
    parent == plan.parent && are_same_subs(subs, plan.subs.as_slice())
}

/// Both are the same split, or drop the same slice.
pub(crate) fn is_same_change(one: &Change, other: &Change) -> bool
    ensures { result ≡ same_change one.now other.now }
{
    match (one, other) {
        (Change::Switched { plan }, Change::Switched { plan: planned }) => {
            is_of_plan(plan.parent, plan.subs.as_slice(), planned)
        }
        (Change::Dropped { slice }, Change::Dropped { slice: dropped }) => slice == dropped,
        (Change::Switched { .. }, Change::Dropped { .. }) => false,
        (Change::Dropped { .. }, Change::Switched { .. }) => false,
    }
}
