//! What a split is to make.

ghost use Rattle.std.specs.Prelude.{◌≡◌, ◌<◌, ◌+◌, ◌^◌, ℕ, Some, slice_get, length, map, IfOk, OnOk, OnErr, ◌++◌, take, vec_len};
ghost use Rattle.sc_record.specs.declared.slice.SubSlice.{SubSlice};
ghost use Rattle.sc_hash.specs.Bounds.{bounds};
ghost use Rattle.sc_cluster.specs.Plans.{sub_bounds, IsPlanned};
ghost use Rattle.sc_cluster.specs.Changes.{begun_slice};

use crate::name::sub_name;
use crate::slice::{Slice, State};
use sc_hash::Range;
use sc_record::{CloneIn, List, SliceId, SubSlice};
use std::alloc::{AllocError, Global};

/// A split of a slice: its subs, in the order of their ranges.
#[derive(Debug, Drop)]
pub struct SplitPlan {
    pub parent: SliceId,
    pub subs: List<SubSlice>,
}

impl CloneIn for SplitPlan {
    fn clone_in(&self, alloc: Global) -> Result<SplitPlan, AllocError> {
        Ok(SplitPlan {
            parent: self.parent,
            subs: self.subs.clone_in(alloc)?,
        })
    }
}

// Sub i, from 0, of the parent, where the greatest id of all slices is this.
fn planned_sub(
    alloc: Global,
    parent: &Slice,
    greatest: u32,
    i: usize,
    range: &Range,
) -> Result<SubSlice, AllocError>
    requires { greatest + 1 + i < 2 ^ 32 }
    ensures sub { IfOk result (IsPlanned parent.now greatest i) }
    ensures range { IfOk result (λ sub. sub_bounds sub ≡ bounds range.now) }
{
    Ok(SubSlice {
        id: SliceId(greatest + 1 + i as u32),
        name: sub_name(alloc, parent.name.as_str(), i)?,
        min: range.min,
        max: range.max,
        replicas: parent.replicas,
        node: parent.node,
    })
}

/// The subs of the parent with these ranges, where the greatest id of all slices is this.
pub(crate) fn planned_subs(
    alloc: Global,
    parent: &Slice,
    greatest: u32,
    ranges: &[Range],
) -> Result<List<SubSlice>, AllocError>
    requires { greatest + length ranges.now < 2 ^ 32 }
    ensures ranges { IfOk result (λ subs. map sub_bounds subs ≡ map bounds ranges.now) }
    ensures subs { IfOk result (λ subs.
        (i : ℕ) (sub : SubSlice) → slice_get subs i ≡ Some sub → IsPlanned parent.now greatest i sub) }
{
    let mut subs = Vec::with_capacity(alloc, ranges.len())?;
    for (i, range) in ranges.iter().enumerate() {
        subs.push(planned_sub(alloc, parent, greatest, i, range)?)?;
    }
    Ok(List::from_vec(subs))
}

// A sub as a slice under construction.
fn begun_slice(sub: &SubSlice) -> Result<Slice, AllocError>
    ensures { IfOk result (λ slice. slice ≡ begun_slice sub.now) }
{
    Ok(Slice {
        id: sub.id,
        name: sub.name.clone()?,
        range: Range {
            min: sub.min,
            max: sub.max,
        },
        state: State::Construction,
        replicas: sub.replicas,
        node: sub.node,
    })
}

// Puts the subs after the slices, as many as there is memory for.
fn push_subs(slices: &mut Vec<Slice>, subs: &[SubSlice]) -> Result<(), AllocError>
    ensures ok { OnOk result (slices.new.items ≡ slices.old.items ++ map begun_slice subs.now) }
    ensures kept { take (vec_len slices.old) slices.new.items ≡ slices.old.items }
{
    for sub in subs {
        slices.push(begun_slice(sub)?)?;
    }
    Ok(())
}

/// Puts the subs after the slices, all of them or none.
pub(crate) fn add_subs(slices: &mut Vec<Slice>, subs: &[SubSlice]) -> Result<(), AllocError>
    ensures ok { OnOk result (slices.new.items ≡ slices.old.items ++ map begun_slice subs.now) }
    ensures err { OnErr result (slices.new.items ≡ slices.old.items) }
{
    let count = slices.len();
    let pushed = push_subs(slices, subs);
    if pushed.is_err() {
        slices.truncate(count);
    }
    pushed
}
