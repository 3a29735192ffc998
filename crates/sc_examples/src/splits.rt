//! Splits in a map of `sc_cluster`: `cluster.after SHARDS REPLICAS NODES STEPS`, with commas between the steps, each
//! `split NAME`, `fail NAME`, `fail-late NAME` or `drop NAME`, and `cluster.during SHARDS REPLICAS NODES NAME`, whose
//! answer has the map as a split begins, as its subs recover, and as they have taken the slice's place.

ghost use Rattle.std.specs.Prelude.{◌≡◌, ◌≤◌, [], IfOk, OnOk, Contains};
ghost use Rattle.sc_cluster.specs.declared.slice.Slice.{Slice};
ghost use Rattle.sc_cluster.specs.declared.slice.State.TheVariants as states;
ghost use Rattle.sc_cluster.specs.Slices.{forming};
ghost use Rattle.sc_cluster.specs.Plans.{IsPlan};
ghost use Rattle.sc_cluster.specs.Changes.{Change, MayChange};

use crate::clusters::slices;
use crate::words::word_and;
use sc_cluster::{ClusterMap, SplitPlan, State, cut};
use sc_hash::Range;
use sc_record::{CloneIn, SliceId};
use std::alloc::{AllocError, Global};

pub fn answer(alloc: Global, question: &str, text: &str) -> Result<String, AllocError> {
    let (shards, rest) = number_and(text);
    let (replicas, rest) = number_and(rest);
    let (nodes, rest) = number_and(rest);
    let mut map = ClusterMap::new(alloc, u32::from(shards), replicas, u32::from(nodes))?;
    in_map(alloc, &mut map, question, rest)
}

/// The answer to a question about a new map.
fn in_map(
    alloc: Global,
    map: &mut ClusterMap,
    question: &str,
    text: &str,
) -> Result<String, AllocError>
    requires { forming map.old ≡ [] }
{
    match question {
        "after" => after(alloc, map, text),
        _ => during(alloc, map, text),
    }
}

/// A number from 1 to 255, and what follows it.
fn number_and(text: &str) -> (u8, &str)
    ensures { 1 ≤ result.0 }
{
    let (number, rest) = word_and(text);
    match number.parse::<u8>() {
        Ok(number) if number > 0 => (number, rest),
        _ => (1, rest),
    }
}

/// The id and the range of the slice of this name, which has to be in this state.
fn in_state(map: &ClusterMap, name: &str, state: State) -> Result<(SliceId, Range), AllocError>
    ensures { IfOk result (λ found. (slice : Slice) × Contains map.now slice × (slice.id ≡ found.0) × (slice.range ≡ found.1)
        × (slice.state ≡ state)) }
{
    let id = map.by_name(name).ok_or(AllocError)?;
    match map.by_id(id) {
        Some(slice) if slice.state == state => Ok((slice.id, slice.range)),
        _ => Err(AllocError),
    }
}

/// A copy, by the bound.
fn copied<T: CloneIn>(alloc: Global, value: &T) -> Result<T, AllocError> {
    value.clone_in(alloc)
}

/// A split in two of the active slice of this name.
fn planned(alloc: Global, map: &ClusterMap, name: &str) -> Result<SplitPlan, AllocError>
    requires { forming map.now ≡ [] }
    ensures { IfOk result (λ plan. IsPlan map.now plan.parent plan.subs) }
{
    let (parent, range) = in_state(map, name, State::Active)?;
    let Ok(ranges) = cut(alloc, &range, 2) else {
        return Err(AllocError);
    };
    if ranges.len() != 2 || map.len() > 254 || map.greatest_id() > 1000 {
        return Err(AllocError);
    }
    map.plan(alloc, parent, &ranges)
}

/// Begins such a split.
fn begun(alloc: Global, map: &mut ClusterMap, name: &str) -> Result<SliceId, AllocError>
    requires { forming map.old ≡ [] }
    ensures { IfOk result (λ parent. MayChange map.new (Change.Recovering parent)) }
{
    let plan = planned(alloc, map, name)?;
    map.begin(&plan)?;
    Ok(plan.parent)
}

/// Takes one step from an idle map to an idle map.
fn step(alloc: Global, map: &mut ClusterMap, step: &str, name: &str) -> Result<(), AllocError>
    requires { forming map.old ≡ [] }
    ensures { OnOk result (forming map.new ≡ []) }
{
    if step == "drop" {
        let (slice, _) = in_state(map, name, State::Inactive)?;
        map.dropped(slice);
        return Ok(());
    }
    let parent = begun(alloc, map, name)?;
    if step == "fail" {
        map.failed(parent);
        return Ok(());
    }
    map.recovering(parent);
    if step == "fail-late" {
        map.failed(parent);
    } else {
        map.switched(parent);
    }
    Ok(())
}

/// The map after the steps.
fn after(alloc: Global, map: &mut ClusterMap, steps: &str) -> Result<String, AllocError>
    requires { forming map.old ≡ [] }
{
    for words in steps.split(", ") {
        let (kind, name) = word_and(words);
        step(alloc, map, kind, name)?;
    }
    slices(alloc, map)
}

/// Whether the map allows a copy of the plan of such a split.
fn is_allowed(alloc: Global, map: &ClusterMap, name: &str) -> Result<bool, AllocError>
    requires { forming map.now ≡ [] }
{
    let plan = planned(alloc, map, name)?;
    let copy = copied(alloc, &plan)?;
    Ok(map.allows(&copy))
}

/// The slices of a copy of the map.
fn slices_of_copy(alloc: Global, map: &ClusterMap) -> Result<String, AllocError> {
    let copy = copied(alloc, map)?;
    slices(alloc, &copy)
}

/// The map, or a copy of it, at each step of a split.
fn during(alloc: Global, map: &mut ClusterMap, name: &str) -> Result<String, AllocError>
    requires { forming map.old ≡ [] }
{
    let allowed = is_allowed(alloc, map, name)?;
    let parent = begun(alloc, map, name)?;
    let began = slices_of_copy(alloc, map)?;
    map.recovering(parent);
    let recovering = slices(alloc, map)?;
    map.switched(parent);
    let switched = slices(alloc, map)?;
    format!(in alloc; "{allowed} / {began} / {recovering} / {switched}")
}
