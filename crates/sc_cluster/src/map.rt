ghost use Rattle.std.specs.Prelude.{◌≡◌, ◌≤◌, ◌<◌, ◌+◌, ◌^◌, [], length, map, ◌≢◌, ◌↔◌, All, Contains, IfOk, IsTrue, MatchOption, OnOk, OnErr, find, slice_get, ◌&&◌};
ghost use Rattle.std.specs.Option.{option_map, option_copied};
ghost use Rattle.std.specs.Str.{bytes_eq};
ghost use Rattle.sc_hash.specs.Bounds.{bounds, contains};

use crate::allow::is_plan;
use crate::first::first_slices;
use crate::plan::{SplitPlan, add_subs, planned_subs};
use crate::query::{greatest_id, is_idle, slice_of};
use crate::slice::Slice;
use crate::state::{remove_forming, remove_slice, replace_parent, start_recovery};
use sc_hash::Range;
use sc_record::{CloneIn, List, SliceId, clone_items};
use std::alloc::{AllocError, Global};
use std::marker::Model;

/// The slices of a collection, in order of creation, which contracts see as the list of them.
///
/// A split of an active slice is `plan`, `begin`, then `recovering`, then `switched`, or `failed` in place of either.
/// All calls but `new`, `plan`, `begin` and `clone_in` take no memory.
#[derive(Debug, Drop)]
pub struct ClusterMap {
    slices: Vec<Slice>,
}

impl Model for ClusterMap {
    ghost use Rattle.std.specs.Prelude.{List};
    ghost use Rattle.sc_cluster.specs.declared.slice.Slice.{Slice};
    ghost use Rattle.sc_cluster.specs.Map.{IsMap};

    ghost Value = { List Slice };

    ghost view = { λ a. a.slices.items };

    ghost invariant = { λ a. IsMap a.slices.items };
}

impl ClusterMap {
    ghost use Rattle.sc_cluster.specs.declared.slice.Slice.{Slice};
    ghost use Rattle.sc_cluster.specs.Limits.{most_slices};
    ghost use Rattle.sc_cluster.specs.Slices.{forming, greatest_id};
    ghost use Rattle.sc_cluster.specs.Map.{IsMap, Leads, AreFirst};
    ghost use Rattle.sc_cluster.specs.Plans.{sub_bounds, MayCut, IsPlan};
    ghost use Rattle.sc_cluster.specs.Changes.{Change, after, MayChange, IsBeingSplit};

    /// The map of a new collection: `shard1`, `shard2` and so on, which share out all hashes evenly and are active.
    /// Each slice's first replica is on the node after that of the last replica of the slice before it.
    pub fn new(
        alloc: Global,
        shards: u32,
        replicas: u8,
        nodes: u32,
    ) -> Result<ClusterMap, AllocError>
        requires least { 1 ≤ shards }
        requires most { shards ≤ most_slices }
        requires replicas { 1 ≤ replicas }
        requires nodes { 1 ≤ nodes }
        ensures slices { IfOk result (AreFirst shards replicas nodes) }
        ensures map { IfOk result IsMap }
        ensures idle { IfOk result (λ map. forming map ≡ []) }
    {
        Ok(ClusterMap {
            slices: first_slices(alloc, shards, replicas, nodes)?,
        })
    }

    /// The active slice that has the hash.
    pub fn leads(&self, h: i32) -> SliceId
        ensures leads { (slice : Slice) × Leads self.now h slice × (slice.id ≡ result) }
        ensures alone { (slice : Slice) → Leads self.now h slice → slice.id ≡ result }
    {
        leader_of(&self.slices, h).unwrap().id
    }

    /// The slice of this name; None where no slice has it.
    pub fn by_name(&self, name: &str) -> Option<SliceId>
        ensures { result ≡ option_map (λ (slice : Slice). slice.id) (find (λ (slice : Slice). bytes_eq slice.name name.now) self.now) }
    {
        self.slices
            .iter()
            .find(|slice| slice.name.as_str() == name)
            .map(|slice| slice.id)
    }

    /// The slice of this id; None where no slice has it.
    pub fn by_id(&self, id: SliceId) -> Option<&Slice>
        ensures slice { MatchOption result (All (λ (slice : Slice). slice.id ≢ id) self.now)
            (λ slice. Contains self.now slice.now × (slice.now.id ≡ id)) }
        ensures map { IsMap self.now }
    {
        slice_of(&self.slices, id)
    }

    /// How many slices there are, inactive ones and those that a split is making among them.
    pub fn len(&self) -> usize
        ensures { result ≡ length self.now }
    {
        self.slices.len()
    }

    /// The greatest id of the slices. Those of the next subs follow it.
    pub fn greatest_id(&self) -> u32
        ensures { result ≡ greatest_id self.now }
    {
        greatest_id(&self.slices)
    }

    /// No split is open.
    pub fn is_idle(&self) -> bool
        ensures { IsTrue result ↔ (forming self.now ≡ []) }
    {
        is_idle(&self.slices)
    }

    /// The slice at this place of the list, from 0; None from its end on.
    pub fn get(&self, at: usize) -> Option<&Slice>
        ensures slice { option_copied result ≡ slice_get self.now at }
        ensures map { IsMap self.now }
    {
        self.slices.get(at)
    }

    /// A split of the parent into subs with these ranges. Nothing changes until it begins.
    pub fn plan(
        &self,
        alloc: Global,
        parent: SliceId,
        ranges: &List<Range>,
    ) -> Result<SplitPlan, AllocError>
        requires idle { forming self.now ≡ [] }
        requires parent { (slice : Slice) × MayCut self.now parent (map bounds ranges.now) slice }
        requires few { length self.now + length ranges.now ≤ most_slices }
        requires ids { greatest_id self.now + length ranges.now < 2 ^ 32 }
        ensures parent { IfOk result (λ plan. plan.parent ≡ parent) }
        ensures ranges { IfOk result (λ plan. map sub_bounds plan.subs ≡ map bounds ranges.now) }
        ensures plan { IfOk result (λ plan. IsPlan self.now parent plan.subs) }
    {
        let slice = slice_of(&self.slices, parent).unwrap();
        let subs = planned_subs(alloc, slice, greatest_id(&self.slices), ranges.as_slice())?;
        Ok(SplitPlan { parent, subs })
    }

    /// The split of the plan may begin now, whoever made the plan.
    pub fn allows(&self, plan: &SplitPlan) -> bool
        ensures { IsTrue result ↔ IsPlan self.now plan.now.parent plan.now.subs }
    {
        is_plan(&self.slices, plan)
    }

    /// Adds the subs of a split as slices under construction. An error leaves the map as it was.
    pub fn begin(&mut self, plan: &SplitPlan) -> Result<(), AllocError>
        requires { IsPlan self.old plan.now.parent plan.now.subs }
        ensures ok { OnOk result (self.new ≡ after self.old (Change.Begun plan.now.parent plan.now.subs)) }
        ensures split { OnOk result (MayChange self.new (Change.Recovering plan.now.parent)) }
        ensures err { OnErr result (self.new ≡ self.old) }
        ensures map { IsMap self.new }
    {
        add_subs(&mut self.slices, plan.subs.as_slice())
    }

    /// Puts the subs of the split of the parent from construction into recovery, during which their followers are made.
    /// A map whose followers are kept elsewhere, as a bucket's, may go from construction to the split's end without it.
    pub fn recovering(&mut self, parent: SliceId)
        requires { MayChange self.old (Change.Recovering parent) }
        ensures change { self.new ≡ after self.old (Change.Recovering parent) }
        ensures split { IsBeingSplit self.new parent }
        ensures map { IsMap self.new }
    {
        start_recovery(&mut self.slices);
    }

    /// Puts the subs of the split in the place of their parent, which is inactive from here on.
    pub fn switched(&mut self, parent: SliceId)
        requires { MayChange self.old (Change.Switched parent) }
        ensures change { self.new ≡ after self.old (Change.Switched parent) }
        ensures idle { forming self.new ≡ [] }
        ensures map { IsMap self.new }
    {
        replace_parent(&mut self.slices, parent);
    }

    /// Takes the subs of the split of the parent away.
    pub fn failed(&mut self, parent: SliceId)
        requires { MayChange self.old (Change.Failed parent) }
        ensures change { self.new ≡ after self.old (Change.Failed parent) }
        ensures idle { forming self.new ≡ [] }
        ensures map { IsMap self.new }
    {
        remove_forming(&mut self.slices);
    }

    /// Takes an inactive slice away.
    pub fn dropped(&mut self, slice: SliceId)
        requires { MayChange self.old (Change.Dropped slice) }
        ensures change { self.new ≡ after self.old (Change.Dropped slice) }
        ensures idle { forming self.new ≡ [] }
        ensures map { IsMap self.new }
    {
        remove_slice(&mut self.slices, slice);
    }
}

impl CloneIn for ClusterMap {
    fn clone_in(&self, alloc: Global) -> Result<ClusterMap, AllocError> {
        Ok(ClusterMap {
            slices: clone_items(alloc, self.slices.as_slice())?,
        })
    }
}

ghost use Rattle.sc_cluster.specs.declared.slice.Slice.{Slice};
ghost use Rattle.sc_cluster.specs.Slices.{is_active, slice_bounds};

// The slice is active and has the hash.
fn is_leader(slice: &Slice, h: i32) -> bool
    ensures { result ≡ (is_active slice.now && contains h (slice_bounds slice.now)) }
{
    slice.state.is_active() && slice.range.contains(h)
}

// The first active slice that has the hash.
fn leader_of(slices: &[Slice], h: i32) -> Option<&Slice>
    ensures { option_copied result ≡ find (λ slice. is_active slice && contains h (slice_bounds slice)) slices.now }
{
    slices.iter().find(|slice| is_leader(slice, h))
}
