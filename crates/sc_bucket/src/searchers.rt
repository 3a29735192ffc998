ghost use Rattle.std.specs.Prelude.{◌≡◌, filter, OnOk};
ghost use mathlib.Core.List.{IsPrefix};
ghost use Rattle.sc_bucket.specs.Sound.{IsSound};
ghost use Rattle.sc_bucket.specs.Asked.{asks_for, is_asked, AreOfSlices, AddsSearchers};

use crate::bucket::Bucket;
use sc_cluster::State;
use sc_hash::Range;
use sc_replicas::Searcher;
use std::alloc::AllocError;
use std::sync::Arc;

impl Bucket {
    /// Puts the searchers of the active slices that the route asks for at the end of the others, in the order of the map: each shares
    /// its slice's snapshot. It goes once over the map and once over the searchers. The only error is that memory was refused; what was
    /// put there up to then stays.
    pub fn searchers(
        &self,
        route: &Option<Range>,
        into: &mut Vec<Searcher>,
    ) -> Result<(), AllocError>
        requires sound { IsSound self.now }
        ensures all { OnOk result (AddsSearchers (AreOfSlices self.now.journal.entries (filter (is_asked route.now) self.now.map))
            into.old.items into.new.items) }
        ensures stays { IsPrefix into.old.items into.new.items }
    {
        let mut standings = self.searchers.iter();
        for at in 0..self.map.len() {
            let slice = self.map.get(at).unwrap();
            if slice.state == State::Active {
                let standing = standings.next().unwrap();
                if asks_for(route, &slice.range) {
                    into.push(Searcher {
                        next: at + 1,
                        range: standing.range,
                        snapshot: Arc::try_clone(&standing.snapshot)?,
                    })?;
                }
            }
        }
        Ok(())
    }
}

// Whether the route asks for slices of this range.
fn asks_for(route: &Option<Range>, range: &Range) -> bool
    ensures { result ≡ asks_for route.now range.now }
{
    match route {
        Some(route) => range.meets(route),
        None => true,
    }
}
