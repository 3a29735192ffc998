ghost use Rattle.std.specs.Prelude.{IfOk, MatchOption, drop};
ghost use Rattle.sc_bucket.specs.Sound.{IsSound};
ghost use Rattle.sc_bucket.specs.Searchers.{NoneIsActive, IsFirstSearcher};

use crate::bucket::Bucket;
use sc_cluster::State;
use sc_replicas::{Searcher, searcher_for};
use std::alloc::AllocError;
use std::sync::Arc;

impl Bucket {
    /// The searcher of the first active slice at a place of the map not below `from`; None exactly where there is none. By it
    /// all searchers are found in turn, each from the `next` of the one before. The only error is that memory was refused.
    pub fn searcher(&self, from: usize) -> Result<Option<Searcher>, AllocError>
        requires { IsSound self.now }
        ensures { IfOk result (λ found. MatchOption found (NoneIsActive (drop from self.now.map))
            (IsFirstSearcher self.now.map self.now.searchers self.now.journal.entries from)) }
    {
        for at in from..self.map.len() {
            let slice = self.map.get(at).unwrap();
            if slice.state == State::Active {
                let standing = searcher_for(&self.searchers, slice.id);
                return Ok(Some(Searcher {
                    next: at + 1,
                    range: standing.range,
                    snapshot: Arc::try_clone(&standing.snapshot)?,
                }));
            }
        }
        Ok(None)
    }
}
