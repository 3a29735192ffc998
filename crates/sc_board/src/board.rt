ghost use Rattle.std.specs.Prelude.{◌≡◌, ◌<◌, ◌≤◌, [], Some, None, All};
ghost use Rattle.sc_cluster.specs.declared.slice.State.TheVariants as states;
ghost use Rattle.sc_cluster.specs.declared.slice.Slice.{Slice};
ghost use Rattle.sc_cluster.specs.Limits.{most_slices};
ghost use Rattle.sc_cluster.specs.Slices.{greatest_id};
ghost use Rattle.sc_journal.specs.Limits.{greatest_journal};

use crate::journal::BoardJournal;
use crate::leaders::Leaders;
use sc_cluster::{ClusterMap, Slice};
use sc_record::CloneIn;
use std::alloc::{AllocError, Global};

/// What an administrator sees of a collection, with the keepers of its buckets. Its fields are public; what `IsSoundBoard` says of
/// them is asked for and given back by each call.
#[derive(Drop)]
pub struct Board<K> {
    /// The map with which it was made.
    pub first: ClusterMap,
    /// The map after its journal.
    pub map: ClusterMap,
    /// The replica that leads each slice of the map, in its order.
    pub leaders: Leaders,
    pub journal: BoardJournal,
    /// How many entries the journal may have.
    pub limit: u64,
    /// How many entries the journal has still to get.
    pub owed: u64,
    /// The keepers of all buckets; None exactly while a split runs.
    pub keepers: Option<K>,
}

impl<K: Drop> Board<K> {
    ghost use Rattle.std.specs.Prelude.{◌≡◌, IfOk, length};
    ghost use Rattle.std.specs.Option.{option_copied};
    ghost use Rattle.std.specs.Borrow.{Lends, sem};
    ghost use Rattle.sc_board.specs.contracts.board.Board.{the_row};
    ghost use Rattle.sc_board.specs.Boards.{IsSoundBoard};
    ghost use Rattle.sc_board.specs.Splits.{slice_named};
    ghost use Rattle.sc_seen.specs.Board.{running_split};

    /// A board with an empty journal, whose first map is this. Its journal may have `limit` entries. An error means out of memory.
    pub fn new(
        alloc: Global,
        first: ClusterMap,
        limit: u64,
        keepers: K,
    ) -> Result<Board<K>, AllocError>
        requires active { All (λ (slice : Slice). slice.state ≡ states.Active) first }
        requires ids { greatest_id first < most_slices }
        requires limit { limit ≤ greatest_journal }
        ensures sound { IfOk result IsSoundBoard }
        ensures first { IfOk result (λ board. board.first ≡ first) }
        ensures limit { IfOk result (λ board. board.limit ≡ limit) }
        ensures journal { IfOk result (λ board. board.journal.entries ≡ []) }
        ensures keepers { IfOk result (λ board. board.keepers ≡ Some keepers) }
    {
        let map = first.clone_in(alloc)?;
        let _ = first.get(0); // by it the proof knows that it is a map
        let leaders = Leaders::first(alloc, map.len())?;
        Ok(Board {
            first,
            map,
            leaders,
            journal: BoardJournal::new(alloc),
            limit,
            owed: 0,
            keepers: Some(keepers),
        })
    }

    /// The slices as an administrator sees them.
    pub fn map(&self) -> &ClusterMap
        ensures { result.now ≡ self.now.map }
    {
        &self.map
    }

    /// How many entries the journal has.
    pub fn entries(&self) -> u64
        ensures { result ≡ length self.now.journal.entries }
    {
        self.journal.len()
    }

    /// The keepers of all buckets, while no split runs.
    pub fn keepers(&mut self) -> &mut K
        requires sound { IsSoundBoard self.old }
        requires idle { running_split self.old.journal.entries ≡ None }
        ensures keepers { self.old.keepers ≡ Some result.now }
        ensures* writes_back { sem 𝓛 (Lends (the_row K.row) K.row self.entry result (λ w. record self.old { keepers = Some w })) }
    {
        self.keepers.as_mut().unwrap()
    }

    /// The slice of this name.
    pub(crate) fn named(&self, shard: &str) -> Option<&Slice>
        requires { IsSoundBoard self.now }
        ensures { option_copied result ≡ slice_named self.now.map shard.now }
    {
        match self.map.by_name(shard) {
            Some(id) => self.map.by_id(id),
            None => None,
        }
    }
}
