ghost use Rattle.std.specs.Prelude.{◌≡◌, ◌<◌, ◌+◌, [], None, length};
ghost use Rattle.sc_journal.specs.Down.{all_followers};
ghost use Rattle.sc_bucket.specs.Sound.{AreActive};

use crate::commit::first_searchers;
use crate::feeds::Feeds;
use crate::flight::Flight;
use crate::journal::Journal;
use crate::phase::Phase;
use crate::unsettled::Unsettled;
use sc_cluster::{ClusterMap, Slice};
use sc_record::{Cell, CloneIn, CoreId, Id, List};
use sc_replicas::{Replicas, Standing};
use sc_router::route_hash;
use std::alloc::{AllocError, Global};

/// One bucket. Its fields are public, since the events of a split work on them too; what `IsSound` says of them is asked for
/// and given back by each event.
#[derive(Drop)]
pub struct Bucket {
    /// The map with which it was made.
    pub first: ClusterMap,
    /// The map after its journal.
    pub map: ClusterMap,
    pub journal: Journal,
    /// The places of the writes that are not settled.
    pub unsettled: Unsettled,
    /// The cores that are there: a replica for each, in the order of the map's slices, and of each slice from 1.
    pub replicas: Replicas,
    /// The writes that are sent to cores and did not come there yet.
    pub flight: Flight,
    /// What serves searches: for each active slice, in the map's order, what was committed there.
    pub searchers: List<Standing>,
    /// How far its split has come.
    pub phase: Phase,
    /// What the cores that are catching up are fed from: those that a split makes, and followers while no split is open.
    pub feeds: Feeds,
    /// The searchers as the switch will leave them; None where no split is open.
    pub spares: Option<List<Standing>>,
    /// How many entries the journal has still to get.
    pub owed: u64,
    /// How many entries the journal may have.
    pub limit: u64,
}

impl Bucket {
    ghost use Rattle.std.specs.Prelude.{◌≡◌, ◌<◌, ◌≤◌, ◌+◌, length, IfOk, IsSome, option_copied};
    ghost use Rattle.std.specs.Option.{option_map};
    ghost use Rattle.std.specs.Arc.{arc_value};
    ghost use Rattle.sc_journal.specs.Journal.{last_write, write_at, is_settled};
    ghost use Rattle.sc_journal.specs.Limits.{least_journal, greatest_journal};
    ghost use Rattle.sc_journal.specs.Down.{all_followers};
    ghost use Rattle.sc_replicas.specs.Cores.{IsLeaderAt};
    ghost use Rattle.sc_bucket.specs.Sound.{AreActive, IsSound};
    ghost use Rattle.sc_bucket.specs.New.{IsNewBucket};

    /// A bucket with an empty journal, whose first map is this, with a core for each replica of a slice. Its journal may have `limit`
    /// entries, of which each follower is owed one. An error means out of memory.
    pub fn new(alloc: Global, map: &ClusterMap, limit: u64) -> Result<Bucket, AllocError>
        requires active { AreActive map.now }
        requires least { least_journal + length (all_followers map.now) ≤ limit }
        requires most { limit ≤ greatest_journal }
        ensures { IfOk result (IsNewBucket map.now limit) }
    {
        let replicas = Replicas::new(alloc, map)?;
        let searchers = first_searchers(alloc, map)?;
        let first = map.clone_in(alloc)?;
        let slices = map.clone_in(alloc)?;
        let _ = map.get(0); // by it the proof knows that it is a map
        let owed = followers(map);
        let journal = Journal::with_room(alloc, owed as usize)?;
        Ok(begun(
            alloc, first, slices, journal, replicas, searchers, owed, limit,
        ))
    }

    /// How many entries the journal has.
    pub fn entries(&self) -> u64
        ensures count { result ≡ length self.now.journal.entries }
        ensures few { IsSound self.now → result ≤ greatest_journal }
    {
        self.journal.len()
    }

    /// The last write of an id, a deletion too; none exactly where the id was never written. It is the cell of the leader that
    /// serves the id's hash, committed or not (Solr Reference Guide, "RealTime Get").
    pub fn read(&self, id: &Id) -> Option<&Cell>
        requires { IsSound self.now }
        ensures { option_map arc_value (option_copied result) ≡ last_write self.now.journal.entries id.now }
    {
        let leader = self.leader(route_hash(id.as_str()));
        self.replicas.get(leader).cell(id)
    }

    /// Whether an entry settles the write at the place.
    pub fn is_settled(&self, place: u64) -> bool
        requires sound { IsSound self.now }
        requires written { IsSome (write_at self.now.journal.entries place) }
        ensures { result ≡ is_settled self.now.journal.entries place }
    {
        !self.unsettled.contains(place)
    }

    /// The place of the core that serves the hash: the leader of the active slice that has it.
    pub(crate) fn leader(&self, hash: i32) -> usize
        requires { IsSound self.now }
        ensures leader { IsLeaderAt self.now.map self.now.replicas hash result }
        ensures within { result < length self.now.replicas }
    {
        let slice = self.map.leads(hash);
        self.replicas
            .position(CoreId { slice, replica: 1 })
            .unwrap()
    }
}

// A bucket of these parts, in which nothing is in flight, and no split is open.
fn begun(
    alloc: Global,
    first: ClusterMap,
    map: ClusterMap,
    journal: Journal,
    replicas: Replicas,
    searchers: List<Standing>,
    owed: u64,
    limit: u64,
) -> Bucket
    ensures { result ≡ record {
      first = first;
      map = map;
      journal = journal;
      unsettled = record { places = []; room = 0 };
      replicas = replicas;
      flight = record { messages = []; room = 0 };
      searchers = searchers;
      phase = Phase.Idle;
      feeds = [];
      spares = None;
      owed = owed;
      limit = limit;
    } }
{
    Bucket {
        first,
        map,
        journal,
        unsettled: Unsettled::new(alloc),
        replicas,
        flight: Flight::new(alloc),
        searchers,
        phase: Phase::Idle,
        feeds: Feeds::new(alloc),
        spares: None,
        owed,
        limit,
    }
}

// How many followers the slices of a map have, all of which are active.
fn followers(map: &ClusterMap) -> u64
    requires { AreActive map.now }
    ensures { result ≡ length (all_followers map.now) }
{
    let mut count = 0;
    for at in 0..map.len() {
        count += followers_of(map.get(at).unwrap());
    }
    count
}

// How many followers the slice has: one less than replicas.
fn followers_of(slice: &Slice) -> u64
    ensures count { result + 1 ≡ slice.now.replicas }
    ensures few { result < 256 }
{
    u64::from(slice.replicas - 1)
}
