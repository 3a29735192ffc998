ghost use Rattle.std.specs.Prelude.{◌≡◌, [], ◌++◌, true, false, ◌<◌, ◌≤◌, ◌<ℤ◌, ◌-◌, ◌^◌, pos, length, map, filter, slice_get, slice_set, Some, option_copied, MatchOption, IfOk, OnOk, OnErr, IsTrue, All, Contains, ◌↔◌, ◌≢◌};
ghost use Rattle.std.specs.Arc.{arc_value};
ghost use Rattle.std.specs.List.{insert};
ghost use Rattle.std.specs.Option.{option_map};
ghost use Rattle.sc_record.specs.Versions.{version_after};
ghost use Rattle.sc_record.specs.Writes.{write_of};
ghost use Rattle.sc_replica.specs.Core.{Core, IsCore, led, received, fed, replayed};
ghost use Rattle.sc_replica.specs.Deliveries.{replaying};
ghost use Rattle.sc_record.specs.Names.{is_core};
ghost use Rattle.sc_replicas.specs.Cores.{core_key, core_keys, slice_keys, core_number, put_by_name, is_of_one, IsCounted, IsNewCore, is_numbered, seated, with_room};

use sc_cluster::{ClusterMap, Slice};
use sc_record::{Cell, CoreId, Id, SliceId, next_version};
use sc_replica::Replica;
use sc_ulog::Mode;
use std::alloc::{AllocError, Global};
use std::marker::Model;

/// The cores of a bucket, which contracts see as the list of them.
#[derive(Drop)]
pub struct Replicas {
    replicas: Vec<Replica>,
}

impl Model for Replicas {
    ghost use Rattle.std.specs.Prelude.{List};
    ghost use Rattle.sc_replica.specs.Core.{Core};

    ghost Value = { List Core };

    ghost view = { λ a. a.replicas.items };
}

impl Replicas {
    /// The cores of a map's slices, each replica of each slice in order, without cells. An error means out of memory.
    pub fn new(alloc: Global, slices: &ClusterMap) -> Result<Replicas, AllocError>
        ensures keys { IfOk result (λ cores. map core_key cores ≡ core_keys slices.now) }
        ensures new { IfOk result (All IsNewCore) }
        ensures counted { IfOk result (All IsCounted) }
    {
        let mut replicas = Vec::new(alloc);
        for at in 0..slices.len() {
            let slice = slices.get(at).unwrap();
            push_replicas(alloc, &mut replicas, slice)?;
        }
        replicas.shrink_to_fit();
        Ok(Replicas { replicas })
    }

    /// These cores, with no copy.
    pub fn from_vec(replicas: Vec<Replica>) -> Replicas
        ensures { result ≡ replicas.items }
    {
        Replicas { replicas }
    }

    /// How many cores there are.
    pub fn len(&self) -> usize
        ensures { result ≡ length self.now }
    {
        self.replicas.len()
    }

    /// The core at this place of the list, from 0.
    pub fn get(&self, at: usize) -> &Replica
        requires { at < length self.now }
        ensures { slice_get self.now at ≡ Some result.now }
    {
        &self.replicas[at]
    }

    /// The last write of the id in the core at this place, and the version that its next write gets at this timestamp, in milliseconds:
    /// one after the core's clock, or the timestamp's where that is greater.
    pub fn next_of(&self, at: usize, id: &Id, now: u64) -> (Option<&Cell>, i64)
        requires within { at < length self.now }
        requires can_rise { (core : Core) → slice_get self.now at ≡ Some core → core.clock <ℤ pos (2 ^ 63 - 1) }
        ensures last { (core : Core) → slice_get self.now at ≡ Some core → option_map arc_value (option_copied result.0) ≡ write_of core.cells id.now }
        ensures core { (core : Core) → slice_get self.now at ≡ Some core → IsCore core }
        ensures version { (core : Core) → slice_get self.now at ≡ Some core → result.1 ≡ version_after now core.clock }
    {
        let replica = self.get(at);
        let last = replica.cell(id);
        (last, next_version(now, replica.clock()))
    }

    /// The place of the core of this name; None where it is not there.
    pub fn position(&self, core: CoreId) -> Option<usize>
        ensures { MatchOption result (All (λ (other : Core). is_core core other.core ≡ false) self.now)
            (λ at. (there : Core) × (slice_get self.now at ≡ Some there) × (is_core core there.core ≡ true)) }
    {
        self.replicas
            .iter()
            .position(|replica| replica.core() == core)
    }

    /// Makes room for `n` more writes in the core at this place. An error means out of memory.
    pub fn reserve(&mut self, at: usize, n: usize) -> Result<(), AllocError>
        requires { at < length self.old }
        ensures ok { OnOk result ((core : Core) → slice_get self.old at ≡ Some core → self.new ≡ slice_set self.old at (with_room n core)) }
        ensures err { OnErr result (self.new ≡ self.old) }
    {
        self.replicas[at].reserve(n)
    }

    /// Puts more cores at the end, all of them or, where memory was refused, none.
    pub fn append(&mut self, mut more: Vec<Replica>) -> Result<(), AllocError>
        ensures ok { OnOk result (self.new ≡ self.old ++ more.items) }
        ensures err { OnErr result (self.new ≡ self.old) }
    {
        self.replicas.append(&mut more)
    }

    /// Puts a core in before the first whose name comes later. After an error they are as before: memory was refused.
    pub fn insert(&mut self, replica: Replica) -> Result<(), AllocError>
        ensures ok { OnOk result (self.new ≡ put_by_name replica self.old) }
        ensures err { OnErr result (self.new ≡ self.old) }
    {
        let at = self.place_for(replica.core());
        self.replicas.insert(at, replica)?;
        Ok(())
    }

    // The place of the first core whose name comes after this one; the end where there is none.
    fn place_for(&self, core: CoreId) -> usize
        ensures within { result ≤ length self.now }
        ensures place { (named : Core) → named.core ≡ core → insert self.now result named ≡ put_by_name named self.now }
    {
        let number = number(core);
        self.replicas
            .iter()
            .position(|other| number < number_of(other))
            .unwrap_or(self.replicas.len())
    }

    /// Keeps the cores of the map's slices.
    pub fn keep_of(&mut self, slices: &ClusterMap)
        ensures { self.new ≡ filter (λ (core : Core). is_of_one slices.now core.core) self.old }
    {
        self.replicas
            .retain(|replica| is_of_one(slices, replica.core()));
    }

    /// Feeds the core at this place a write of a snapshot. It takes no memory.
    pub fn feed(&mut self, at: usize, write: Cell)
        requires within { at < length self.old }
        requires room { (core : Core) → slice_get self.old at ≡ Some core → 0 < core.cell_spare }
        ensures { (core : Core) → slice_get self.old at ≡ Some core → self.new ≡ slice_set self.old at (fed core (arc_value write)) }
    {
        self.replicas[at].feed(write);
    }

    /// Marks the core at this place as down.
    pub fn mark_down(&mut self, at: usize)
        requires { at < length self.old }
        ensures { (core : Core) → slice_get self.old at ≡ Some core → self.new ≡ slice_set self.old at (record core { down = true }) }
    {
        self.replicas[at].mark_down();
    }

    /// The seat of the slice's core of this number; None where it is not there.
    pub fn seat_of(&self, slice: SliceId, number: u8) -> Option<u8>
        ensures { MatchOption result (All (λ (core : Core). is_numbered slice number core ≡ false) self.now)
            (λ seat. (core : Core) × Contains self.now core × (core.core.replica ≡ seat) × (is_numbered slice number core ≡ true)) }
    {
        let replica = self.replicas.iter().find(|replica| replica.core().slice == slice
            && replica.number() == number)?;
        Some(replica.core().replica)
    }

    /// Has the cores at these two places change seats. The first seat is up then, and the second down.
    pub fn exchange(&mut self, first: usize, second: usize)
        requires first { first < length self.old }
        requires second { second < length self.old }
        ensures { (one other : Core) → slice_get self.old first ≡ Some one → slice_get self.old second ≡ Some other
            → self.new ≡ slice_set (slice_set self.old first (seated one.core false other)) second (seated other.core true one) }
    {
        let seat = self.replicas[first].core();
        let other = self.replicas[second].core();
        self.replicas.swap(first, second);
        self.replicas[first].take_seat(seat, false);
        self.replicas[second].take_seat(other, true);
    }

    /// Puts a new core in the place of the one at this place, whose number it takes.
    pub fn renew(&mut self, at: usize, mut fresh: Replica)
        requires { at < length self.old }
        ensures { (core : Core) → slice_get self.old at ≡ Some core → self.new ≡ slice_set self.old at (record fresh { number = core.number }) }
    {
        fresh.set_number(self.replicas[at].number());
        self.replicas[at] = fresh;
    }

    /// From here on the core at this place replays what it buffered, and applies what comes.
    pub fn start_replay(&mut self, at: usize)
        requires within { at < length self.old }
        requires buffering { (core : Core) → slice_get self.old at ≡ Some core → core.mode ≡ Mode.Buffering }
        ensures { (core : Core) → slice_get self.old at ≡ Some core → self.new ≡ slice_set self.old at (replaying core) }
    {
        self.replicas[at].start_replay();
    }

    /// Has the core at this place apply the oldest 64 writes of its buffer, or all where they are fewer, and says whether its buffer is
    /// empty then. With that the core is active. It takes no memory.
    pub fn replay(&mut self, at: usize) -> bool
        requires within { at < length self.old }
        requires replaying { (core : Core) → slice_get self.old at ≡ Some core → core.mode ≡ Mode.Replaying }
        requires room { (core : Core) → slice_get self.old at ≡ Some core → length core.buffer ≤ core.cell_spare }
        ensures value { (core : Core) → slice_get self.old at ≡ Some core → self.new ≡ slice_set self.old at (replayed core) }
        ensures done { (core : Core) → slice_get self.old at ≡ Some core → IsTrue result ↔ ((replayed core).buffer ≡ []) }
        ensures active { (core : Core) → slice_get self.old at ≡ Some core → IsTrue result ↔ ((replayed core).mode ≡ Mode.Active) }
    {
        self.replicas[at].replay()
    }

    /// Has the core at this place lead the write. It takes no memory.
    pub fn lead(&mut self, at: usize, write: Cell)
        requires within { at < length self.old }
        requires above { (core : Core) → slice_get self.old at ≡ Some core → core.clock <ℤ (arc_value write).version }
        requires room { (core : Core) → slice_get self.old at ≡ Some core → 0 < core.cell_spare }
        ensures { (core : Core) → slice_get self.old at ≡ Some core → self.new ≡ slice_set self.old at (led core (arc_value write)) }
    {
        self.replicas[at].lead(write);
    }

    /// Sends the write to the core at this place. It takes no memory.
    pub fn receive(&mut self, at: usize, write: Cell)
        requires within { at < length self.old }
        requires room { (core : Core) → slice_get self.old at ≡ Some core → (0 < core.cell_spare) × (0 < core.buffer_spare) }
        ensures { (core : Core) → slice_get self.old at ≡ Some core → self.new ≡ slice_set self.old at (received core (arc_value write)) }
    {
        self.replicas[at].receive(write);
    }
}

/// The core's slice is one of the map's.
pub fn is_of_one(slices: &ClusterMap, core: CoreId) -> bool
    ensures { result ≡ is_of_one slices.now core }
{
    slices.by_id(core.slice).is_some()
}

// The number of a core's name.
fn number(core: CoreId) -> u64
    ensures { result ≡ core_number core }
{
    u64::from(core.slice.0) * 256 + u64::from(core.replica)
}

fn number_of(replica: &Replica) -> u64
    ensures { result ≡ core_number replica.now.core }
{
    number(replica.core())
}

// Puts the replicas of a slice at the end, from 1, without cells.
fn push_replicas(
    alloc: Global,
    replicas: &mut Vec<Replica>,
    slice: &Slice,
) -> Result<(), AllocError>
    ensures keys { OnOk result (map core_key replicas.new.items ≡ map core_key replicas.old.items ++ slice_keys slice.now) }
    ensures new { All IsNewCore replicas.old.items → All IsNewCore replicas.new.items }
    ensures counted { All IsCounted replicas.old.items → All IsCounted replicas.new.items }
{
    for below in 0..slice.replicas {
        let core = CoreId {
            slice: slice.id,
            replica: below + 1,
        };
        replicas.push(Replica::new(alloc, core, Mode::Active))?;
    }
    Ok(())
}
