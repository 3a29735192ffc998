ghost use Rattle.std.specs.Prelude.{◌≡◌, ℕ, ◌<◌, ◌≤◌, ◌+◌, ◌<ℤ◌, pos, Ok, Err, IfOk, IfErr, IfSome, OnOk, OnErr, ◌++◌, ◌&&◌, not, length, map, filter, slice_get, Some, None, option_copied, false, All, Contains};
ghost use Rattle.std.specs.List.{AllZip, IsDistinct};
ghost use Rattle.std.specs.Option.{option_map};
ghost use Rattle.std.specs.Arc.{arc_value};
ghost use Rattle.sc_values.specs.Fields.{IsDocument};
ghost use Rattle.sc_record.specs.Versions.{version_after};
ghost use Rattle.sc_cluster.specs.Slices.{is_inactive};
ghost use Rattle.sc_router.specs.Route.{route_hash};
ghost use Rattle.sc_replica.specs.Core.{Core};
ghost use Rattle.sc_partial.specs.Resolved.{fields_of};
ghost use Rattle.sc_journal.specs.Journal.{last_write};
ghost use Rattle.sc_journal.specs.Legal.{MayWrite};
ghost use Rattle.sc_journal.specs.Outcomes.{Makes, IsWriteOf, IsFitting, IsOutcome, live_fields};
ghost use Rattle.sc_record.specs.Names.{is_core};
ghost use Rattle.sc_replicas.specs.Cores.{has_hash, CoresAscend, follows, followers, IsLeaderAt};
ghost use Rattle.sc_bucket.specs.Kept.{FeedState};
ghost use Rattle.sc_bucket.specs.Flight.{sent_of, sent_to};
ghost use Rattle.sc_bucket.specs.Room.{basis, BucketHasRoom};
ghost use Rattle.sc_bucket.specs.Sound.{IsSound};
ghost use Rattle.sc_bucket.specs.Events.{Accepts, IsSameButRoom, outcome_of};
ghost use Rattle.sc_bucket.specs.Accepting.{IsRoomier, HasMore, HasMoreAt, HasMemory, IsNewWrite, IsPut};

use crate::bucket::Bucket;
use crate::message::Message;
use sc_cluster::{Slice, State};
use sc_partial::{PartialFault, resolve_fields};
use sc_record::{Cell, Change, CloneIn, CoreId, Doc, Entry, Id, Order, Text, Write, found, meets};
use sc_replica::Replica;
use sc_router::route_hash;
use sc_schema::terms_of;
use sc_spelling::Fields;
use std::alloc::{AllocError, Global};
use std::sync::Arc;
use thiserror::Error;

/// What an order that was accepted got: the version of its write as it is shown, a deletion's as its negative, and the place
/// of the write in the journal.
#[derive(Clone, Copy, Debug, PartialEq, Eq)]
pub struct Accepted {
    pub version: i64,
    pub place: u64,
}

/// Why an order was not accepted. The bucket is as it was, but for room in memory.
#[derive(Debug, Drop, Error)]
pub enum AcceptFault {
    /// The order's condition is not met by the version that was found.
    #[error("the version is {found}")]
    Conflict { found: i64 },
    /// The field of this name can't take its change.
    #[error("field '{0}' can't take this change")]
    Partial(Text),
    /// The journal has no room for the write and the entry that settles it.
    #[error("the update log is full")]
    LogFull,
    #[error("out of memory")]
    Memory,
}

impl From<AllocError> for AcceptFault {
    ghost use Rattle.std.specs.Prelude.{◌≡◌};
    ghost use Rattle.sc_bucket.specs.declared.accept.AcceptFault.TheVariants as faults;

    ghost from_gives = { λ _ fault. fault ≡ faults.Memory };

    fn from(_: AllocError) -> AcceptFault {
        AcceptFault::Memory
    }
}

impl From<PartialFault> for AcceptFault {
    ghost use Rattle.std.specs.Prelude.{◌≡◌};
    ghost use Rattle.sc_bucket.specs.Accepting.{accept_fault};

    ghost from_gives = { λ refusal fault. fault ≡ accept_fault refusal };

    fn from(refusal: PartialFault) -> AcceptFault {
        match refusal {
            PartialFault::Field(name) => AcceptFault::Partial(name),
            PartialFault::Memory => AcceptFault::Memory,
        }
    }
}

impl Bucket {
    /// Carries out an order at this timestamp, in milliseconds (Solr Reference Guide, "Optimistic Concurrency", "Atomic
    /// Updates"). The first cause of a refusal counts, in the order of `AcceptFault`; out of memory never stands in the place
    /// of a conflict. After a refusal the bucket is as it was, but for room in memory.
    pub fn accept(
        &mut self,
        alloc: Global,
        order: &Order,
        now: u64,
    ) -> Result<Accepted, AcceptFault>
        requires sound { IsSound self.old }
        ensures sound { IsSound self.new }
        ensures accepted { IfOk result (λ accepted. Accepts self.old order.now now accepted.version self.new) }
        ensures place { IfOk result (λ accepted. accepted.place ≡ length self.old.journal.entries) }
        ensures refused { OnErr result (IsSameButRoom self.old self.new) }
        ensures outcome { IsOutcome (basis self.old) self.old.journal.entries order.now now (outcome_of result) self.new.journal.entries }
    {
        let hash = route_hash(order.id.as_str());
        let leader = self.leader(hash);
        let write = self.write_for(alloc, order, now, hash, leader)?;
        let accepted = Accepted {
            version: write.shown(),
            place: self.entries(),
        };
        let (entry, cell) = shares(alloc, write)?;
        let messages = self.messages_for(alloc, leader, &cell)?;
        self.make_room(leader, &messages)?;
        self.put_in(leader, entry, cell, messages);
        Ok(accepted)
    }

    // The write that the order makes, whose id has the hash that the core at this place leads. The bucket is only read.
    fn write_for(
        &self,
        alloc: Global,
        order: &Order,
        now: u64,
        hash: i32,
        leader: usize,
    ) -> Result<Write, AcceptFault>
        requires sound { IsSound self.now }
        requires hash { hash ≡ route_hash order.now.id }
        requires leader { IsLeaderAt self.now.map self.now.replicas hash leader }
        requires within { leader < length self.now.replicas }
        ensures fitting { OnOk result (IsFitting self.now.journal.entries order.now) }
        ensures room { OnOk result (BucketHasRoom 2 self.now) }
        ensures made { IfOk result (IsWriteOf self.now.journal.entries order.now now) }
        ensures next { IfOk result (MayWrite self.now.journal.entries) }
        ensures hash { IfOk result (λ write. write.hash ≡ hash) }
        ensures version { IfOk result (λ write. (core : Core) → slice_get self.now.replicas leader ≡ Some core → write.version ≡ version_after now core.clock) }
        ensures refused { IfErr result (λ fault. IsOutcome (basis self.now) self.now.journal.entries order.now now (outcome_of (Err fault)) self.now.journal.entries) }
    {
        let (last, version) = self.replicas.next_of(leader, &order.id, now);
        self.made_for(alloc, order, last, hash, version)
    }

    // The write of this hash and version that the order makes of its id, whose last write this is.
    fn made_for(
        &self,
        alloc: Global,
        order: &Order,
        last: Option<&Cell>,
        hash: i32,
        version: i64,
    ) -> Result<Write, AcceptFault>
        requires sound { IsSound self.now }
        requires last { option_map arc_value (option_copied last) ≡ last_write self.now.journal.entries order.now.id }
        requires positive { pos 0 <ℤ version }
        ensures fitting { OnOk result (IsFitting self.now.journal.entries order.now) }
        ensures room { OnOk result (BucketHasRoom 2 self.now) }
        ensures made { IfOk result (λ write. Makes (last_write self.now.journal.entries order.now.id) order.now.change write.doc
            × IsNewWrite order.now.id hash version write) }
        ensures refused { IfErr result (λ fault. (now : ℕ) → IsOutcome (basis self.now) self.now.journal.entries order.now now (outcome_of (Err fault)) self.now.journal.entries) }
    {
        let found = found(last);
        if !meets(order.condition, found) {
            return Err(AcceptFault::Conflict { found });
        }
        match &order.change {
            Change::Whole(doc) => self.write_of(alloc, order, hash, version, Some(doc)),
            Change::Parts(parts) => {
                let doc = resolve_fields(alloc, live(last), parts.as_slice())?;
                self.write_of(alloc, order, hash, version, Some(&doc))
            }
            Change::Delete => self.write_of(alloc, order, hash, version, None),
        }
    }

    // The write of this hash and version that leaves this document of the order's id; the order fits.
    fn write_of(
        &self,
        alloc: Global,
        order: &Order,
        hash: i32,
        version: i64,
        doc: Option<&Doc>,
    ) -> Result<Write, AcceptFault>
        requires sound { IsSound self.now }
        requires fitting { IsFitting self.now.journal.entries order.now }
        requires positive { pos 0 <ℤ version }
        ensures room { OnOk result (BucketHasRoom 2 self.now) }
        ensures made { IfOk result (λ write. (write.doc ≡ option_copied doc.entry) × IsNewWrite order.now.id hash version write) }
        ensures refused { IfErr result (λ fault. (now : ℕ) → IsOutcome (basis self.now) self.now.journal.entries order.now now (outcome_of (Err fault)) self.now.journal.entries) }
    {
        if self.limit < self.entries() + self.owed + 2 {
            return Err(AcceptFault::LogFull);
        }
        let id = order.id.clone_in(alloc)?;
        Ok(new_write(alloc, id, hash, version, doc)?)
    }

    // The messages that send a write, which the core at this place leads, to each other core that takes it.
    fn messages_for(
        &self,
        alloc: Global,
        leader: usize,
        write: &Cell,
    ) -> Result<Vec<Message>, AllocError>
        requires within { leader < length self.now.replicas }
        ensures { IfOk result (λ messages. (core : Core) → slice_get self.now.replicas leader ≡ Some core
            → map sent_of messages.items ≡ sent_to (length self.now.journal.entries) (arc_value write.now)
            (followers self.now.map self.now.replicas (arc_value write.now).hash core.core)) }
    {
        let leader = self.replicas.get(leader).core();
        let mut messages = Vec::new(alloc);
        for at in 0..self.map.len() {
            let slice = self.map.get(at).unwrap();
            if takes(slice, write.hash()) {
                self.push_messages(&mut messages, leader, slice, write)?;
            }
        }
        Ok(messages)
    }

    // Puts the messages that send a write to the slice's cores, but to its own leader, at the end.
    fn push_messages(
        &self,
        messages: &mut Vec<Message>,
        leader: CoreId,
        slice: &Slice,
        write: &Cell,
    ) -> Result<(), AllocError>
        ensures { OnOk result (map sent_of messages.new.items ≡ map sent_of messages.old.items
            ++ sent_to (length self.now.journal.entries) (arc_value write.now)
            (map (λ (core : Core). core.core) (filter (follows leader slice.now) self.now.replicas))) }
    {
        for at in 0..self.replicas.len() {
            let replica = self.replicas.get(at);
            if follows(leader, slice, replica) {
                messages.push(Message {
                    place: self.entries(),
                    core: replica.core(),
                    write: Arc::try_clone(write)?,
                })?;
            }
        }
        Ok(())
    }

    // Makes room for a write that the core at this place leads and that these messages send to the others, and for the entries
    // that are owed with it.
    fn make_room(&mut self, leader: usize, messages: &[Message]) -> Result<(), AllocError>
        requires sound { IsSound self.old }
        requires within { leader < length self.old.replicas }
        requires there { All (Contains (map (λ (core : Core). core.core) self.old.replicas)) (map (λ (message : Message). message.core) messages.now) }
        requires once { IsDistinct is_core (map (λ (message : Message). message.core) messages.now) }
        requires others { (core : Core) → slice_get self.old.replicas leader ≡ Some core
            → All (λ name. is_core core.core name ≡ false) (map (λ (message : Message). message.core) messages.now) }
        ensures sound { IsSound self.new }
        ensures same { IsSameButRoom self.old self.new }
        ensures memory { OnOk result (HasMemory self.new leader (map sent_of messages.now)) }
    {
        self.journal.reserve(self.owed as usize + 2)?;
        self.unsettled.reserve(1)?;
        self.flight.reserve(messages.len())?;
        self.reserve_in_cores(leader, messages)
    }

    // Makes room in the core at this place, and in each that a message goes to, for one more write than all that could be pending
    // for it.
    fn reserve_in_cores(&mut self, leader: usize, messages: &[Message]) -> Result<(), AllocError>
        requires within { leader < length self.old.replicas }
        requires ascend { CoresAscend self.old.replicas }
        requires feeds { IsDistinct is_core (map (λ (feed : FeedState). feed.core) self.old.feeds) }
        requires there { All (Contains (map (λ (core : Core). core.core) self.old.replicas)) (map (λ (message : Message). message.core) messages.now) }
        ensures rest { self.new ≡ record self.old { replicas = self.new.replicas } }
        ensures cores { AllZip IsRoomier self.old.replicas self.new.replicas }
        ensures messages { OnOk result (All (HasMoreAt self.old.flight.messages self.old.feeds self.new.replicas) (map (λ (message : Message). message.core) messages.now)) }
        ensures leader { OnOk result ((core : Core) → slice_get self.new.replicas leader ≡ Some core → HasMore self.old.flight.messages self.old.feeds core) }
    {
        for message in messages {
            let core = self.replicas.position(message.core).unwrap();
            self.reserve_in(core)?;
        }
        self.reserve_in(leader)
    }

    // Makes room in the core at this place for one more write than all that could be pending for it.
    fn reserve_in(&mut self, at: usize) -> Result<(), AllocError>
        requires within { at < length self.old.replicas }
        requires feeds { IsDistinct is_core (map (λ (feed : FeedState). feed.core) self.old.feeds) }
        ensures rest { self.new ≡ record self.old { replicas = self.new.replicas } }
        ensures cores { AllZip IsRoomier self.old.replicas self.new.replicas }
        ensures more { OnOk result ((core : Core) → slice_get self.new.replicas at ≡ Some core → HasMore self.old.flight.messages self.old.feeds core) }
    {
        let replica = self.replicas.get(at);
        let arriving = self
            .flight
            .len()
            .checked_add(replica.buffered())
            .ok_or(AllocError)?;
        let pending = arriving
            .checked_add(self.feeds.pending_for(replica.core()))
            .ok_or(AllocError)?;
        let more = pending.checked_add(1).ok_or(AllocError)?;
        self.replicas.reserve(at, more)
    }

    // Puts a write, of which there are two shares, into the journal and into the core at this place, and sends it to the others.
    // It takes no memory.
    fn put_in(&mut self, leader: usize, entry: Cell, cell: Cell, messages: Vec<Message>)
        requires sound { IsSound self.old }
        requires memory { HasMemory self.old leader (map sent_of messages.items) }
        requires within { leader < length self.old.replicas }
        requires leader { IsLeaderAt self.old.map self.old.replicas (arc_value entry).hash leader }
        requires shares { arc_value cell ≡ arc_value entry }
        requires next { MayWrite self.old.journal.entries (arc_value entry) }
        requires room { BucketHasRoom 2 self.old }
        requires above { (core : Core) → slice_get self.old.replicas leader ≡ Some core → core.clock <ℤ (arc_value entry).version }
        requires sent { (core : Core) → slice_get self.old.replicas leader ≡ Some core
            → map sent_of messages.items ≡ sent_to (length self.old.journal.entries) (arc_value entry)
            (followers self.old.map self.old.replicas (arc_value entry).hash core.core) }
        ensures sound { IsSound self.new }
        ensures put { IsPut self.old entry leader (map sent_of messages.items) self.new }
    {
        self.unsettled.append(self.journal.len());
        self.journal.append(Entry::Write(entry));
        self.replicas.lead(leader, cell);
        self.flight.append(messages);
        self.owed += 1;
    }
}

// The slice's cores are sent a write of this hash.
fn takes(slice: &Slice, hash: i32) -> bool
    ensures { result ≡ (not (is_inactive slice.now) && has_hash hash slice.now) }
{
    slice.state != State::Inactive && slice.range.contains(hash)
}

// The core is one of the slice's, not the one that led, and not down.
fn follows(leader: CoreId, slice: &Slice, replica: &Replica) -> bool
    ensures { result ≡ follows leader slice.now replica.now }
{
    let core = replica.core();
    core.slice == slice.id && core != leader && !replica.is_down()
}

// Two shares of a write.
fn shares(alloc: Global, write: Write) -> Result<(Cell, Cell), AllocError>
    ensures { IfOk result (λ shares. (arc_value shares.0 ≡ write) × (arc_value shares.1 ≡ write)) }
{
    let Ok(cell) = Arc::new(alloc, write) else {
        return Err(AllocError);
    };
    let share = Arc::try_clone(&cell)?;
    Ok((cell, share))
}

// A write of this document, or a deletion where there is none.
fn new_write(
    alloc: Global,
    id: Id,
    hash: i32,
    version: i64,
    doc: Option<&Doc>,
) -> Result<Write, AllocError>
    requires { pos 0 <ℤ version }
    ensures { IfOk result (λ write. (write.doc ≡ option_copied doc.entry) × IsNewWrite id hash version write) }
{
    let Some(doc) = doc else {
        return Ok(Write::deletion(alloc, id, hash, version));
    };
    let terms = terms_of(alloc, &id, doc)?;
    Write::new(alloc, id, hash, version, doc, &terms)
}

// The fields of the document of an id whose last write this is, where it is live.
fn live(last: Option<&Cell>) -> Option<Fields<'_>>
    ensures fields { live_fields (option_map arc_value (option_copied last.entry)) ≡ fields_of result }
    ensures document { IfSome result IsDocument }
{
    match last {
        Some(write) => write.doc(),
        None => None,
    }
}
