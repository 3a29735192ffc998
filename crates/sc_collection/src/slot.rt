//! Where a bucket lies, so that taking it out and putting it back copy it once each and take no memory.
ghost use Rattle.std.specs.Prelude.{◌≡◌, Some, None, IfOk, IsSome};

use sc_bucket::Bucket;
use std::alloc::{AllocError, Global};
use std::marker::Model;
use std::snapshot::Snapshot;

/// The place of a bucket, which contracts see as the bucket in it, or none while it is out. It is a list of one at most whose room
/// stays, so that the bucket is copied once as it is taken out and once as it is put back: an `Option` would be written whole when it
/// is emptied, and read whole when it is filled.
#[derive(Drop)]
pub(crate) struct Slot {
    bucket: Vec<Bucket>,
}

impl Model for Slot {
    ghost use Rattle.std.specs.Prelude.{◌≤◌, Option, vec_len, vec_capacity, slice_get};
    ghost use Rattle.sc_bucket.specs.declared.bucket.Bucket.{Bucket};

    ghost Value = { Option Bucket };

    ghost view = { λ a. slice_get a.bucket.items 0 };

    ghost invariant = { λ a. (vec_len a.bucket ≤ 1) × (1 ≤ vec_capacity a.bucket) };
}

impl Slot {
    /// A slot with this bucket. An error means out of memory.
    pub(crate) fn full(alloc: Global, bucket: Bucket) -> Result<Slot, AllocError>
        ensures { IfOk result (λ slot. slot ≡ Some bucket) }
    {
        let mut place = Vec::with_capacity(alloc, 1)?;
        place.push_reserved(bucket);
        Ok(Slot { bucket: place })
    }

    // The bucket in it.
    fn bucket(&self) -> &Bucket
        requires { IsSome self.now }
        ensures { self.now ≡ Some result.now }
    {
        &self.bucket[0]
    }

    /// Takes the bucket out.
    #[inline(always)]
    pub(crate) fn take(&mut self) -> Bucket
        requires { IsSome self.old }
        ensures was { self.old ≡ Some result }
        ensures empty { self.new ≡ None }
    {
        self.bucket.take_last()
    }

    /// Puts the bucket into an empty slot. It takes no memory.
    #[inline(always)]
    pub(crate) fn put(&mut self, bucket: Bucket)
        requires { self.old ≡ None }
        ensures { self.new ≡ Some bucket }
    {
        self.bucket.push_reserved(bucket);
    }
}

/// A bucket in a slot of its own, which contracts see as the bucket. It is small, so it may be moved where a bucket would be copied.
#[derive(Drop)]
pub struct FullSlot {
    slot: Slot,
    /// It has no bytes: by it proofs name the bucket.
    bucket: Snapshot<Bucket>,
}

impl Model for FullSlot {
    ghost use Rattle.std.specs.Prelude.{◌≡◌, Some};
    ghost use Rattle.sc_bucket.specs.declared.bucket.Bucket.{Bucket};

    ghost Value = { Bucket };

    ghost view = { λ a. a.bucket.value };

    ghost invariant = { λ a. a.slot ≡ Some a.bucket.value };
}

impl FullSlot {
    /// The bucket in a new slot. An error means out of memory.
    pub fn new(alloc: Global, bucket: Bucket) -> Result<FullSlot, AllocError>
        ensures { IfOk result (λ slot. slot ≡ bucket) }
    {
        let was = Snapshot::of(&bucket);
        let slot = Slot::full(alloc, bucket)?;
        Ok(FullSlot { slot, bucket: was })
    }

    /// The bucket in it.
    pub fn bucket(&self) -> &Bucket
        ensures { result.now ≡ self.now }
    {
        self.slot.bucket()
    }

    /// Takes the bucket out, and leaves its slot, to put it back into.
    #[inline(always)]
    pub fn take(self) -> (Bucket, EmptySlot)
        ensures { result.0 ≡ self }
    {
        let FullSlot { slot, bucket: _ } = self;
        let mut slot = slot;
        let bucket = slot.take();
        (bucket, EmptySlot { slot })
    }
}

/// The slot of a bucket that is out. It says nothing of the bucket.
#[derive(Drop)]
pub struct EmptySlot {
    slot: Slot,
}

impl Model for EmptySlot {
    ghost use Rattle.std.specs.Prelude.{◌≡◌, None};

    ghost Value = { Unit {0} };

    ghost view = { λ a. tt };

    ghost invariant = { λ a. a.slot ≡ None };
}

impl EmptySlot {
    /// Puts a bucket into it. It takes no memory.
    #[inline(always)]
    pub fn put(self, bucket: Bucket) -> FullSlot
        ensures { result ≡ bucket }
    {
        let EmptySlot { slot } = self;
        let mut slot = slot;
        let was = Snapshot::of(&bucket);
        slot.put(bucket);
        FullSlot { slot, bucket: was }
    }
}
