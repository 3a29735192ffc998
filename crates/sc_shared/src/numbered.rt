//! A bucket with its number, as its lock keeps it.
ghost use Rattle.std.specs.Prelude.{None};
ghost use Rattle.std.proofs.lemmas.Option.{none-some};
ghost use Rattle.sc_keeper.specs.Part.{part_of};
ghost use Rattle.sc_shared.specs.Buckets.{BucketName, name_of, IsSoundNumbered, Follows};

use sc_collection::FullSlot;
use sc_keeper::Part;
use sc_lock::Kept;
use sc_record::Entry;

/// A bucket with its number, and how many buckets the collection has: the ids of its writes are those that belong to the bucket of
/// this number. The bucket lies in a slot, so that a lock which moves this moves some forty bytes.
#[derive(Drop)]
pub struct Numbered {
    pub number: u32,
    pub buckets: u32,
    pub bucket: FullSlot,
}

impl Kept for Numbered {
    type Entry = Entry;

    type Part = Part;

    ghost Name = { BucketName };

    ghost journal = { λ kept. kept.bucket.journal.entries };

    ghost sound = { IsSoundNumbered };

    ghost step = { Follows };

    ghost part = { λ kept. part_of kept.bucket };

    ghost name = { name_of };

    ghost owned = { λ journal. None };

    fn entries(&self) -> u64 {
        self.bucket.bucket().entries()
    }

    ghost steps_keep_name = { λ old new step. step.name };

    ghost owned_inside = { λ journal place owned. absurd (none-some place owned) };

    ghost owned_stays = { λ journal place more owned within. owned };
}
