ghost use Rattle.std.specs.Prelude.{◌≡◌, ◌≤◌, if◌then◌else◌, Some, None, IfSome};
ghost use Rattle.sc_collection.specs.Shapes.{is_shape, is_in_range, is_bucket_count};
ghost use Rattle.sc_arguments.specs.Arguments as asked;
ghost use Rattle.sc_arguments.specs.Found.{settings_found, HaveValues};

use crate::options::number_or;
use clap::ArgMatches;
use sc_collection::Shape;

/// The most nodes.
const MOST_NODES: u32 = 16;

/// The most shards of a new collection.
const MOST_SHARDS: u32 = 64;

/// The most replicas of a shard.
const MOST_REPLICAS: u32 = 4;

/// How many nodes a collection has, where no number is given.
const DEFAULT_NODES: u64 = 1;

/// How many shards.
const DEFAULT_SHARDS: u64 = 1;

/// How many replicas of each shard.
const DEFAULT_REPLICAS: u64 = 1;

/// How many buckets.
const DEFAULT_BUCKETS: u64 = 64;

/// How many entries the journal of a bucket may have.
const DEFAULT_LOG_LIMIT: u64 = 1_048_576;

/// The least limit of a journal, beside an entry for each follower.
const LEAST_JOURNAL: u32 = 16;

/// The greatest limit of a journal.
const GREATEST_JOURNAL: u32 = 16_777_216;

/// The shape of these options, where each of its numbers is in its range.
pub(crate) fn shape_of(found: &ArgMatches<'_>) -> Option<Shape>
    requires values { HaveValues found.now }
    ensures { result ≡ (let shape = asked.shape_of (settings_found found.now) in
        if is_shape shape then Some shape else None) }
{
    let nodes = within(number_or(DEFAULT_NODES, found, "nodes"), 1, MOST_NODES)?;
    let shards = within(number_or(DEFAULT_SHARDS, found, "shards"), 1, MOST_SHARDS)?;
    let replicas = within(
        number_or(DEFAULT_REPLICAS, found, "replicas"),
        1,
        MOST_REPLICAS,
    )?;
    let buckets = bucket_count(number_or(DEFAULT_BUCKETS, found, "buckets"))?;
    let least = LEAST_JOURNAL + shards * (replicas - 1);
    let limit = within(
        number_or(DEFAULT_LOG_LIMIT, found, "log-limit"),
        least,
        GREATEST_JOURNAL,
    )?;
    Some(Shape {
        nodes,
        shards,
        replicas: replicas as u8,
        buckets,
        log_limit: u64::from(limit),
    })
}

/// The number, where it is in the range.
pub(crate) fn within(number: u64, least: u32, most: u32) -> Option<u32>
    ensures asked { result ≡ (if is_in_range least most number then Some number else None) }
    ensures range { IfSome result (λ number. (least ≤ number) × (number ≤ most)) }
{
    if u64::from(least) <= number && number <= u64::from(most) {
        Some(number as u32)
    } else {
        None
    }
}

/// The number, where it is one of buckets.
fn bucket_count(number: u64) -> Option<u32>
    ensures { result ≡ (if is_bucket_count number then Some number else None) }
{
    match number {
        1 | 2 | 4 | 8 | 16 | 32 | 64 | 128 | 256 => Some(number as u32),
        _ => None,
    }
}
