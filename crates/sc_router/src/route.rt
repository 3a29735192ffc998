//! The routing hash of an id, and what follows from it.

ghost use Rattle.std.specs.Prelude.{◌≡◌, ◌∷◌, [], ℕ, List, ◌≤◌, ◌<◌, ◌^◌, ◌*◌, ◌/◌, ◌+◌, ◌-◌, ◌↔◌, ◌==◌, if◌then◌else◌, ℤ, length, sum_by};
ghost use Rattle.std.specs.Int.{w32, cast_signed};
ghost use Rattle.std.specs.Int.RustNames.{FitsSigned};
ghost use Rattle.sc_hash.specs.Range.{IsWithin};
ghost use Rattle.sc_router.specs.Parts.{parts, shares, open_bits};
ghost use Rattle.sc_router.specs.Route.{share_bits, route_bits, route_hash, plain_hash, bucket_of, IsBucketCount, least_under, greatest_under, HasFixedBits, IsUnder, IsOpenRoute};

use crate::part::{Part, first_part};
use crate::share::{joined, key_and_count};
use sc_hash::{Range, murmur3};

/// The most buckets over which ids are spread.
pub const MOST_BUCKETS: usize = 256;

// The bits of a routing hash, and how many of the lowest ones an empty last part leaves open.
#[derive(Clone, Copy)]
struct Routing {
    bits: u32,
    free: u32,
}

// How many of the bits of the last part are left open.
fn free_of(last: &[u8], given: u32) -> u32
    ensures { result ≡ (if length last.now == 0 then given else 0) }
{
    if last.is_empty() { given } else { 0 }
}

// The routing of an id of two parts.
fn routing_of_two(first: &Part, last: &Part) -> Routing
    ensures bits { result.bits ≡ sum_by share_bits (shares (first.now.text.now ∷ last.now.text.now ∷ [])) }
    ensures free { result.free ≡ open_bits (first.now.text.now ∷ last.now.text.now ∷ []) }
    ensures most { result.free ≤ 32 }
{
    let (key, count) = key_and_count(first, 16);
    let rest = 32 - count;
    Routing {
        bits: joined(key, last.hash, rest),
        free: free_of(last.text, rest),
    }
}

// The routing of an id of three parts, of which the second gives at most what the first leaves.
fn routing_of_three(first: &Part, second: &Part, last: &[u8]) -> Routing
    requires { length last.now < 2 ^ 32 }
    ensures bits { result.bits
        ≡ sum_by share_bits (shares (first.now.text.now ∷ second.now.text.now ∷ last.now ∷ [])) }
    ensures free { result.free ≡ open_bits (first.now.text.now ∷ second.now.text.now ∷ last.now ∷ []) }
    ensures most { result.free ≤ 32 }
{
    let (first_key, first_count) = key_and_count(first, 8);
    let (second_key, asked) = key_and_count(second, 8);
    let left = 32 - first_count;
    let rest = left - asked.min(left);
    let lower = joined(second_key, murmur3(last, 0), rest);
    Routing {
        bits: joined(first_key, lower, left),
        free: free_of(last, rest),
    }
}

// The routing of an id. A `!!` at its end, without others before it, closes a first part like one `!`.
fn routing_of(id: &[u8]) -> Routing
    requires { length id.now < 2 ^ 32 }
    ensures bits { result.bits ≡ route_bits id.now }
    ensures free { result.free ≡ open_bits (parts id.now) }
    ensures most { result.free ≤ 32 }
{
    let (first, others) = first_part(id);
    let Some(others) = others else {
        return Routing {
            bits: first.hash,
            free: 0,
        };
    };
    let (second, rest) = first_part(others);
    match rest {
        None => routing_of_two(&first, &second),
        Some(_) if others.len() == 1 => routing_of_two(&first, &second),
        Some(last) => routing_of_three(&first, &second, last),
    }
}

/// The hash by which an id finds its slice, as Solr's compositeId router has it: of an id with `!` each part
/// gives some bits of its own hash, of any other it is the whole id's. A part before the last may end in `/`
/// and the number of its bits.
pub fn route_hash(id: &str) -> i32
    requires { length id.now < 2 ^ 32 }
    ensures { result ≡ route_hash id.now }
{
    routing_of(id.as_bytes()).bits.cast_signed()
}

/// The hash of the whole id, whatever parts it has.
pub fn plain_hash(id: &str) -> i32
    requires { length id.now < 2 ^ 32 }
    ensures { result ≡ plain_hash id.now }
{
    murmur3(id.as_bytes(), 0).cast_signed()
}

/// The number of the bucket, from 0, that keeps the id. It goes by the whole id's hash, and not by its route.
pub fn bucket_of(id: &str, buckets: u32) -> u32
    requires length { length id.now < 2 ^ 32 }
    requires buckets { IsBucketCount buckets }
    ensures bucket { result ≡ bucket_of id.now buckets }
    ensures below { result < buckets }
{
    murmur3(id.as_bytes(), 0) & (buckets - 1)
}

// The hashes that have the bits of `bits` from bit `free` up.
fn range_above(bits: u32, free: u32) -> Range
    requires { free < 32 }
    ensures least { result.min ≡ cast_signed w32 (bits / 2 ^ free * 2 ^ free) }
    ensures greatest { result.max ≡ cast_signed w32 (bits / 2 ^ free * 2 ^ free + (2 ^ free - 1)) }
{
    Range {
        min: joined(bits, 0, free).cast_signed(),
        max: joined(bits, u32::MAX, free).cast_signed(),
    }
}

/// The hashes among which a search with this route looks. A route with an empty last part, as `abc!`, stands
/// for all ids with its other parts; any other route for its own hash alone.
///
/// An id with more `!` than the route has parts before its last is no id of the route: `a!b!c` gives 8 bits to
/// `a`, and `a!` fixes 16.
pub fn key_range(route: &str) -> Range
    requires { length route.now < 2 ^ 32 }
    ensures least { result.min ≡ least_under route.now }
    ensures greatest { result.max ≡ greatest_under route.now }

    // It has just the hashes with the bits that the route fixes, and so that of every id of an open route.
    ensures fixed { (h : ℤ) → FitsSigned w32 h → IsWithin result.min result.max h ↔ HasFixedBits route.now h }
    ensures ids { IsOpenRoute route.now → (id : List ℕ) → IsUnder id route.now
        → IsWithin result.min result.max (route_hash id) }
{
    let Routing { bits, free } = routing_of(route.as_bytes());
    if free == 32 {
        return Range {
            min: i32::MIN,
            max: i32::MAX,
        };
    }
    range_above(bits, free)
}
