ghost use Rattle.std.specs.Prelude.{◌≡◌, ◌-◌, ◌^◌, option_copied, pos, ◌≤ℤ◌, ◌<ℤ◌};
ghost use Rattle.std.specs.Option.{option_map};
ghost use Rattle.std.specs.Arc.{arc_value};
ghost use Rattle.sc_record.specs.Versions.{found_version, meets, version_after};

use crate::write::Cell;

/// The last timestamp, in milliseconds, that versions keep apart.
const LAST_TIMESTAMP: u64 = (1 << 42) - 1;

/// How many versions a millisecond has.
const VERSIONS_A_MILLISECOND: u64 = 1 << 20;

/// The version that is found of an id whose last write the cell holds, as it is shown to clients:
/// above 0 for a document, below 0 for a deletion, and -1 for an id that never was
/// (Solr Reference Guide, "Optimistic Concurrency").
pub fn found(cell: Option<&Cell>) -> i64
    ensures { result ≡ found_version (option_map arc_value (option_copied cell.entry)) }
{
    match cell {
        Some(write) => write.shown(),
        None => -1,
    }
}

/// Whether the condition of an order is met by the version that is found of its id: 0 asks nothing, any other condition is
/// met by an equal version, 1 by any document, and a number below 0 by none (Solr Reference Guide, "Optimistic Concurrency").
pub fn meets(condition: i64, found: i64) -> bool
    ensures { result ≡ meets condition found }
{
    if condition == 0 || condition == found {
        return true;
    }
    if condition < 0 {
        return found < 0;
    }
    if condition == 1 {
        return found > 0;
    }
    false
}

/// The version of a write that comes at this timestamp, in milliseconds since 1970, to a core whose
/// clock stands at `clock`.
pub fn next_version(now: u64, clock: i64) -> i64
    requires from_zero { pos 0 ≤ℤ clock }
    requires can_rise { clock <ℤ pos (2 ^ 63 - 1) }
    ensures { result ≡ version_after now clock }
{
    let timestamp = now.min(LAST_TIMESTAMP) * VERSIONS_A_MILLISECOND;
    i64::max(timestamp as i64, clock + 1)
}
