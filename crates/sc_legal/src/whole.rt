ghost use Rattle.std.specs.Prelude.{◌≡◌, ◌↔◌, [], None, IfOk, IfSome, All};
ghost use Rattle.sc_cluster.specs.Slices.{forming};
ghost use Rattle.sc_journal.specs.Legal.{IsLegal};
ghost use Rattle.sc_journal.specs.Computed.{HasComputed};
ghost use Rattle.sc_legal.specs.Passed.{BreaksAt};

use crate::checker::Checker;
use sc_cluster::ClusterMap;
use sc_record::Entry;
use std::alloc::{AllocError, Global};

/// The place, from 0, of the first entry that may not follow those before it, in a journal whose first map is this; None where the journal
/// is legal. An error means out of memory.
pub fn check_all(
    alloc: Global,
    map: &ClusterMap,
    entries: &[Entry],
) -> Result<Option<usize>, AllocError>
    requires idle { forming map.now ≡ [] }
    requires computed { All HasComputed entries.now }
    ensures legal { IfOk result (λ place. (place ≡ None) ↔ IsLegal map.now entries.now) }
    ensures first { IfOk result (λ place. IfSome place (BreaksAt map.now entries.now)) }
{
    let mut checker = Checker::new(alloc, map)?;
    for (place, entry) in entries.iter().enumerate() {
        if !checker.may_follow(alloc, entry)? {
            return Ok(Some(place));
        }
    }
    Ok(None)
}
