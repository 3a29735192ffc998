ghost use Rattle.std.specs.Prelude.{◌≡◌, ◌+◌, ◌≤◌, length};
ghost use Rattle.sc_collection.specs.Kept.{trail_room};
ghost use Rattle.sc_collection.specs.Resting.{Rests, looked_at, LeavesAtRest};
ghost use Rattle.sc_get.specs.Got.{AreGot};

use crate::one::get_one;
use sc_collection::{Desk, Trail};
use sc_record::{Cell, Id, List};
use std::alloc::{AllocError, Global};

/// The live writes of the ids, in the order of the ids, without those that are not live. Each id is read in turn, in a hold and at
/// a stop of its own. The only error is that memory was refused; the stops up to then are kept.
pub fn get_many<D: Desk>(
    alloc: Global,
    desk: &mut D,
    trail: &mut Trail,
    ids: &List<Id>,
) -> Result<List<Cell>, AllocError>
    requires rest { Rests D.Desk desk.old }
    requires room { length trail.old.stops + length ids.now ≤ trail_room }
    ensures got { AreGot (D.layout desk.old) (looked_at D.Desk desk.old trail.old) (looked_at D.Desk desk.new trail.new) ids.now result }
    ensures leaves { LeavesAtRest D.Desk desk.old trail.old desk.new trail.new }
{
    let mut found = Vec::with_capacity(alloc, ids.len())?;
    for id in ids.as_slice() {
        if let Some(cell) = get_one(desk, trail, id)? {
            found.push_reserved(cell);
        }
    }
    Ok(List::from_vec(found))
}
