ghost use Rattle.std.specs.Prelude.{◌≡◌, ◌<◌, ◌+◌, IfOk, length, option_copied};
ghost use Rattle.std.specs.Option.{option_map};
ghost use Rattle.std.specs.Arc.{arc_value};
ghost use Rattle.sc_collection.specs.Desks.{nothing_out};
ghost use Rattle.sc_collection.specs.Kept.{trail_room};
ghost use Rattle.sc_collection.specs.Resting.{looked_at, LeavesAtRest};
ghost use Rattle.sc_get.specs.Got.{IsGot, live};

use sc_collection::{Desk, Stop, Trail};
use sc_record::{Cell, Id};
use sc_router::bucket_of;
use std::alloc::AllocError;

/// The live write of an id; None exactly where the id is not live. Its bucket is held once, and that stop is kept. The only error
/// is that memory was refused; the stop is kept then too.
pub fn get_one<D: Desk>(
    desk: &mut D,
    trail: &mut Trail,
    id: &Id,
) -> Result<Option<Cell>, AllocError>
    requires nothing_out { D.out desk.old ≡ nothing_out }
    requires room { length trail.old.stops < trail_room }
    ensures got { IsGot (D.layout desk.old) (looked_at D.Desk desk.old trail.old) (looked_at D.Desk desk.new trail.new) id.now result }
    ensures leaves { LeavesAtRest D.Desk desk.old trail.old desk.new trail.new }
    ensures stops { length trail.new.stops ≡ length trail.old.stops + 1 }
{
    let b = bucket_of(id.as_str(), desk.buckets());
    let bucket = desk.hold(b);
    trail.keep(Stop {
        lock: b,
        place: bucket.entries(),
        made: false,
    });
    let found = share_live(bucket.read(id));
    desk.give(b, bucket);
    found
}

/// A share of the write, where there is one that is no deletion.
fn share_live(write: Option<&Cell>) -> Result<Option<Cell>, AllocError>
    ensures { IfOk result (λ found. option_map arc_value found ≡ live (option_map arc_value (option_copied write.entry))) }
{
    match write {
        Some(cell) if cell.is_live() => Ok(Some(cell.clone()?)),
        _ => Ok(None),
    }
}
