//! The cells of a core that has none.

ghost use Rattle.std.specs.Prelude.{◌≡◌, [], map, OnOk};
ghost use Rattle.std.specs.Arc.{arc_value};
ghost use Rattle.sc_record.specs.Writes.{AscendById};
ghost use Rattle.sc_restored.specs.Restored.{Fills, Puts};

use sc_record::Cell;
use sc_replica::Replica;
use std::alloc::AllocError;
use std::sync::Arc;

/// Gives the core, which has no cells, a share of each of these. An error means out of memory: then the core may have some of them.
pub(crate) fn fill(replica: &mut Replica, cells: &[Cell]) -> Result<(), AllocError>
    requires none { replica.old.cells ≡ [] }
    requires ascend { AscendById (map arc_value cells.now) }
    ensures { OnOk result (Fills (map arc_value cells.now) replica.old replica.new) }
{
    for cell in cells {
        put(replica, cell)?;
    }
    Ok(())
}

// Applies a share of the cell to the core. An error means out of memory.
fn put(replica: &mut Replica, cell: &Cell) -> Result<(), AllocError>
    ensures { OnOk result (Puts (arc_value cell.now) replica.old replica.new) }
{
    replica.reserve(1)?;
    replica.feed(Arc::try_clone(cell)?);
    Ok(())
}
