ghost use Rattle.std.specs.Prelude.{◌≡◌, List, map, true, IfOk};
ghost use Rattle.std.specs.Arc.{arc_value};
ghost use Rattle.std.specs.List.{list_all};
ghost use Rattle.sc_record.specs.Writes.{Write};
ghost use Rattle.sc_segment.specs.Index.{IsIndexOf};
ghost use Rattle.sc_snapshot.specs.Rows.{AreRows};
ghost use Rattle.sc_snapshot.specs.Postings.{has_id_alone, key_order, keyed_rows, AreIdsFound};

use crate::filing::{file_terms, live_terms};
use crate::ids::have_ids_alone;
use crate::pieces::Pieces;
use crate::term_key::TermKey;
use sc_record::Cell;
use sc_segment::{Builder, Segment};
use std::alloc::{AllocError, Global};
use std::sync::Arc;

/// The live rows of each term, where the rows are not found by their own ids alone. The only error is that memory was refused.
pub(crate) fn whole_of(alloc: Global, rows: &[Cell]) -> Result<Option<Segment<TermKey>>, AllocError>
    requires { AreRows (map arc_value rows.now) }
    ensures { IfOk result (AreIdsFound (map arc_value rows.now)) }
{
    if have_ids_alone(rows) {
        return Ok(None);
    }
    let segment = segment_of(alloc, rows)?;
    Ok(Some(segment))
}

/// The same of some of the rows. They are looked at only where all rows were not found by their own ids alone.
pub(crate) fn whole_of_part(
    alloc: Global,
    whole: &Option<Segment<TermKey>>,
    part: &[Cell],
) -> Result<Option<Segment<TermKey>>, AllocError>
    requires { AreRows (map arc_value part.now) }
    ensures { IfOk result (λ next. (rows : List Write) → AreIdsFound rows whole.now
        → (list_all has_id_alone rows ≡ true → list_all has_id_alone (map arc_value part.now) ≡ true)
        → AreIdsFound (map arc_value part.now) next) }
{
    match whole {
        Some(_) => whole_of(alloc, part),
        None => Ok(None),
    }
}

/// The same of the new rows. None is looked at where the old rows were found by their own ids alone and so are those that were put in, as
/// `alone` tells.
pub(crate) fn next_whole(
    alloc: Global,
    whole: &Option<Segment<TermKey>>,
    new: &Pieces,
    alone: bool,
) -> Result<Option<Segment<TermKey>>, AllocError>
    requires { AreRows new.now }
    ensures { IfOk result (λ next. (old : List Write) → AreIdsFound old whole.now
        → (alone ≡ true → list_all has_id_alone old ≡ true → list_all has_id_alone new.now ≡ true) → AreIdsFound new.now next) }
{
    if whole.is_none() && alone {
        return Ok(None);
    }
    let cells = cells_of(alloc, new)?;
    whole_of(alloc, cells.as_slice())
}

// The live rows of each term.
fn segment_of(alloc: Global, rows: &[Cell]) -> Result<Segment<TermKey>, AllocError>
    requires { AreRows (map arc_value rows.now) }
    ensures { IfOk result (λ segment. IsIndexOf key_order (keyed_rows 0 (map arc_value rows.now)) segment) }
{
    let mut builder = Builder::new(alloc);
    let mut number: u32 = 0;
    for row in rows {
        file_terms(alloc, &mut builder, number, live_terms(row))?;
        number += 1;
    }
    builder.finish()
}

// A share of the cell of each row.
fn cells_of(alloc: Global, rows: &Pieces) -> Result<Vec<Cell>, AllocError>
    ensures { IfOk result (λ cells. map arc_value cells.items ≡ rows.now) }
{
    let mut cells = Vec::with_capacity(alloc, rows.len())?;
    for row in 0..rows.len() {
        cells.push(Arc::try_clone(rows.cell(row))?)?;
    }
    Ok(cells)
}
