ghost use Rattle.std.specs.Prelude.{◌≡◌, ℕ, ◌+◌, ◌-◌, ◌*◌, ◌≤◌, ◌^◌, List, map, length, slice_get, true, IfOk, IfSome};
ghost use Rattle.std.specs.Arc.{arc_value};
ghost use Rattle.std.specs.List.{list_all};
ghost use Rattle.std.specs.List.Sorted.{IsStrictlyIncreasing};
ghost use Rattle.sc_record.specs.Writes.{Write};
ghost use Rattle.sc_rows.specs.Moving.{KeepsOrder};
ghost use Rattle.sc_rows.specs.Joining.{has_row};
ghost use Rattle.sc_segment.specs.Carrying.{IsCarried, OthersStay};
ghost use Rattle.sc_segment.specs.Index.{IsIndexOf};
ghost use Rattle.sc_snapshot.specs.Change.{IsChange};
ghost use Rattle.sc_snapshot.specs.Rows.{AreRows};
ghost use Rattle.sc_snapshot.specs.Postings.{has_id_alone, has_term, key_order, keyed_rows, term_count, without_ids, IsIndexed, IsSurvey};

use crate::change::Change;
use crate::filing::file_row;
use crate::ids::{is_id_field, row_of_id};
use crate::pieces::Pieces;
use crate::survey::Survey;
use crate::term_key::TermKey;
use crate::whole::{next_whole, whole_of, whole_of_part};
use sc_keys::Steps;
use sc_record::Cell;
use sc_rows::Moved;
use sc_segment::{Builder, Segment};
use std::alloc::{AllocError, Global};
use std::sync::Arc;
use std::sync::ledger::Ledger;

/// What a search needs in place of looking at each row: for each term the live rows that have it, which rows are live, and between
/// which hashes the rows' are. The terms of the field of ids are not filed, since rows ascend by their ids: where each live row has of
/// these terms that of its own id alone, a row is found by it among the live rows.
#[derive(Drop)]
pub(crate) struct Index {
    /// For each term but those of the field of ids the live rows that have it.
    pub(crate) segment: Segment<TermKey>,
    /// The same for all terms, where some live row has not just its own id among those of the field; else None.
    pub(crate) whole: Option<Segment<TermKey>>,
    pub(crate) survey: Survey,
}

impl Index {
    /// The index of these rows. Each row is looked at, and each of its other terms is filed. The only error is that memory was refused.
    pub(crate) fn of(alloc: Global, rows: &[Cell]) -> Result<Arc<Index>, AllocError>
        requires { AreRows (map arc_value rows.now) }
        ensures { IfOk result (λ index. IsIndexed (map arc_value rows.now) (arc_value index)) }
    {
        let survey = Survey::of(alloc, rows)?;
        let segment = segment_of(alloc, rows)?;
        let whole = whole_of(alloc, rows)?;
        let index = Index {
            segment,
            whole,
            survey,
        };
        let shared = shared(alloc, index)?;
        Ok(shared)
    }

    /// The index of the new rows, which this change makes of the old ones, from that of the old ones and from the survey of the new ones: no
    /// term is filed but those of the change. Where what is lost is told, the rows of each term that lost none are copied. No row is looked
    /// at, where rows are found by their own ids alone. The only error is that memory was refused.
    pub(crate) fn next(
        &self,
        alloc: Global,
        new: &Pieces,
        change: Change,
        survey: Survey,
    ) -> Result<Arc<Index>, AllocError>
        requires order { KeepsOrder change.moved }
        requires others { IfSome change.lost (λ lost. OthersStay key_order change.moved self.now.segment lost.index) }
        requires new { AreRows new.now }
        requires survey { IsSurvey new.now survey }
        ensures { IfOk result (λ index. (old : List Write) → IsIndexed old self.now
            → IsChange old new.now (length old) (length new.now) change
            → (change.alone ≡ true → list_all has_id_alone old ≡ true → list_all has_id_alone new.now ≡ true)
            → IsIndexed new.now (arc_value index)) }
    {
        let alone = change.alone;
        let segment = carried_segment(alloc, &self.segment, change)?;
        let whole = next_whole(alloc, &self.whole, new, alone)?;
        let index = Index {
            segment,
            whole,
            survey,
        };
        let shared = shared(alloc, index)?;
        Ok(shared)
    }

    /// The index of these rows, which this change makes of the old ones, from that of the old ones: no term is filed but those of the
    /// change. Each row is looked at. The only error is that memory was refused.
    pub(crate) fn carried(
        &self,
        alloc: Global,
        change: Change,
        rows: &[Cell],
    ) -> Result<Arc<Index>, AllocError>
        requires order { KeepsOrder change.moved }
        requires others { IfSome change.lost (λ lost. OthersStay key_order change.moved self.now.segment lost.index) }
        requires rows { AreRows (map arc_value rows.now) }
        ensures { IfOk result (λ index. (old : List Write) → IsIndexed old self.now
            → IsChange old (map arc_value rows.now) (length old) (length (map arc_value rows.now)) change
            → (list_all has_id_alone old ≡ true → list_all has_id_alone (map arc_value rows.now) ≡ true)
            → IsIndexed (map arc_value rows.now) (arc_value index)) }
    {
        let segment = carried_segment(alloc, &self.segment, change)?;
        let survey = Survey::of(alloc, rows)?;
        let whole = whole_of_part(alloc, &self.whole, rows)?;
        let index = Index {
            segment,
            whole,
            survey,
        };
        let shared = shared(alloc, index)?;
        Ok(shared)
    }

    /// The numbers of the live rows that have the term. A step is one comparison of terms or of ids.
    pub(crate) fn postings<L: Ledger>(
        &self,
        rows: &Pieces,
        key: &TermKey,
        steps: &mut Steps<L>,
    ) -> &[u32]
        requires indexed { IsIndexed rows.now self.now }
        requires rows { AreRows rows.now }
        ensures members { (number : ℕ) → has_row result.now number ≡ has_term key.now.term (slice_get rows.now number) }
        ensures ascending { IsStrictlyIncreasing result.now }
        ensures counted { steps.old ≤ steps.new }
        ensures bound { 2 ^ (steps.new - steps.old) ≤ 2 * term_count rows.now + 1 }
    {
        match &self.whole {
            Some(whole) => whole.postings(key, steps),
            None if is_id_field(key.term.field.as_str()) => row_of_id(
                rows,
                self.survey.live_rows.as_slice(),
                &key.term.key,
                steps,
            ),
            None => self.segment.postings(key, steps),
        }
    }
}

// The index as snapshots share it.
fn shared(alloc: Global, index: Index) -> Result<Arc<Index>, AllocError>
    ensures { IfOk result (λ shared. arc_value shared ≡ index) }
{
    let shared = Arc::new(alloc, index)?;
    Ok(shared)
}

// The live rows of each term but those of the field of ids.
fn segment_of(alloc: Global, rows: &[Cell]) -> Result<Segment<TermKey>, AllocError>
    requires { AreRows (map arc_value rows.now) }
    ensures { IfOk result (λ segment. IsIndexOf key_order (keyed_rows 0 (map without_ids (map arc_value rows.now))) segment) }
{
    let mut builder = Builder::new(alloc);
    let mut number: u32 = 0;
    for row in rows {
        file_row(alloc, &mut builder, number, row)?;
        number += 1;
    }
    builder.finish()
}

// The same after the change, from those of the old rows. Where there are no old rows, nothing is carried over.
fn carried_segment(
    alloc: Global,
    segment: &Segment<TermKey>,
    change: Change,
) -> Result<Segment<TermKey>, AllocError>
    requires order { KeepsOrder change.moved }
    requires others { IfSome change.lost (λ lost. OthersStay key_order change.moved segment.now lost.index) }
    ensures { IfOk result (λ carried. (old new : List Write) → IsChange old new (length old) (length new) change
        → IsIndexOf key_order (keyed_rows 0 (map without_ids old)) segment.now
        → IsIndexOf key_order (keyed_rows 0 (map without_ids new)) carried) }
{
    let Change {
        moved,
        added,
        lost,
        alone: _,
    } = change;
    let added = added.finish()?;
    let is_first = moved.is_empty();
    if is_first {
        return Ok(added);
    }
    carried_beside(alloc, segment, &moved, lost, &added)
}

// The old rows of each term under their new numbers, beside those that are added. Where what is lost is told, the rows of each term that lost
// none are copied.
fn carried_beside(
    alloc: Global,
    segment: &Segment<TermKey>,
    moved: &Moved,
    lost: Option<Builder<TermKey>>,
    added: &Segment<TermKey>,
) -> Result<Segment<TermKey>, AllocError>
    requires order { KeepsOrder moved.now }
    requires others { IfSome lost (λ lost. OthersStay key_order moved.now segment.now lost.index) }
    ensures { IfOk result (IsCarried key_order moved.now segment.now added.now) }
{
    match lost {
        Some(lost) => segment.carried_in_place(alloc, moved, &lost.finish()?, added),
        None => segment.carried(alloc, moved, added),
    }
}
