ghost use Rattle.std.specs.Prelude.{◌≡◌, ℕ, ◌+◌, ◌-◌, ◌^◌, ◌≤◌, ◌<◌, [], ◌∷◌, ◌++◌, true, ◌&&◌, length, slice_get, IfOk, IfSome, OnOk, None, Some, List, Option};
ghost use Rattle.sc_record.specs.Writes.{Write};
ghost use Rattle.sc_snapshot.specs.Change.{IsChange, LosesInPlace};
ghost use Rattle.sc_snapshot.specs.Edits.{put_in, next_of, IsRest};
ghost use Rattle.sc_snapshot.specs.Postings.{has_id_alone};
ghost use Rattle.sc_snapshot.specs.declared.edits.Edit.{Edit};

use crate::edits::Edit;
use crate::filing::file_row;
use crate::pieces::Pieces;
use crate::term_key::TermKey;
use sc_record::Write;
use sc_rows::Moved;
use sc_segment::Builder;
use std::alloc::{AllocError, Global};

/// How the rows of a snapshot become those of the next one.
#[derive(Drop)]
pub(crate) struct Change {
    /// The new number of each old row; None where it is replaced.
    pub(crate) moved: Moved,
    /// The terms of the new rows that are none of the old, but for those of the field of ids.
    pub(crate) added: Builder<TermKey>,
    /// The terms of the old rows that are not kept, but for those of the field of ids, as long as each row that is kept has its own number;
    /// else None.
    pub(crate) lost: Option<Builder<TermKey>>,
    /// Whether of the terms of the field of ids each of these rows has that of its own id alone, where it is live.
    pub(crate) alone: bool,
}

impl Change {
    /// No row is told yet. What is lost is told only where the caller asks for it.
    pub(crate) fn begin(alloc: Global, rows: usize, tells_lost: bool) -> Result<Change, AllocError>
        ensures change { IfOk result (λ change. (old new : List Write) → IsChange old new 0 0 change) }
        ensures alone { IfOk result (λ change. change.alone ≡ true) }
    {
        Ok(Change {
            moved: Moved::with_room(alloc, rows)?,
            added: Builder::new(alloc),
            lost: if tells_lost {
                Some(Builder::new(alloc))
            } else {
                None
            },
            alone: true,
        })
    }

    /// The old rows from this number up to the edit are the next new ones, and then the edit's row is a new one, in the place of an old one where
    /// it replaces it. Of the old rows only the one that is replaced is looked at, where what is lost is told. The only error is that memory was
    /// refused.
    pub(crate) fn put(
        &mut self,
        alloc: Global,
        rows: &Pieces,
        from: usize,
        number: usize,
        edit: &Edit,
    ) -> Result<(), AllocError>
        requires from { from ≤ edit.now.at }
        requires next { next_of edit.now ≤ length rows.now }
        requires rows { length rows.now ≤ 2 ^ 24 }
        requires number { number + (edit.now.at - from) < 2 ^ 24 }
        requires last_row { self.old.added.last_row ≤ number }
        requires last_lost { IfSome self.old.lost (λ lost. lost.last_row ≤ from) }
        ensures change { OnOk result ((new : List Write) (edits : List Edit) → IsRest rows.now new from number (edit.now ∷ edits)
            → IsChange rows.now new from number self.old
            → IsChange rows.now new (next_of edit.now) (number + (edit.now.at - from) + 1) self.new) }
        ensures last_row { OnOk result (self.new.added.last_row ≤ number + (edit.now.at - from)) }
        ensures alone { OnOk result (self.new.alone ≡ (self.old.alone && has_id_alone (put_in edit.now))) }
    {
        let place = number + (edit.at - from);
        self.keep_all(from, edit.at, number)?;
        self.replace(alloc, rows, edit)?;
        self.file(alloc, edit.cell, place as u32)?;
        Ok(())
    }

    /// The next old row is not kept. What is lost is not told.
    pub(crate) fn leave(&mut self) -> Result<(), AllocError>
        ensures change { OnOk result ((old new : List Write) (low high : ℕ) → IsChange old new low high self.old
            → IsChange old new (low + 1) high self.new) }
        ensures added { OnOk result (self.new.added ≡ self.old.added) }
        ensures alone { OnOk result (self.new.alone ≡ self.old.alone) }
    {
        self.moved.push(None)?;
        self.lost = None;
        Ok(())
    }

    /// The next old row is the next new one. What is lost is not told.
    pub(crate) fn keep(&mut self, number: u32) -> Result<(), AllocError>
        requires { number < 2 ^ 24 }
        ensures change { OnOk result ((old new : List Write) (low : ℕ) (row : Write) → IsChange old new low number self.old
            → slice_get old low ≡ Some row → slice_get new number ≡ Some row → IsChange old new (low + 1) (number + 1) self.new) }
        ensures added { OnOk result (self.new.added ≡ self.old.added) }
        ensures alone { OnOk result (self.new.alone ≡ self.old.alone) }
    {
        self.moved.push(Some(number))?;
        self.lost = None;
        Ok(())
    }

    /// These old rows are the next new ones. What is lost is told no longer where they get other numbers.
    pub(crate) fn keep_all(
        &mut self,
        from: usize,
        to: usize,
        number: usize,
    ) -> Result<(), AllocError>
        requires from { from ≤ to }
        requires number { number + (to - from) ≤ 2 ^ 24 }
        ensures change { OnOk result ((old new : List Write) → IsChange old new from number self.old → to ≤ length old
            → ((k : ℕ) → k < to - from → slice_get old (from + k) ≡ slice_get new (number + k))
            → IsChange old new to (number + (to - from)) self.new) }
        ensures added { OnOk result (self.new.added ≡ self.old.added) }
        ensures lost { OnOk result (IfSome self.new.lost (λ lost. self.old.lost ≡ Some lost)) }
        ensures alone { OnOk result (self.new.alone ≡ self.old.alone) }
    {
        self.moved.push_run(number as u32, to - from)?;
        if from < to && from != number {
            self.lost = None;
        }
        Ok(())
    }

    // The old row at the edit's place is not kept where the edit replaces it.
    fn replace(&mut self, alloc: Global, rows: &Pieces, edit: &Edit) -> Result<(), AllocError>
        requires next { next_of edit.now ≤ length rows.now }
        requires rows { length rows.now ≤ 2 ^ 24 }
        requires last_lost { IfSome self.old.lost (λ lost. lost.last_row ≤ edit.now.at) }
        ensures change { OnOk result ((new : List Write) (high : ℕ) → IsChange rows.now new edit.now.at high self.old
            → IsChange rows.now new (next_of edit.now) high self.new) }
        ensures added { OnOk result (self.new.added ≡ self.old.added) }
        ensures alone { OnOk result (self.new.alone ≡ self.old.alone) }
    {
        if edit.replaces {
            lose(alloc, &mut self.lost, rows, edit.at)?;
            self.moved.push(None)?;
        }
        Ok(())
    }

    // The next new row is none of the old ones.
    fn file(&mut self, alloc: Global, row: &Write, number: u32) -> Result<(), AllocError>
        requires { self.old.added.last_row ≤ number }
        ensures change { OnOk result ((old new : List Write) (low : ℕ) → IsChange old new low number self.old
            → slice_get new number ≡ Some row.now → IsChange old new low (number + 1) self.new) }
        ensures last_row { OnOk result (self.new.added.last_row ≤ number) }
        ensures alone { OnOk result (self.new.alone ≡ (self.old.alone && has_id_alone row.now)) }
    {
        let is_alone = file_row(alloc, &mut self.added, number, row)?;
        self.alone &= is_alone;
        Ok(())
    }
}

// Files the old row with this number among the lost, under its own number, where what is lost is told. Else it is not looked at.
fn lose(
    alloc: Global,
    lost: &mut Option<Builder<TermKey>>,
    rows: &Pieces,
    at: usize,
) -> Result<(), AllocError>
    requires at { at < length rows.now }
    requires rows { length rows.now ≤ 2 ^ 24 }
    requires last_row { IfSome lost.old (λ lost. lost.last_row ≤ at) }
    ensures { OnOk result ((moved : List (Option ℕ)) → length moved ≡ at → IfSome lost.old (LosesInPlace rows.now at moved)
        → IfSome lost.new (LosesInPlace rows.now (at + 1) (moved ++ None ∷ []))) }
{
    if let Some(lost) = lost {
        file_row(alloc, lost, at as u32, rows.cell(at))?;
    }
    Ok(())
}
