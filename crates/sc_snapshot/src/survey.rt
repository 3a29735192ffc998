ghost use Rattle.std.specs.Prelude.{◌≡◌, ℕ, ◌+◌, ◌-◌, ◌<◌, ◌≤◌, ◌^◌, ◌≤ℤ◌, [], ◌∷◌, ◌++◌, map, length, is_some, slice_get, slice_set, replicate, if◌then◌else◌, true, false, IfOk, OnOk, List};
ghost use Rattle.std.specs.Arc.{arc_value};
ghost use Rattle.sc_record.specs.Writes.{Write};
ghost use Rattle.sc_snapshot.specs.Rows.{AreRows};
ghost use Rattle.sc_snapshot.specs.Edits.{put_in, IsRest};
ghost use Rattle.sc_snapshot.specs.Postings.{is_live_at, IsSurvey};
ghost use Rattle.sc_snapshot.specs.Surveying.{AreSurveyed, HasBoundsOf, BoundsHashOf};
ghost use Rattle.sc_snapshot.specs.declared.edits.Edit.{Edit};

use crate::edits::Edit;
use sc_record::{Cell, Write};
use sc_rows::{LiveBits, put_run};
use std::alloc::{AllocError, Global};

/// Which rows are live, by their numbers and by a bit for each row, and between which hashes the rows' are.
#[derive(Drop)]
pub(crate) struct Survey {
    pub(crate) live_rows: Vec<u32>,
    pub(crate) live_bits: LiveBits,
    pub(crate) least_hash: i32,
    pub(crate) greatest_hash: i32,
}

impl Survey {
    /// The survey of these rows, in one pass. The only error is that memory was refused.
    pub(crate) fn of(alloc: Global, rows: &[Cell]) -> Result<Survey, AllocError>
        requires { AreRows (map arc_value rows.now) }
        ensures { IfOk result (IsSurvey (map arc_value rows.now)) }
    {
        let mut survey = Survey::begin(alloc, rows.len(), i32::MAX, i32::MIN)?;
        let mut number: u32 = 0;
        for row in rows {
            survey.mark(number, row.is_live())?;
            survey.bound(row);
            number += 1;
        }
        Ok(survey)
    }

    /// None of so many rows is surveyed yet, and the hashes have the bounds that they had before.
    pub(crate) fn after(alloc: Global, last: &Survey, rows: usize) -> Result<Survey, AllocError>
        requires { rows ≤ 2 ^ 24 }
        ensures surveyed { IfOk result (λ survey. (new : List Write) → length new ≡ rows → AreSurveyed new 0 survey) }
        ensures size { IfOk result (λ survey. length survey.live_bits ≡ rows) }
        ensures hashes { IfOk result (HasBoundsOf last.now) }
    {
        let survey = Survey::begin(alloc, rows, last.least_hash, last.greatest_hash)?;
        Ok(survey)
    }

    /// The old rows from this number up to the edit are marked as they were, and then the edit's row as it is. No other row is looked at. The
    /// only error is that memory was refused.
    pub(crate) fn put(
        &mut self,
        last: &Survey,
        from: usize,
        number: usize,
        edit: &Edit,
    ) -> Result<(), AllocError>
        requires from { from ≤ edit.now.at }
        requires to { edit.now.at ≤ length last.now.live_bits }
        requires old { length last.now.live_bits ≤ 2 ^ 24 }
        requires number { number + (edit.now.at - from) < length self.old.live_bits }
        requires new { length self.old.live_bits ≤ 2 ^ 24 }
        ensures surveyed { OnOk result ((old new : List Write) (edits : List Edit) → last.now.live_bits ≡ map (λ (row : Write). is_some row.doc) old
            → IsRest old new from number (edit.now ∷ edits) → AreSurveyed new number self.old
            → AreSurveyed new (number + (edit.now.at - from) + 1) self.new) }
        ensures size { OnOk result (length self.new.live_bits ≡ length self.old.live_bits) }
        ensures bounds { OnOk result (HasBoundsOf self.old self.new) }
        ensures hash { OnOk result (BoundsHashOf self.new (put_in edit.now)) }
    {
        let place = number + (edit.at - from);
        self.keep_all(&last.live_bits, from, edit.at, number)?;
        self.mark(place as u32, edit.cell.is_live())?;
        self.bound(edit.cell);
        Ok(())
    }

    // No row is surveyed yet, and each counts as live.
    fn begin(
        alloc: Global,
        rows: usize,
        least_hash: i32,
        greatest_hash: i32,
    ) -> Result<Survey, AllocError>
        requires { rows ≤ 2 ^ 24 }
        ensures live_rows { IfOk result (λ survey. survey.live_rows.items ≡ []) }
        ensures live_bits { IfOk result (λ survey. survey.live_bits ≡ replicate rows true) }
        ensures least_hash { IfOk result (λ survey. survey.least_hash ≡ least_hash) }
        ensures greatest_hash { IfOk result (λ survey. survey.greatest_hash ≡ greatest_hash) }
    {
        Ok(Survey {
            live_rows: Vec::with_capacity(alloc, rows)?,
            live_bits: LiveBits::new(alloc, rows as u32)?,
            least_hash,
            greatest_hash,
        })
    }

    // Marks the next row as live or not.
    #[inline(always)]
    fn mark(&mut self, number: u32, is_live: bool) -> Result<(), AllocError>
        requires { number < length self.old.live_bits }
        ensures surveyed { OnOk result ((rows : List Write) → AreSurveyed rows number self.old → number < length rows
            → is_live_at (slice_get rows number) ≡ is_live → AreSurveyed rows (number + 1) self.new) }
        ensures size { OnOk result (length self.new.live_bits ≡ length self.old.live_bits) }
        ensures least_hash { OnOk result (self.new.least_hash ≡ self.old.least_hash) }
        ensures greatest_hash { OnOk result (self.new.greatest_hash ≡ self.old.greatest_hash) }
    {
        self.note(number, is_live)?;
        Ok(())
    }

    // The same, as what becomes of both lists.
    #[inline(always)]
    fn note(&mut self, number: u32, is_live: bool) -> Result<(), AllocError>
        requires { number < length self.old.live_bits }
        ensures live_rows { OnOk result (self.new.live_rows.items
            ≡ self.old.live_rows.items ++ (if is_live then number ∷ [] else [])) }
        ensures live_bits { OnOk result (self.new.live_bits
            ≡ (if is_live then self.old.live_bits else slice_set self.old.live_bits number false)) }
        ensures least_hash { OnOk result (self.new.least_hash ≡ self.old.least_hash) }
        ensures greatest_hash { OnOk result (self.new.greatest_hash ≡ self.old.greatest_hash) }
    {
        if is_live {
            self.live_rows.push(number)?;
        } else {
            self.live_bits.clear(number);
        }
        Ok(())
    }

    /// Marks the next rows as these old ones were. Where all of them were live their numbers are put at once, and no bit is touched, since
    /// each row begins as live.
    pub(crate) fn keep_all(
        &mut self,
        old: &LiveBits,
        from: usize,
        to: usize,
        number: usize,
    ) -> Result<(), AllocError>
        requires from { from ≤ to }
        requires to { to ≤ length old.now }
        requires old { length old.now ≤ 2 ^ 24 }
        requires number { number + (to - from) ≤ length self.old.live_bits }
        requires new { length self.old.live_bits ≤ 2 ^ 24 }
        ensures surveyed { OnOk result ((rows others : List Write) → old.now ≡ map (λ (row : Write). is_some row.doc) others
            → AreSurveyed rows number self.old → number + (to - from) ≤ length rows
            → ((k : ℕ) → k < to - from → slice_get others (from + k) ≡ slice_get rows (number + k))
            → AreSurveyed rows (number + (to - from)) self.new) }
        ensures size { OnOk result (length self.new.live_bits ≡ length self.old.live_bits) }
        ensures least_hash { OnOk result (self.new.least_hash ≡ self.old.least_hash) }
        ensures greatest_hash { OnOk result (self.new.greatest_hash ≡ self.old.greatest_hash) }
    {
        if old.are_live(from as u32, to as u32) {
            put_run(&mut self.live_rows, number as u32, to - from)?;
            return Ok(());
        }
        for row in from..to {
            self.mark((number + (row - from)) as u32, old.is_live(row as u32))?;
        }
        Ok(())
    }

    // Has the row's hash within the bounds.
    fn bound(&mut self, row: &Write)
        ensures least { (self.new.least_hash ≤ℤ row.now.hash) × (self.new.least_hash ≤ℤ self.old.least_hash) }
        ensures greatest { (row.now.hash ≤ℤ self.new.greatest_hash) × (self.old.greatest_hash ≤ℤ self.new.greatest_hash) }
        ensures live_rows { self.new.live_rows ≡ self.old.live_rows }
        ensures live_bits { self.new.live_bits ≡ self.old.live_bits }
    {
        self.least_hash = self.least_hash.min(row.hash());
        self.greatest_hash = self.greatest_hash.max(row.hash());
    }
}
