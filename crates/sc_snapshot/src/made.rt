ghost use Rattle.std.specs.Prelude.{◌≡◌, ◌^◌, ◌≤◌, [], length, IfOk, OnOk};
ghost use Rattle.std.specs.List.{list_all};
ghost use Rattle.sc_snapshot.specs.Change.{IsChange};
ghost use Rattle.sc_snapshot.specs.Edits.{edited, put_in, AreInOrder};
ghost use Rattle.sc_snapshot.specs.Making.{IsBegun, IsTold};
ghost use Rattle.sc_snapshot.specs.Postings.{has_id_alone, IsSurvey};
ghost use Rattle.sc_snapshot.specs.Rows.{AreRows};
ghost use Rattle.sc_snapshot.specs.declared.edits.Edit.{Edit};

use crate::change::Change;
use crate::cutting::Cutting;
use crate::edits::Edit;
use crate::pieces::Pieces;
use crate::survey::Survey;
use std::alloc::{AllocError, Global};

// What is lost is told where there are at least so many old rows for each edit: then most keys lose no row, and theirs are copied. A change of
// more rows would file the terms of each of them twice, and save few look-ups by it.
const ROWS_OF_AN_EDIT: usize = 64;

/// What edits make of the rows of a snapshot.
#[derive(Drop)]
pub(crate) struct Made {
    /// The new rows.
    pub(crate) rows: Pieces,
    /// What becomes of the old rows.
    pub(crate) change: Change,
    /// The survey of the new rows.
    pub(crate) survey: Survey,
}

impl Made {
    /// What these edits make of the old rows, of which this is the survey. The edits' cells are passed once: each is shared, marked and filed
    /// when it is first read. Of the old rows only those that are replaced are read, where the edits are few. The only error is that memory was
    /// refused.
    pub(crate) fn of(
        alloc: Global,
        old: &Pieces,
        last: &Survey,
        edits: &[Edit],
    ) -> Result<Made, AllocError>
        requires survey { IsSurvey old.now last.now }
        requires old { AreRows old.now }
        requires in_order { AreInOrder (length old.now) 0 edits.now }
        requires new { length (edited old.now 0 edits.now) ≤ 2 ^ 24 }
        ensures rows { IfOk result (λ made. made.rows ≡ edited old.now 0 edits.now) }
        ensures change { IfOk result (λ made. IsChange old.now (edited old.now 0 edits.now) (length old.now)
            (length (edited old.now 0 edits.now)) made.change) }
        ensures alone { IfOk result (λ made. made.change.alone ≡ list_all (λ (edit : Edit). has_id_alone (put_in edit)) edits.now) }
        ensures survey { IfOk result (λ made. IsSurvey (edited old.now 0 edits.now) made.survey) }
    {
        let mut told = Told::begin(alloc, old, last, edits)?;
        let rows = told.put_in(alloc, old, last, edits)?;
        let Told { change, survey } = told;
        Ok(Made {
            rows,
            change,
            survey,
        })
    }
}

/// What is told of rows while edits are put in.
#[derive(Drop)]
pub(crate) struct Told {
    /// What becomes of the old rows.
    pub(crate) change: Change,
    /// The survey of the new rows.
    pub(crate) survey: Survey,
}

impl Told {
    // No edit is told yet.
    fn begin(alloc: Global, old: &Pieces, last: &Survey, edits: &[Edit]) -> Result<Told, AllocError>
        requires in_order { AreInOrder (length old.now) 0 edits.now }
        requires old { length old.now ≤ 2 ^ 24 }
        requires new { length (edited old.now 0 edits.now) ≤ 2 ^ 24 }
        ensures { IfOk result (IsBegun old.now last.now edits.now) }
    {
        let tells_lost = edits.len() <= old.len() / ROWS_OF_AN_EDIT;
        let survey = Survey::after(alloc, last, rows_after(old, edits))?;
        let change = Change::begin(alloc, old.len(), tells_lost)?;
        Ok(Told { change, survey })
    }

    // Tells all edits, and gives the new rows.
    fn put_in(
        &mut self,
        alloc: Global,
        old: &Pieces,
        last: &Survey,
        edits: &[Edit],
    ) -> Result<Pieces, AllocError>
        requires survey { IsSurvey old.now last.now }
        requires old { AreRows old.now }
        requires in_order { AreInOrder (length old.now) 0 edits.now }
        requires new { length (edited old.now 0 edits.now) ≤ 2 ^ 24 }
        requires begun { IsBegun old.now last.now edits.now self.old }
        ensures rows { IfOk result (λ rows. rows ≡ edited old.now 0 edits.now) }
        ensures told { OnOk result (IsTold old.now edits.now self.new) }
    {
        let mut cutting = Cutting::new(alloc);
        self.put_all(alloc, &mut cutting, old, last, edits)?;
        cutting.finish()
    }

    // Tells all edits, and puts the new rows at the end of none.
    fn put_all(
        &mut self,
        alloc: Global,
        cutting: &mut Cutting,
        old: &Pieces,
        last: &Survey,
        edits: &[Edit],
    ) -> Result<(), AllocError>
        requires survey { IsSurvey old.now last.now }
        requires old { AreRows old.now }
        requires in_order { AreInOrder (length old.now) 0 edits.now }
        requires new { length (edited old.now 0 edits.now) ≤ 2 ^ 24 }
        requires begun { IsBegun old.now last.now edits.now self.old }
        requires none { cutting.old ≡ [] }
        ensures rows { OnOk result (cutting.new ≡ edited old.now 0 edits.now) }
        ensures told { OnOk result (IsTold old.now edits.now self.new) }
    {
        let mut from = 0;
        let mut number = 0;
        for edit in edits {
            cutting.put(old, from, edit)?;
            self.change.put(alloc, old, from, number, edit)?;
            self.survey.put(last, from, number, edit)?;
            number = number + (edit.at - from) + 1;
            from = edit.next();
        }
        cutting.copy(old, from, old.len(), true)?;
        self.change.keep_all(from, old.len(), number)?;
        self.survey
            .keep_all(&last.live_bits, from, old.len(), number)?;
        Ok(())
    }
}

// How many rows there are after these edits. No cell is read.
fn rows_after(old: &Pieces, edits: &[Edit]) -> usize
    requires in_order { AreInOrder (length old.now) 0 edits.now }
    requires old { length old.now ≤ 2 ^ 24 }
    requires new { length (edited old.now 0 edits.now) ≤ 2 ^ 24 }
    ensures { result ≡ length (edited old.now 0 edits.now) }
{
    let mut from = 0;
    let mut number = 0;
    for edit in edits {
        number = number + (edit.at - from) + 1;
        from = edit.next();
    }
    number + (old.len() - from)
}
