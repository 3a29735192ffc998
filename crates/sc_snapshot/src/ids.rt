ghost use Rattle.std.specs.Prelude.{◌≡◌, ℕ, ◌+◌, ◌-◌, ◌*◌, ◌^◌, ◌≤◌, codes, length, slice_get};
ghost use Rattle.std.specs.Arc.{arc_value};
ghost use Rattle.std.specs.List.{list_all, list_any};
ghost use Rattle.std.specs.List.Sorted.{IsStrictlyIncreasing};
ghost use Rattle.std.specs.Str.{bytes_eq};
ghost use Rattle.sc_record.specs.Writes.{AscendById};
ghost use Rattle.sc_rows.specs.Joining.{has_row};
ghost use Rattle.sc_snapshot.specs.Ids.{IsPlaceOfId};
ghost use Rattle.sc_snapshot.specs.Postings.{has_id_alone, is_id_term, is_live_of, is_no_other_id, AreLiveRows};

use crate::pieces::Pieces;
use sc_keys::Steps;
use sc_record::{Cell, Terms, Text, Write};
use std::cmp::Ordering;
use std::sync::ledger::Ledger;

/// Whether a field is that of ids.
pub(crate) fn is_id_field(field: &str) -> bool
    ensures { result ≡ bytes_eq field.now (codes "id") }
{
    field == "id"
}

/// Whether each of these rows has of the terms of the field of ids that of its own id alone, where it is live.
pub(crate) fn have_ids_alone(rows: &[Cell]) -> bool
    ensures { result ≡ list_all (λ cell. has_id_alone (arc_value cell)) rows.now }
{
    rows.iter().all(|row| has_id_alone(row))
}

// Whether the row does.
fn has_id_alone(row: &Write) -> bool
    ensures { result ≡ has_id_alone row.now }
{
    if !row.is_live() {
        return true;
    }
    has_id_term(row.terms()) && has_no_other_id(row.id().as_str(), row.terms())
}

// Whether some of the terms are of the field of ids.
fn has_id_term(terms: Terms<'_>) -> bool
    ensures { result ≡ list_any is_id_term terms.entry }
{
    for term in terms {
        if is_id_field(term.field) {
            return true;
        }
    }
    false
}

// Whether each term of the field of ids is that of the id.
fn has_no_other_id(id: &str, terms: Terms<'_>) -> bool
    ensures { result ≡ list_all (is_no_other_id id.now) terms.entry }
{
    for term in terms {
        if is_id_field(term.field) && term.key != id {
            return false;
        }
    }
    true
}

/// The number of the live row of the id, alone; no number where there is no such row. A step is one comparison of ids.
pub(crate) fn row_of_id<'a, L: Ledger>(
    rows: &Pieces,
    live: &'a [u32],
    id: &Text,
    steps: &mut Steps<L>,
) -> &'a [u32]
    requires ascend { AscendById rows.now }
    requires live { AreLiveRows rows.now live.now }
    ensures members { (number : ℕ) → has_row result.now number ≡ is_live_of id.now (slice_get rows.now number) }
    ensures ascending { IsStrictlyIncreasing result.now }
    ensures counted { steps.old ≤ steps.new }
    ensures bound { 2 ^ (steps.new - steps.old) ≤ 2 * length live.now + 1 }
{
    match place_of_id(rows, live, id, steps) {
        Some(at) => &live[at..at + 1],
        None => &[],
    }
}

// Where the live row of the id stands among the live rows. It is sought by halving.
fn place_of_id<L: Ledger>(
    rows: &Pieces,
    live: &[u32],
    id: &Text,
    steps: &mut Steps<L>,
) -> Option<usize>
    requires ascend { AscendById rows.now }
    requires live { AreLiveRows rows.now live.now }
    ensures place { IsPlaceOfId rows.now live.now id.now result }
    ensures counted { steps.old ≤ steps.new }
    ensures bound { 2 ^ (steps.new - steps.old) ≤ 2 * length live.now + 1 }
{
    let mut low = 0;
    let mut high = live.len();
    'halving: while low < high {
        let middle = low + (high - low) / 2;
        steps.tick();
        let row = rows.cell(live[middle] as usize);
        match row.id().as_str().cmp(id.as_str()) {
            Ordering::Less => low = middle + 1,
            Ordering::Equal => return Some(middle),
            Ordering::Greater => high = middle,
        }
    }
    None
}
