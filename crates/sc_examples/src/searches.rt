//! `sc_eval` over a snapshot of `sc_snapshot`: `search.find RANGE QUERY`, in three writes of which the second is a deletion.

ghost use Rattle.std.specs.Prelude.{◌≡◌, ◌-◌, ◌≤◌, length, map, filter, All, IfOk, codes};
ghost use Rattle.std.specs.Arc.{arc_value};
ghost use Rattle.sc_record.specs.Writes.{Write};
ghost use Rattle.sc_keys.specs.Fresh.{IsFresh};
ghost use Rattle.sc_snapshot.specs.Rows.{AreRows};
ghost use Rattle.sc_snapshot.specs.Postings.{term_count};
ghost use Rattle.sc_eval.specs.Criteria.{criterion_of};
ghost use Rattle.sc_eval.specs.Numbers.{leaves, is_match};
ghost use Rattle.sc_journal.specs.Legal.{HasTerms};

use crate::documents::document_of;
use crate::line::Line;
use crate::queries::read;
use crate::records::id_of;
use crate::words::word_and;
use sc_eval::{BindFault, Bound, bind, evaluate};
use sc_hash::{Range, parse_range};
use sc_keys::Steps;
use sc_record::{Cell, Doc, Id, List, Write};
use sc_schema::terms_of;
use sc_snapshot::Snapshot;
use std::alloc::{AllocError, Global};
use std::marker::Brand;
use std::sync::Arc;
use std::sync::ledger::{Blank, Ledger};

pub fn answer(alloc: Global, text: &str) -> Result<String, AllocError> {
    let (range, query) = word_and(text);
    let Some(range) = parse_range(range) else {
        return Err(AllocError);
    };
    let snapshot = snapshot(alloc)?;
    found(alloc, &snapshot, &range, query)
}

/// What a search meets.
fn snapshot(alloc: Global) -> Result<Snapshot, AllocError>
    ensures { IfOk result (λ snapshot.
        All (λ (row : Write). HasTerms row.id row.doc row.terms) snapshot.rows) }
{
    let cells = cells(alloc)?;
    Snapshot::of(alloc, 3, &cells)
}

/// A write of the id: a document, or a deletion.
fn write(alloc: Global, id: &str, hash: i32, doc: Option<Doc>) -> Result<Cell, AllocError>
    ensures id { IfOk result (λ cell. (arc_value cell).id ≡ id.now) }
    ensures terms { IfOk result (λ cell.
        HasTerms (arc_value cell).id (arc_value cell).doc (arc_value cell).terms) }
{
    let Ok(id) = Id::new(alloc, id) else {
        return Err(AllocError);
    };
    let write = match doc {
        Some(doc) => {
            let terms = terms_of(alloc, &id, &doc)?;
            Write::new(alloc, id, hash, 1, &doc, &terms)?
        }
        None => Write::deletion(alloc, id, hash, 1),
    };
    Ok(Arc::new(alloc, write)?)
}

/// Documents `a` and `c`, and `b`, which was deleted.
fn cells(alloc: Global) -> Result<List<Cell>, AllocError>
    ensures rows { IfOk result (λ cells. AreRows (map arc_value cells)) }
    ensures terms { IfOk result (λ cells.
        All (λ (row : Write). HasTerms row.id row.doc row.terms) (map arc_value cells)) }
{
    let mut cells = List::new(alloc);
    cells.push(first(alloc)?)?;
    cells.push(write(alloc, "b", 0, None)?)?;
    cells.push(last(alloc)?)?;
    Ok(cells)
}

/// The document `a`.
fn first(alloc: Global) -> Result<Cell, AllocError>
    ensures id { IfOk result (λ cell. (arc_value cell).id ≡ codes "a") }
    ensures terms { IfOk result (λ cell.
        HasTerms (arc_value cell).id (arc_value cell).doc (arc_value cell).terms) }
{
    let doc = document_of(
        alloc,
        r#"{"id":"a","lang_s":"en","n_i":7,"title_t":"Rust in Action"}"#,
    )?;
    write(alloc, "a", -5, Some(doc))
}

/// The document `c`.
fn last(alloc: Global) -> Result<Cell, AllocError>
    ensures id { IfOk result (λ cell. (arc_value cell).id ≡ codes "c") }
    ensures terms { IfOk result (λ cell.
        HasTerms (arc_value cell).id (arc_value cell).doc (arc_value cell).terms) }
{
    let doc = document_of(
        alloc,
        r#"{"id":"c","lang_s":"de","n_i":8,"title_t":"Proofs, great and small"}"#,
    )?;
    write(alloc, "c", 5, Some(doc))
}

/// The ids that a query finds, or the place of its fault.
fn found(
    alloc: Global,
    snapshot: &Snapshot,
    range: &Range,
    text: &str,
) -> Result<String, AllocError>
    requires { All (λ (row : Write). HasTerms row.id row.doc row.terms) snapshot.now.rows }
{
    let query = read(alloc, text)?;
    match bind(alloc, &query) {
        Ok(bound) => ids_found(alloc, &bound, snapshot, range),
        Err(BindFault::At { at }) => format!(in alloc; "fault {at}"),
        Err(BindFault::Memory) => Err(AllocError),
    }
}

/// The ids of the rows that a query finds.
fn ids_found(
    alloc: Global,
    query: &Bound,
    snapshot: &Snapshot,
    range: &Range,
) -> Result<String, AllocError>
    requires { All (λ (row : Write). HasTerms row.id row.doc row.terms) snapshot.now.rows }
{
    let cells = cells_found(alloc, query, snapshot, range)?;
    let mut ids = Line::new(alloc);
    for cell in cells.as_slice() {
        ids.push(cell.id().as_str());
    }
    ids.end()
}

/// The rows that a query finds.
fn cells_found(
    alloc: Global,
    query: &Bound,
    snapshot: &Snapshot,
    range: &Range,
) -> Result<List<Cell>, AllocError>
    requires { All (λ (row : Write). HasTerms row.id row.doc row.terms) snapshot.now.rows }
{
    counted::<Brand>(alloc, query, snapshot, range, Blank::new(1))
}

/// The same, with a count of its own.
fn counted<L: Ledger>(
    alloc: Global,
    query: &Bound,
    snapshot: &Snapshot,
    range: &Range,
    blank: Blank,
) -> Result<List<Cell>, AllocError>
    requires terms { All (λ (row : Write). HasTerms row.id row.doc row.terms) snapshot.now.rows }
    requires fresh { IsFresh blank L.name L.parts }
{
    let mut steps = Steps::<L>::new(blank);
    in_few_steps(alloc, query, snapshot, range, &mut steps)
}

/// The same in so few steps: over rows with 57 terms, where a query of two leaves matches 20 rows, 32 at most, six for each leaf and one for
/// each of these rows.
fn in_few_steps<L: Ledger>(
    alloc: Global,
    query: &Bound,
    snapshot: &Snapshot,
    range: &Range,
    steps: &mut Steps<L>,
) -> Result<List<Cell>, AllocError>
    requires { All (λ (row : Write). HasTerms row.id row.doc row.terms) snapshot.now.rows }
    ensures { leaves (criterion_of query.now) ≡ 2 → term_count snapshot.now.rows ≡ 57
        → length (filter (is_match (criterion_of query.now)) snapshot.now.rows) ≡ 20 → steps.new - steps.old ≤ 32 }
{
    evaluate(alloc, query, snapshot, range, steps)
}
