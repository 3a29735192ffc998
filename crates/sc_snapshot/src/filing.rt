ghost use Rattle.std.specs.Prelude.{◌≡◌, ℕ, ◌≤◌, not, ◌||◌, List, [], ◌∷◌, ◌++◌, IfOk, OnOk};
ghost use Rattle.std.specs.Str.{bytes_eq};
ghost use Rattle.sc_record.specs.TermRuns.{term_of};
ghost use Rattle.sc_segment.specs.Index.{IsIndexOf};
ghost use Rattle.sc_snapshot.specs.Postings.{has_id_alone, is_id_alone, is_id_term, key_order, keyed, live_terms, other_terms, without_ids};
ghost use Rattle.sc_snapshot.specs.declared.term_key.TermKey.{TermKey};

use crate::ids::is_id_field;
use crate::term_key::TermKey;
use sc_record::{TermRef, Terms, Write};
use sc_segment::Builder;
use std::alloc::{AllocError, Global};

/// What a search finds the row by.
pub(crate) fn live_terms(row: &Write) -> Terms<'_>
    ensures { result ≡ live_terms row.now }
{
    if row.is_live() {
        row.terms()
    } else {
        Terms::none()
    }
}

/// Files a row under each of these terms. The only error is that memory was refused.
pub(crate) fn file_terms(
    alloc: Global,
    builder: &mut Builder<TermKey>,
    number: u32,
    terms: Terms<'_>,
) -> Result<(), AllocError>
    requires { builder.old.last_row ≤ number }
    ensures index { OnOk result ((added : List (ℕ × TermKey)) → IsIndexOf key_order added builder.old.index
        → IsIndexOf key_order (added ++ keyed number terms.entry) builder.new.index) }
    ensures last_row { OnOk result (builder.new.last_row ≤ number) }
{
    for term in terms {
        let key = TermKey::of_lent(alloc, &term)?;
        builder.add(number, key)?;
    }
    Ok(())
}

/// Files a row, where it is live, under each of its terms but those of the field of ids, and tells whether it is a deletion or has of these
/// that of its own id alone. The only error is that memory was refused.
pub(crate) fn file_row(
    alloc: Global,
    builder: &mut Builder<TermKey>,
    number: u32,
    row: &Write,
) -> Result<bool, AllocError>
    requires { builder.old.last_row ≤ number }
    ensures index { OnOk result ((added : List (ℕ × TermKey)) → IsIndexOf key_order added builder.old.index
        → IsIndexOf key_order (added ++ keyed number (live_terms (without_ids row.now))) builder.new.index) }
    ensures last_row { OnOk result (builder.new.last_row ≤ number) }
    ensures alone { IfOk result (λ is_alone. is_alone ≡ has_id_alone row.now) }
{
    if !row.is_live() {
        return Ok(true);
    }
    let is_alone = file_others(alloc, builder, number, row.id().as_str(), row.terms())?;
    Ok(is_alone)
}

// Files a row under each of these terms but those of the field of ids, and tells whether of these there is that of the id, and no other.
// Each term is looked at once.
fn file_others(
    alloc: Global,
    builder: &mut Builder<TermKey>,
    number: u32,
    id: &str,
    terms: Terms<'_>,
) -> Result<bool, AllocError>
    requires { builder.old.last_row ≤ number }
    ensures index { OnOk result ((added : List (ℕ × TermKey)) → IsIndexOf key_order added builder.old.index
        → IsIndexOf key_order (added ++ keyed number (other_terms terms.entry)) builder.new.index) }
    ensures last_row { OnOk result (builder.new.last_row ≤ number) }
    ensures alone { IfOk result (λ is_alone. is_alone ≡ is_id_alone id.now terms.entry) }
{
    let mut has_id = false;
    let mut has_no_other = true;
    for term in terms {
        let is_id = file_other(alloc, builder, number, &term)?;
        has_id |= is_id;
        has_no_other &= is_no_other(id, &term, is_id);
    }
    Ok(has_id & has_no_other)
}

// Files a row under the term, unless it is of the field of ids, and tells whether it is.
fn file_other(
    alloc: Global,
    builder: &mut Builder<TermKey>,
    number: u32,
    term: &TermRef<'_>,
) -> Result<bool, AllocError>
    requires { builder.old.last_row ≤ number }
    ensures index { OnOk result ((added : List (ℕ × TermKey)) → IsIndexOf key_order added builder.old.index
        → IsIndexOf key_order (added ++ keyed number (other_terms (term_of term.now ∷ []))) builder.new.index) }
    ensures last_row { OnOk result (builder.new.last_row ≤ number) }
    ensures is_id { IfOk result (λ is_id. is_id ≡ is_id_term (term_of term.now)) }
{
    if is_id_field(term.field) {
        return Ok(true);
    }
    let key = TermKey::of_lent(alloc, term)?;
    builder.add(number, key)?;
    Ok(false)
}

// Whether the term is that of the id, where it is of the field of ids.
fn is_no_other(id: &str, term: &TermRef<'_>, is_id: bool) -> bool
    ensures { result ≡ (not is_id || bytes_eq term.now.key.now id.now) }
{
    !is_id || term.key == id
}
