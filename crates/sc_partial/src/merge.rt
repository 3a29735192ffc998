ghost use Rattle.std.specs.Prelude.{◌≡◌, IfOk, OnOk, IfErr, IfSome, IsTrue, if◌then◌else◌, [], None, Some, option_copied};
ghost use Rattle.std.specs.List.{AllByRecursion};
ghost use Rattle.sc_values.specs.Fields.{FitsField, IsDocument};
ghost use Rattle.sc_spelling.specs.Reading.{document_at, read_of, rest_of};
ghost use Rattle.sc_record.specs.Orders.{AreFieldChanges};
ghost use Rattle.sc_partial.specs.Changed.{can_change, changed};
ghost use Rattle.sc_partial.specs.Resolved.{first_refused, fields_of, IsChanged, IsRefusalOf, some_field};
ghost use Rattle.sc_record.specs.DocParts.{spelled, Adds};
ghost use Rattle.sc_partial.specs.Runs.{next_fields};

use crate::change::changed;
use crate::fault::PartialFault;
use sc_record::{CloneIn, Doc, DocBuilder, FieldChange, List, Value};
use sc_spelling::{FieldRef, Fields};
use std::alloc::{AllocError, Global};
use std::cmp::Ordering;

/// The bytes of a document without fields.
const NO_FIELDS: [u8; 4] = [0; 4];

/// How many bytes more than a document's own there is room for while it is changed.
const MORE_ROOM: usize = 128;

/// The document that an atomic update makes of the one that stands, or of an empty one where none stands (Solr Reference
/// Guide, "Atomic Updates"). The first field, by name, that can't take its change is the fault. Memory may run out before
/// that one is found. The document that stands is only read, and the new one shares nothing with it.
pub fn resolve(
    alloc: Global,
    old: Option<&Doc>,
    changes: &List<FieldChange>,
) -> Result<Doc, PartialFault>
    requires { AreFieldChanges changes.now }
    ensures accepted { OnOk result (first_refused (fields_of (option_copied old.entry)) changes.now ≡ None) }
    ensures document { IfOk result (IsChanged (fields_of (option_copied old.entry)) changes.now) }
    ensures refused { IfErr result (IsRefusalOf (first_refused (fields_of (option_copied old.entry)) changes.now)) }
{
    let fields = match old {
        Some(doc) => Some(doc.fields()),
        None => None,
    };
    resolve_fields(alloc, fields, changes.as_slice())
}

/// The same, where the fields of the document that stands are lent.
pub fn resolve_fields(
    alloc: Global,
    old: Option<Fields<'_>>,
    changes: &[FieldChange],
) -> Result<Doc, PartialFault>
    requires document { IfSome old IsDocument }
    requires changes { AreFieldChanges changes.now }
    ensures accepted { OnOk result (first_refused (fields_of old.entry) changes.now ≡ None) }
    ensures document { IfOk result (IsChanged (fields_of old.entry) changes.now) }
    ensures refused { IfErr result (IsRefusalOf (first_refused (fields_of old.entry) changes.now)) }
{
    let made = merged(alloc, fields_or_none(old), changes)?;
    Ok(made.finish()?)
}

/// The fields of the document, and none where there is no document.
fn fields_or_none<'a>(old: Option<Fields<'a>>) -> Fields<'a>
    requires { IfSome old IsDocument }
    ensures fields { result ≡ fields_of old.entry }
    ensures document { IsDocument (fields_of old.entry) }
{
    match old {
        Some(fields) => fields,
        None => Fields::of(&NO_FIELDS),
    }
}

/// The fields after all changes: one pass over both lists, whose names ascend.
fn merged(
    alloc: Global,
    old: Fields<'_>,
    changes: &[FieldChange],
) -> Result<DocBuilder, PartialFault>
    requires document { IsDocument old }
    requires changes { AreFieldChanges changes.now }
    ensures accepted { OnOk result (first_refused old.entry changes.now ≡ None) }
    ensures whole { IfOk result (λ made. rest_of (document_at (spelled made)) ≡ Some []) }
    ensures document { IfOk result (λ made. IsChanged old.entry changes.now (read_of (document_at (spelled made)))) }
    ensures refused { IfErr result (IsRefusalOf (first_refused old.entry changes.now)) }
{
    let mut fields = old;
    let mut next = fields.next();
    let mut made = DocBuilder::new(alloc, room_of(&next))?;
    let mut changes_left = changes;
    while let Some((change, later)) = changes_left.split_first() {
        let Some(field) = next else {
            add_changed(alloc, change, &[], &mut made)?;
            changes_left = later;
            next = None;
            continue;
        };
        match field.name.cmp(change.name.as_str()) {
            Ordering::Less => {
                made.push_lent(field)?;
                next = fields.next();
            }
            Ordering::Equal => {
                let values = field.values.to_values(alloc)?;
                add_changed(alloc, change, values.as_slice(), &mut made)?;
                next = fields.next();
                changes_left = later;
            }
            Ordering::Greater => {
                add_changed(alloc, change, &[], &mut made)?;
                changes_left = later;
                next = Some(field);
            }
        }
    }
    push_left(next, fields, &mut made)?;
    let _count = made.len(); // by it the proof knows that the count fits
    Ok(made)
}

/// How many bytes the fields after the changes may have, by what is left of the document where its first field is lent.
fn room_of(first: &Option<FieldRef<'_>>) -> usize {
    match first {
        Some(field) => field.values.bytes_left().saturating_add(MORE_ROOM),
        None => MORE_ROOM,
    }
}

/// Puts the fields that are left at the end.
fn push_left(
    next: Option<FieldRef<'_>>,
    others: Fields<'_>,
    made: &mut DocBuilder,
) -> Result<(), AllocError>
    ensures { OnOk result (Adds (next_fields next.entry others.entry) made.old made.new) }
{
    let Some(first) = next else {
        return Ok(());
    };
    made.push_lent(first)?;
    for field in others {
        made.push_lent(field)?;
    }
    Ok(())
}

/// Puts the field that a change makes of these values at the end, where it has values then.
fn add_changed(
    alloc: Global,
    change: &FieldChange,
    old: &[Value],
    made: &mut DocBuilder,
) -> Result<(), PartialFault>
    ensures accepted { OnOk result (IsTrue (can_change change.now.name old.now change.now.how)) }
    ensures added { OnOk result
        (Adds (some_field change.now.name (changed change.now.name old.now change.now.how)) made.old made.new) }
    ensures fits { OnOk result
        (AllByRecursion FitsField (some_field change.now.name (changed change.now.name old.now change.now.how))) }
    ensures refused { IfErr result (IsRefusalOf
        (if can_change change.now.name old.now change.now.how then None else Some change.now.name)) }
{
    let name = change.name.as_str();
    let Some(values) = changed(alloc, name, old, &change.how)? else {
        return Err(PartialFault::Field(change.name.clone_in(alloc)?));
    };
    if values.is_empty() {
        return Ok(());
    }
    made.push_field(name, values.as_slice())?;
    Ok(())
}
