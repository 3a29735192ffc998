//! A document as it is shown.

ghost use Rattle.std.specs.Prelude.{◌≡◌, ◌∷◌, [], length, OnOk, IfOk, Some, map};
ghost use Rattle.std.specs.Cmp.Lexicographic.{slice_cmp};
ghost use Rattle.std.specs.Ordering.{nat_cmp};
ghost use Rattle.serde.specs.Event.{Logs};
ghost use Rattle.serde_json.specs.Events.{SendsValue, number_event};
ghost use Rattle.serde_json.specs.Find.{of_integer};
ghost use Rattle.sc_values.specs.Fields.{IsDocument};
ghost use Rattle.sc_values.specs.declared.value.Value.{Value};
ghost use Rattle.sc_spelling.specs.Lent.{field_of, value_of};
ghost use Rattle.sc_json.specs.Documents as documents;
ghost use Rattle.sc_json.specs.Sent.{SendsMember, SendsEach, SendsBefore, with_next};

use sc_record::{Id, Write, kind_of};
use sc_spelling::{FieldRef, Fields, ValueRef, Values};
use serde::{Described, Serialize, Serializer};
use std::cmp::Ordering;

/// The document of a write, with its id and its version, as it is written into an answer (Solr Reference Guide, "Response
/// Writers"): a field that may have one value is that value, any other the list of its values. A deletion is null.
#[derive(Clone, Copy)]
pub struct ShownDocument<'a>(pub &'a Write);

impl Described for ShownDocument<'_> {
    ghost writes = { λ shown. SendsValue (documents.write_data shown.0.now) };
}

impl Serialize for ShownDocument<'_> {
    fn serialize<S: Serializer>(&self, out: &mut S) -> Result<(), S::Error> {
        let write = self.0;
        match write.doc() {
            Some(fields) => send_document(out, write.id(), write.version(), fields),
            None => out.unit(),
        }
    }
}

/// Sends the document of these fields, with its id and its version, its members ascending by the bytes of their keys.
fn send_document<S: Serializer>(
    out: &mut S,
    id: &Id,
    version: i64,
    fields: Fields<'_>,
) -> Result<(), S::Error>
    requires { IsDocument fields }
    ensures { OnOk result (SendsValue (documents.document_data id.now version (Some fields.entry))
        (S.written out.old) (S.written out.new)) }
{
    let mut rest = fields;
    out.begin_map(Some(rest.len() + 2))?;
    let first = rest.next();
    let between = send_before(out, &mut rest, first, "_version_")?;
    out.key("_version_")?;
    send_whole(out, version)?;
    let later = send_before(out, &mut rest, between, "id")?;
    out.key("id")?;
    out.str(id.as_str())?;
    send_fields(out, rest, later)?;
    out.end_map()
}

/// Sends the members that the next field and those after it are, as far as their names come before this one. It gives the first
/// field whose name does not.
fn send_before<'a, S: Serializer>(
    out: &mut S,
    fields: &mut Fields<'a>,
    next: Option<FieldRef<'a>>,
    name: &str,
) -> Result<Option<FieldRef<'a>>, S::Error>
    ensures { IfOk result (λ first. SendsBefore name.now (with_next next.entry fields.old) (with_next first fields.new)
        (S.written out.old) (S.written out.new)) }
{
    let mut next = next;
    while let Some(field) = next {
        if !name_cmp(field.name, name).is_lt() {
            return Ok(Some(field));
        }
        send_field(out, field)?;
        next = fields.next();
    }
    Ok(None)
}

/// The order of two names, of which most differ in their first bytes.
fn name_cmp(left: &str, right: &str) -> Ordering
    ensures { result ≡ slice_cmp nat_cmp left.now right.now }
{
    match (left.as_bytes(), right.as_bytes()) {
        ([first, ..], [other, ..]) if *first != *other => first.cmp(other),
        _ => left.cmp(right),
    }
}

/// Sends the members that the next field and those after it are.
fn send_fields<S: Serializer>(
    out: &mut S,
    fields: Fields<'_>,
    next: Option<FieldRef<'_>>,
) -> Result<(), S::Error>
    ensures { OnOk result (SendsEach (map documents.field_member (with_next next.entry fields.entry))
        (S.written out.old) (S.written out.new)) }
{
    let Some(field) = next else {
        return Ok(());
    };
    send_field(out, field)?;
    for field in fields {
        send_field(out, field)?;
    }
    Ok(())
}

/// Sends the member that a field is: a field that may have one value is that value, any other the list of its values.
fn send_field<S: Serializer>(out: &mut S, field: FieldRef<'_>) -> Result<(), S::Error>
    ensures { OnOk result (SendsMember (documents.field_member (field_of field.entry))
        (S.written out.old) (S.written out.new)) }
{
    let FieldRef { name, values } = field;
    out.key(name)?;
    match kind_of(name) {
        Some((_, false)) if values.len() == 1 => send_only(out, values),
        _ => send_list(out, values),
    }
}

/// Sends the only value.
fn send_only<S: Serializer>(out: &mut S, values: Values<'_>) -> Result<(), S::Error>
    requires { length values ≡ 1 }
    ensures { OnOk result ((value : Value) → values.entry ≡ value ∷ [] → SendsValue (documents.value_data value)
        (S.written out.old) (S.written out.new)) }
{
    let mut values = values;
    match values.next() {
        Some(value) => send_value(out, &value),
        None => Ok(()),
    }
}

/// Sends the list of values.
fn send_list<S: Serializer>(out: &mut S, values: Values<'_>) -> Result<(), S::Error>
    ensures { OnOk result (SendsValue (documents.array_of (map documents.value_data values.entry))
        (S.written out.old) (S.written out.new)) }
{
    out.begin_seq(Some(values.len()))?;
    for value in values {
        send_value(out, &value)?;
    }
    out.end_seq()
}

/// Sends one value of a field.
fn send_value<S: Serializer>(out: &mut S, value: &ValueRef<'_>) -> Result<(), S::Error>
    ensures { OnOk result (SendsValue (documents.value_data (value_of value.now))
        (S.written out.old) (S.written out.new)) }
{
    match value {
        ValueRef::Text(text) => out.str(text),
        ValueRef::Int(n) => send_whole(out, i64::from(*n)),
        ValueRef::Long(n) => send_whole(out, *n),
        ValueRef::Flag(b) => out.bool(*b),
    }
}

/// Sends a whole number.
fn send_whole<S: Serializer>(out: &mut S, n: i64) -> Result<(), S::Error>
    ensures { OnOk result (Logs (S.written out.old) (S.written out.new) (number_event (of_integer n))) }
{
    if n >= 0 {
        out.u64(n as u64)
    } else {
        out.i64(n)
    }
}
