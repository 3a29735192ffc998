//! An object's members, as a document that is not checked yet.

ghost use Rattle.std.specs.Prelude.{◌≡◌, ◌↔◌, Some, None, IfOk, map};
ghost use Rattle.serde_json.specs.View.{view, number_view, members_view};
ghost use Rattle.sc_json.specs.RawDocs as raw;

use sc_record::{List, Text};
use sc_schema::{RawDoc, RawField, RawFlat, RawOne, RawValue};
use serde_json::{Map, Number, Value};
use std::alloc::{AllocError, Global};
use thiserror::Error;

/// Why a value became no document.
#[derive(Clone, Copy, Debug, Error)]
pub enum RawFault {
    #[error("a document is an object")]
    NotObject,
    #[error("out of memory")]
    Memory,
}

/// The document that an object's members are, as they came: its fields ascend by their names, as an object's members do.
pub fn raw_doc(alloc: Global, value: &Value) -> Result<RawDoc, RawFault>
    ensures value { IfOk result (λ doc. raw.raw_fields_of (view value.now) ≡ Some doc.fields) }
    ensures not_object { (result ≡ Err RawFault.NotObject)
        ↔ (raw.raw_fields_of (view value.now) ≡ None) }
{
    let Value::Object(members) = value else {
        return Err(RawFault::NotObject);
    };
    match raw_members(alloc, members) {
        Ok(doc) => Ok(doc),
        Err(AllocError) => Err(RawFault::Memory),
    }
}

/// The document that these members are.
fn raw_members(alloc: Global, members: &Map<String, Value>) -> Result<RawDoc, AllocError>
    ensures { IfOk result
        (λ doc. doc.fields ≡ raw.raw_fields (members_view members.now.entries)) }
{
    let mut fields = Vec::with_capacity(alloc, members.len())?;
    for (name, value) in members {
        fields.push(RawField {
            name: Text::new(alloc, name.as_str())?,
            value: raw_value(alloc, value)?,
        })?;
    }
    Ok(RawDoc {
        fields: List::from_vec(fields),
    })
}

/// A member's value: an object with exactly one key is a change.
fn raw_value(alloc: Global, value: &Value) -> Result<RawValue, AllocError>
    ensures { IfOk result (λ found. found ≡ raw.raw_value (view value.now)) }
{
    match value {
        Value::Object(members) => raw_change(alloc, members),
        _ => Ok(RawValue::Plain(raw_flat(alloc, value)?)),
    }
}

/// What an object as a member's value is.
fn raw_change(alloc: Global, members: &Map<String, Value>) -> Result<RawValue, AllocError>
    ensures { IfOk result
        (λ found. found ≡ raw.raw_change (members_view members.now.entries)) }
{
    if members.len() != 1 {
        return Ok(RawValue::Plain(RawFlat::One(RawOne::Other)));
    }
    match members.first_key_value() {
        Some((op, value)) => Ok(RawValue::Change {
            op: Text::new(alloc, op.as_str())?,
            value: raw_flat(alloc, value)?,
        }),
        None => Ok(RawValue::Plain(RawFlat::One(RawOne::Other))),
    }
}

/// A list of values where the value is an array, else the one value.
fn raw_flat(alloc: Global, value: &Value) -> Result<RawFlat, AllocError>
    ensures { IfOk result (λ found. found ≡ raw.raw_flat (view value.now)) }
{
    match value {
        Value::Array(items) => Ok(RawFlat::Many(raw_items(alloc, items.as_slice())?)),
        _ => Ok(RawFlat::One(raw_one(alloc, value)?)),
    }
}

/// The values that an array's items are.
fn raw_items(alloc: Global, items: &[Value]) -> Result<List<RawOne>, AllocError>
    ensures { IfOk result (λ found. found ≡ map raw.raw_one (map view items.now)) }
{
    let mut values = Vec::with_capacity(alloc, items.len())?;
    for item in items {
        values.push(raw_one(alloc, item)?)?;
    }
    Ok(List::from_vec(values))
}

/// One value: an object, an array and a number that is no whole number of 64 signed bits are all other values.
pub fn raw_one(alloc: Global, value: &Value) -> Result<RawOne, AllocError>
    ensures { IfOk result (λ found. found ≡ raw.raw_one (view value.now)) }
{
    match value {
        Value::Null => Ok(RawOne::Null),
        Value::Bool(flag) => Ok(RawOne::Flag(*flag)),
        Value::Number(number) => Ok(raw_number(number)),
        Value::String(text) => Ok(RawOne::Text(Text::new(alloc, text.as_str())?)),
        Value::Array(_) | Value::Object(_) => Ok(RawOne::Other),
    }
}

/// A number, where it is a whole number of 64 signed bits.
fn raw_number(number: &Number) -> RawOne
    ensures { result ≡ raw.raw_number (number_view number.now) }
{
    match number.as_i64() {
        Some(n) => RawOne::Number(n),
        None => RawOne::Other,
    }
}
