//! A new document, made of its members.

ghost use Rattle.std.specs.Prelude.{◌≡◌, ◌∷◌, [], false, filter_map, IfOk, IfErr, OnOk, Ok};
ghost use Rattle.std.specs.List.{list_any};
ghost use Rattle.sc_schema.specs.declared.raw.RawField.{RawField};
ghost use Rattle.sc_schema.specs.Documents.{field_of, found_map, is_object, member_changes, IsDocumentFault};
ghost use Rattle.sc_schema.specs.NewDocuments.{set_to, AddsFields, AddsFound, AddsValues, IfFit};
ghost use Rattle.sc_schema.specs.Values.{value_of, values_for, values_in};

use crate::document::is_field_name;
use crate::fault::DocFault;
use crate::lent::lent_value;
use crate::raw::{RawDoc, RawField, RawFlat, RawOne, RawValue};
use crate::values::given;
use itoa::Buffer;
use sc_record::{Doc, DocBuilder, Kind, kind_of};
use std::alloc::{AllocError, Global};

/// The new document that the members make, none of which is an object, or the first fault of one.
pub fn new_document(alloc: Global, raw: &RawDoc) -> Result<Doc, DocFault>
    requires { list_any (λ (field : RawField). is_object field.value) raw.now.fields ≡ false }
    ensures ok { IfOk result (λ doc. found_map (λ parts. filter_map field_of parts) (member_changes raw.now.fields) ≡ Ok doc) }
    ensures fault { IfErr result (IsDocumentFault (member_changes raw.now.fields)) }
{
    let fields = raw.fields.as_slice();
    let mut made = DocBuilder::new(alloc, room_of(fields))?;
    for field in fields {
        push_member(&mut made, field)?;
    }
    let _count = made.len(); // by it the proof knows that the count fits
    Ok(made.finish()?)
}

/// How many bytes the fields of a new document may have.
fn room_of(fields: &[RawField]) -> usize {
    let mut room: usize = 0;
    for field in fields {
        let name = field.name.as_str().len();
        let text = match &field.value {
            RawValue::Plain(RawFlat::One(RawOne::Text(text))) => text.as_str().len(),
            _ => 0,
        };
        room = room
            .saturating_add(name)
            .saturating_add(text)
            .saturating_add(10);
    }
    room
}

/// Puts the field that a member sets at the end, where it sets one.
fn push_member(made: &mut DocBuilder, field: &RawField) -> Result<(), DocFault>
    requires { is_object field.now.value ≡ false }
    ensures ok { OnOk result (AddsFound (member_changes (field.now ∷ [])) made.old made.new) }
    ensures fault { IfErr result (IsDocumentFault (member_changes (field.now ∷ []))) }
{
    let name = field.name.as_str();
    if !is_field_name(name) {
        return Ok(());
    }
    let Some((kind, many)) = kind_of(name) else {
        return Err(DocFault::UnknownField(field.name.clone()?));
    };
    let RawValue::Plain(flat) = &field.value else {
        return Ok(());
    };
    if push_values(made, name, kind, many, flat)? {
        return Ok(());
    }
    Err(DocFault::WrongValue(field.name.clone()?))
}

/// Puts the field of this name at the end, where it is given values. Whether these fit it.
fn push_values(
    made: &mut DocBuilder,
    name: &str,
    kind: Kind,
    many: bool,
    flat: &RawFlat,
) -> Result<bool, AllocError>
    ensures { IfOk result (λ fit. IfFit fit (values_for kind many flat.now) (λ values. AddsFields (set_to name.now values ∷ []) made.old made.new)) }
{
    let list = given(flat);
    if list.is_empty() {
        return Ok(true);
    }
    if !many && list.len() > 1 {
        return Ok(false);
    }
    made.begin(name, list.len())?;
    push_all(made, kind, list)
}

/// Puts values of the last field at the end, up to the first that does not fit its kind. Whether all fit.
fn push_all(made: &mut DocBuilder, kind: Kind, list: &[RawOne]) -> Result<bool, AllocError>
    ensures { IfOk result (λ fit. IfFit fit (values_in kind list.now) (λ values. AddsValues values made.old made.new)) }
{
    for one in list {
        if !push_one(made, kind, one)? {
            return Ok(false);
        }
    }
    Ok(true)
}

/// Puts a value of the last field at the end, where it fits its kind. Whether it fits.
#[inline]
fn push_one(made: &mut DocBuilder, kind: Kind, one: &RawOne) -> Result<bool, AllocError>
    ensures { IfOk result (λ fits. IfFit fits (value_of kind one.now) (λ value. AddsValues (value ∷ []) made.old made.new)) }
{
    let mut digits = Buffer::new();
    let Some(value) = lent_value(kind, one, &mut digits) else {
        return Ok(false);
    };
    made.push(value)?;
    Ok(true)
}
