ghost use Rattle.std.specs.Prelude.{◌≡◌, IfOk, IfErr, Ok, option_copied, codes};
ghost use Rattle.std.specs.List.{list_any};
ghost use Rattle.sc_record.specs.Orders.{IsChangeOfOrder};
ghost use Rattle.sc_record.specs.declared.order.Order.{Order};
ghost use Rattle.sc_schema.specs.declared.raw.RawField.{RawField};
ghost use Rattle.sc_schema.specs.Documents.{content_of, change_of_members, how_of_member, version_condition, condition_text, document_order, found_map, id_of, id_text, is_field_name, is_object, IsDocumentFault, member, NamesFields, member_change, member_changes};

use crate::change::how_of;
use crate::fault::DocFault;
use crate::new_document::new_document;
use crate::raw::{RawDoc, RawField, RawFlat, RawOne, RawValue};
use crate::value::{decimal, number_text};
use sc_record::{Change, FieldChange, Id, IdFault, List, Order, Text, kind_of};
use std::alloc::{AllocError, Global};

/// The order that a document's members ask for, or the first of their faults.
pub fn check_doc(alloc: Global, raw: &RawDoc) -> Result<Order, DocFault>
    ensures ok { IfOk result (λ order. document_order raw.now.fields ≡ Ok (content_of order)) }
    ensures fault { IfErr result (IsDocumentFault (document_order raw.now.fields)) }
    ensures names { IfOk result (λ order. NamesFields raw.now.fields order.change) }
{
    let fields = raw.fields.as_slice();
    let id = id_of(alloc, member(fields, "id"))?;
    let condition = condition_of(alloc, member(fields, "_version_"))?;
    let change = change_of(alloc, raw)?;
    Ok(Order {
        id,
        condition,
        change,
    })
}

/// The value of the member of this name.
fn member<'a>(fields: &'a [RawField], name: &str) -> Option<&'a RawValue>
    ensures { option_copied result ≡ member fields.now name.now }
{
    for field in fields {
        if field.name.as_str() == name {
            return Some(&field.value);
        }
    }
    None
}

/// The id of a document, by the value of its member `id`.
fn id_of(alloc: Global, value: Option<&RawValue>) -> Result<Id, DocFault>
    ensures ok { IfOk result (λ id. id_of (option_copied value.entry) ≡ Ok id) }
    ensures fault { IfErr result (IsDocumentFault (id_of (option_copied value.entry))) }
{
    match value {
        None | Some(RawValue::Plain(RawFlat::One(RawOne::Null))) => Err(DocFault::NoId),
        Some(RawValue::Plain(RawFlat::One(RawOne::Text(text)))) => id_text(alloc, text.as_str()),
        Some(RawValue::Plain(RawFlat::One(RawOne::Number(number)))) => {
            let text = decimal(alloc, *number)?;
            id_text(alloc, text.as_str())
        }
        Some(_) => Err(DocFault::WrongValue(Text::new(alloc, "id")?)),
    }
}

/// The text as an id.
fn id_text(alloc: Global, text: &str) -> Result<Id, DocFault>
    ensures ok { IfOk result (λ id. id_text text.now ≡ Ok id) }
    ensures fault { IfErr result (IsDocumentFault (id_text text.now)) }
{
    match Id::new(alloc, text) {
        Ok(id) => Ok(id),
        Err(IdFault::Empty) => Err(DocFault::NoId),
        Err(IdFault::TooLong) => Err(DocFault::IdTooLong),
        Err(IdFault::Memory) => Err(DocFault::Memory),
    }
}

/// The condition of a document, by the value of its member `_version_`.
fn condition_of(alloc: Global, value: Option<&RawValue>) -> Result<i64, DocFault>
    ensures ok { IfOk result (λ condition. version_condition (option_copied value.entry) ≡ Ok condition) }
    ensures fault { IfErr result (IsDocumentFault (version_condition (option_copied value.entry))) }
{
    match value {
        None => Ok(0),
        Some(RawValue::Plain(RawFlat::One(RawOne::Number(number)))) => Ok(*number),
        Some(RawValue::Plain(RawFlat::One(RawOne::Text(text)))) => {
            condition_text(alloc, text.as_str())
        }
        Some(_) => Err(DocFault::WrongValue(Text::new(alloc, "_version_")?)),
    }
}

/// The changes of fields that the members ask for, or the first fault of a field.
fn parts_of(alloc: Global, fields: &[RawField]) -> Result<List<FieldChange>, DocFault>
    ensures ok { IfOk result (λ parts. member_changes fields.now ≡ Ok parts) }
    ensures fault { IfErr result (IsDocumentFault (member_changes fields.now)) }
{
    let mut parts = List::from_vec(Vec::with_capacity(alloc, fields.len())?);
    for field in fields {
        if is_field_name(field.name.as_str()) {
            parts.push(part_of(alloc, field)?)?;
        }
    }
    Ok(parts)
}

/// Whether the name is neither that of the id nor that of the version.
pub fn is_field_name(name: &str) -> bool
    ensures { result ≡ is_field_name name.now }
{
    name != "id" && name != "_version_"
}

/// The change of a field that a member asks for.
fn part_of(alloc: Global, field: &RawField) -> Result<FieldChange, DocFault>
    ensures ok { IfOk result (λ part. member_change field.now ≡ Ok part) }
    ensures fault { IfErr result (IsDocumentFault (member_change field.now)) }
{
    let name = field.name.clone()?;
    let Some((kind, many)) = kind_of(name.as_str()) else {
        return Err(DocFault::UnknownField(name));
    };
    match how_of(alloc, kind, many, &field.value)? {
        Some(how) => Ok(FieldChange { name, how }),
        None => Err(DocFault::WrongValue(name)),
    }
}

/// The condition that a version's text states, which is just its decimal text.
fn condition_text(alloc: Global, text: &str) -> Result<i64, DocFault>
    ensures ok { IfOk result (λ condition. condition_text text.now ≡ Ok condition) }
    ensures fault { IfErr result (IsDocumentFault (condition_text text.now)) }
{
    let Some(number) = number_text(text) else {
        return Err(DocFault::WrongValue(Text::new(alloc, "_version_")?));
    };
    let canonical = decimal(alloc, number)?;
    if canonical.as_str() == text {
        return Ok(number);
    }
    Err(DocFault::WrongValue(Text::new(alloc, "_version_")?))
}

/// The change that the document asks for, or the first fault of a field.
fn change_of(alloc: Global, raw: &RawDoc) -> Result<Change, DocFault>
    ensures ok { IfOk result (λ change. found_map (change_of_members raw.now.fields) (member_changes raw.now.fields) ≡ Ok change) }
    ensures fault { IfErr result (IsDocumentFault (member_changes raw.now.fields)) }
    ensures lawful { IfOk result IsChangeOfOrder }
    ensures names { IfOk result (NamesFields raw.now.fields) }
{
    let fields = raw.fields.as_slice();
    if is_update(fields) {
        return Ok(Change::Parts(parts_of(alloc, fields)?));
    }
    Ok(Change::Whole(new_document(alloc, raw)?))
}

/// Whether the value of a member is an object.
fn is_update(fields: &[RawField]) -> bool
    ensures { result ≡ list_any (λ (field : RawField). is_object field.value) fields.now }
{
    fields
        .iter()
        .any(|field| matches!(field.value, RawValue::Change { .. }))
}
