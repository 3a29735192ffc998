//! One order of a workload.
ghost use Rattle.std.specs.Prelude.{◌≡◌, ◌<◌, ◌^◌, pos, [], ◌∷◌, IfOk};
ghost use Rattle.sc_schema.specs.Documents.{content_of};
ghost use Rattle.sc_workload.specs.Workload.{change_at, fields_at, workload_id};

use sc_record::{Change, Doc, Field, Id, List, Order, Text, Value};
use std::alloc::{AllocError, Global};

/// The order at this place of a workload, on the document of this number.
pub(crate) fn order_at(alloc: Global, number: u32, place: u32) -> Result<Order, AllocError>
    requires { place < 2 ^ 31 }
    ensures { IfOk result (λ order. content_of order
        ≡ record { id = workload_id number; condition = pos 0; change = change_at place }) }
{
    Ok(Order {
        id: id_of(alloc, number)?,
        condition: 0,
        change: change_at(alloc, place)?,
    })
}

/// The id of the document of this number.
fn id_of(alloc: Global, number: u32) -> Result<Id, AllocError>
    ensures { IfOk result (λ id. id ≡ workload_id number) }
{
    let text = format!(in alloc; "w{number}")?;
    match Id::new(alloc, text.as_str()) {
        Ok(id) => Ok(id),
        // The text has 2 to 11 bytes, so memory ran out.
        Err(_) => Err(AllocError),
    }
}

/// What the order at this place does: one in five deletes its document.
fn change_at(alloc: Global, place: u32) -> Result<Change, AllocError>
    requires { place < 2 ^ 31 }
    ensures { IfOk result (λ change. change ≡ change_at place) }
{
    if place % 5 == 4 {
        return Ok(Change::Delete);
    }
    let fields = fields_at(alloc, place)?;
    Ok(Change::Whole(Doc::new(alloc, fields.as_slice())?))
}

/// The fields of the document that the order at this place adds.
fn fields_at(alloc: Global, place: u32) -> Result<List<Field>, AllocError>
    requires { place < 2 ^ 31 }
    ensures { IfOk result (λ fields. fields ≡ fields_at place) }
{
    let group = if place % 3 == 0 { "a" } else { "b" };
    let mut fields = List::new(alloc);
    fields.push(field(alloc, "g_s", Value::Text(Text::new(alloc, group)?))?)?;
    fields.push(field(alloc, "k_i", Value::Int(place as i32))?)?;
    Ok(fields)
}

/// A field of one value.
fn field(alloc: Global, name: &str, value: Value) -> Result<Field, AllocError>
    ensures { IfOk result (λ field. field ≡ record { name = name.now; values = value ∷ [] }) }
{
    let mut values = List::new(alloc);
    values.push(value)?;
    Ok(Field {
        name: Text::new(alloc, name)?,
        values,
    })
}
