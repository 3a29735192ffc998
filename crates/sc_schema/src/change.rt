ghost use Rattle.std.specs.Prelude.{◌≡◌, IfOk};
ghost use Rattle.sc_record.specs.Orders.{fits_amount};
ghost use Rattle.sc_schema.specs.Values.{amount_for, change_named, how_of_value};

use crate::raw::{RawFlat, RawValue};
use crate::value::number_of;
use crate::values::{some_values_for, values_for};
use sc_record::{How, Kind};
use std::alloc::{AllocError, Global};

/// How a member of this value changes its field. `None` where the field does not take it.
pub fn how_of(
    alloc: Global,
    kind: Kind,
    many: bool,
    value: &RawValue,
) -> Result<Option<How>, AllocError>
    ensures { IfOk result (λ how. how ≡ how_of_value kind many value.now) }
{
    match value {
        RawValue::Plain(flat) => Ok(values_for(alloc, kind, many, flat)?.map(How::Set)),
        RawValue::Change { op, value } => change_named(alloc, op.as_str(), kind, many, value),
    }
}

/// The change of this name (Solr Reference Guide, "Atomic Updates").
fn change_named(
    alloc: Global,
    name: &str,
    kind: Kind,
    many: bool,
    flat: &RawFlat,
) -> Result<Option<How>, AllocError>
    ensures { IfOk result (λ how. how ≡ change_named name.now kind many flat.now) }
{
    match name {
        "set" => Ok(values_for(alloc, kind, many, flat)?.map(How::Set)),
        "add" => Ok(some_values_for(alloc, kind, many, flat)?.map(How::Add)),
        "add-distinct" => Ok(some_values_for(alloc, kind, many, flat)?.map(How::AddDistinct)),
        "remove" => Ok(some_values_for(alloc, kind, many, flat)?.map(How::Remove)),
        "inc" => Ok(amount_for(kind, many, flat).map(How::Inc)),
        _ => Ok(None),
    }
}

/// The number that is added to the value of the field.
fn amount_for(kind: Kind, many: bool, flat: &RawFlat) -> Option<i64>
    ensures { result ≡ amount_for kind many flat.now }
{
    let RawFlat::One(one) = flat else {
        return None;
    };
    let amount = number_of(one)?;
    if fits_amount(kind, many, amount) {
        return Some(amount);
    }
    None
}

/// Whether the number may be added to the value of a field of this kind.
fn fits_amount(kind: Kind, many: bool, amount: i64) -> bool
    ensures { result ≡ fits_amount kind many amount }
{
    match (kind, many) {
        (Kind::Int, false) => i32::try_from(amount).is_ok(),
        (Kind::Long, false) => true,
        _ => false,
    }
}
