ghost use Rattle.std.specs.Prelude.{◌≡◌, IfOk};
ghost use Rattle.sc_schema.specs.Values.{values_in, given, values_for, some_values_for};

use crate::raw::{RawFlat, RawOne};
use crate::value::value_of;
use sc_record::{Kind, List, Value};
use std::alloc::{AllocError, Global};
use std::slice;

/// The values that a field of this kind is given, which may be none. `None` where one does not fit, or where there are more
/// than the field may have.
pub fn values_for(
    alloc: Global,
    kind: Kind,
    many: bool,
    flat: &RawFlat,
) -> Result<Option<List<Value>>, AllocError>
    ensures { IfOk result (λ values. values ≡ values_for kind many flat.now) }
{
    let Some(values) = values_in(alloc, kind, given(flat))? else {
        return Ok(None);
    };
    if many || values.len() <= 1 {
        return Ok(Some(values));
    }
    Ok(None)
}

/// The values that a field of this kind is given. `None` also where there are none.
pub fn some_values_for(
    alloc: Global,
    kind: Kind,
    many: bool,
    flat: &RawFlat,
) -> Result<Option<List<Value>>, AllocError>
    ensures { IfOk result (λ values. values ≡ some_values_for kind many flat.now) }
{
    let Some(values) = values_for(alloc, kind, many, flat)? else {
        return Ok(None);
    };
    if values.is_empty() {
        return Ok(None);
    }
    Ok(Some(values))
}

/// The values that are given: null is none.
pub fn given(flat: &RawFlat) -> &[RawOne]
    ensures { result.now ≡ given flat.now }
{
    match flat {
        RawFlat::One(RawOne::Null) => &[],
        RawFlat::One(one) => slice::from_ref(one),
        RawFlat::Many(list) => list.as_slice(),
    }
}

/// The values of a field of this kind, in order. `None` where one does not fit.
fn values_in(alloc: Global, kind: Kind, list: &[RawOne]) -> Result<Option<List<Value>>, AllocError>
    ensures { IfOk result (λ values. values ≡ values_in kind list.now) }
{
    let mut values = List::from_vec(Vec::with_capacity(alloc, list.len())?);
    for one in list {
        let Some(value) = value_of(alloc, kind, one)? else {
            return Ok(None);
        };
        values.push(value)?;
    }
    Ok(Some(values))
}
