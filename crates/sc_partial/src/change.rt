ghost use Rattle.std.specs.Prelude.{◌≡◌, ◌∷◌, [], ◌+ℤ◌, IfOk, if◌then◌else◌, Some, None};
ghost use Rattle.sc_partial.specs.Changed.{can_change, changed, has_room, is_in_kind_range, number_in, number_value};

use crate::value::{with_all, with_distinct, without};
use sc_record::{CloneIn, How, Kind, List, Value, kind_of};
use std::alloc::{AllocError, Global};

/// The values of the field of this name after the change. `None` where the field can't take it.
pub fn changed(
    alloc: Global,
    name: &str,
    old: &[Value],
    how: &How,
) -> Result<Option<List<Value>>, AllocError>
    ensures { IfOk result (λ after. after ≡ (if can_change name.now old.now how.now
        then Some (changed name.now old.now how.now) else None)) }
{
    let kind = kind_of(name);
    let values = match how {
        How::Set(values) => values.clone_in(alloc)?,
        How::Add(values) => with_all(alloc, old, values.as_slice())?,
        How::AddDistinct(values) => with_distinct(alloc, old, values.as_slice())?,
        How::Remove(values) => without(alloc, old, values.as_slice())?,
        How::Inc(amount) => return incremented(alloc, kind, old, *amount),
    };
    if has_room(kind, &values) {
        return Ok(Some(values));
    }
    Ok(None)
}

/// Whether a field of this kind may have so many values.
fn has_room(kind: Option<(Kind, bool)>, values: &List<Value>) -> bool
    ensures { result ≡ has_room kind values.now }
{
    match kind {
        Some((_, false)) => values.len() <= 1,
        _ => true,
    }
}

/// The sum of the number that stands and the amount, alone. `None` where it is outside the kind's range.
fn incremented(
    alloc: Global,
    kind: Option<(Kind, bool)>,
    old: &[Value],
    amount: i64,
) -> Result<Option<List<Value>>, AllocError>
    ensures { IfOk result (λ after. after ≡ (if is_in_kind_range kind (number_in old.now +ℤ amount)
        then Some (number_value kind (number_in old.now +ℤ amount) ∷ []) else None)) }
{
    let Some(sum) = number_in(old).checked_add(amount) else {
        return Ok(None);
    };
    let Some(value) = number_value(kind, sum) else {
        return Ok(None);
    };
    let mut values = Vec::with_capacity(alloc, 1)?;
    values.push(value)?;
    Ok(Some(List::from_vec(values)))
}

/// The number that stands, and 0 where none stands.
fn number_in(old: &[Value]) -> i64
    ensures { result ≡ number_in old.now }
{
    match old {
        [Value::Int(number), ..] => i64::from(*number),
        [Value::Long(number), ..] => *number,
        _ => 0,
    }
}

/// The number as a value of a field of this kind. `None` where it is outside the kind's range.
fn number_value(kind: Option<(Kind, bool)>, number: i64) -> Option<Value>
    ensures { result ≡ (if is_in_kind_range kind number then Some (number_value kind number) else None) }
{
    match kind {
        Some((Kind::Int, _)) => match i32::try_from(number) {
            Ok(number) => Some(Value::Int(number)),
            Err(_) => None,
        },
        _ => Some(Value::Long(number)),
    }
}
