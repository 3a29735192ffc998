ghost use Rattle.std.specs.Prelude.{◌≡◌, ◌++◌, IfOk};
ghost use Rattle.sc_partial.specs.Changed.{same_value, is_among, with_distinct, without};

use sc_record::{CloneIn, List, Value};
use std::alloc::{AllocError, Global};

/// Whether the two values are equal.
fn is_same(value: &Value, other: &Value) -> bool
    ensures { result ≡ same_value value.now other.now }
{
    match (value, other) {
        (Value::Text(text), Value::Text(other)) => text == other,
        (Value::Int(number), Value::Int(other)) => number == other,
        (Value::Long(number), Value::Long(other)) => number == other,
        (Value::Flag(flag), Value::Flag(other)) => flag == other,
        _ => false,
    }
}

/// Whether the list has a value that equals this one.
fn is_among(value: &Value, list: &[Value]) -> bool
    ensures { result ≡ is_among value.now list.now }
{
    list.iter().any(|other| is_same(value, other))
}

/// Copies of the values, with room for as many more as the others are.
fn copies_with_room(
    alloc: Global,
    list: &[Value],
    others: &[Value],
) -> Result<Vec<Value>, AllocError>
    ensures { IfOk result (λ copies. copies.items ≡ list.now) }
{
    let mut copies = Vec::with_capacity(alloc, list.len() + others.len())?;
    for value in list {
        copies.push(value.clone_in(alloc)?)?;
    }
    Ok(copies)
}

/// Copies of the values of both lists.
pub fn with_all(alloc: Global, list: &[Value], others: &[Value]) -> Result<List<Value>, AllocError>
    ensures { IfOk result (λ all. all ≡ list.now ++ others.now) }
{
    let mut all = copies_with_room(alloc, list, others)?;
    for value in others {
        all.push(value.clone_in(alloc)?)?;
    }
    Ok(List::from_vec(all))
}

/// Copies of the values of the list, and of those of the others that are not among them so far.
pub fn with_distinct(
    alloc: Global,
    list: &[Value],
    others: &[Value],
) -> Result<List<Value>, AllocError>
    ensures { IfOk result (λ all. all ≡ with_distinct list.now others.now) }
{
    let mut all = copies_with_room(alloc, list, others)?;
    for value in others {
        if !is_among(value, all.as_slice()) {
            all.push(value.clone_in(alloc)?)?;
        }
    }
    all.shrink_to_fit();
    Ok(List::from_vec(all))
}

/// Copies of the values of the list that equal none of these.
pub fn without(alloc: Global, list: &[Value], gone: &[Value]) -> Result<List<Value>, AllocError>
    ensures { IfOk result (λ kept. kept ≡ without list.now gone.now) }
{
    let mut kept = Vec::with_capacity(alloc, list.len())?;
    for value in list {
        if !is_among(value, gone) {
            kept.push(value.clone_in(alloc)?)?;
        }
    }
    kept.shrink_to_fit();
    Ok(List::from_vec(kept))
}
