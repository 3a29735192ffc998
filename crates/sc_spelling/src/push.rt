ghost use Rattle.std.specs.Prelude.{◌≡◌, ◌++◌, ◌<◌, ◌^◌, length, IsTrue, OnOk, OnErr, IfOk};
ghost use Rattle.std.specs.Int.{w16, w32, to_le_bytes};
ghost use Rattle.std.specs.List.{flat_map, AllByRecursion};
ghost use Rattle.std.specs.Str.{is_utf8};
ghost use Rattle.sc_values.specs.Fields.{FitsValue, FitsField, Fits};
ghost use Rattle.sc_spelling.specs.Spellings.{spelling_of_value, spelling_of_field, spelling, Extends};

use sc_values::{Field, Value};
use std::alloc::AllocError;

/// Puts the spelling of the fields at the end. Where a length or a number of them does not fit its bytes, that counts as want of
/// memory: no document of less than 2^32 bytes has one.
pub fn push_fields(out: &mut Vec<u8>, fields: &[Field]) -> Result<(), AllocError>
    ensures ok { OnOk result (Fits fields.now × (out.new.items ≡ out.old.items ++ spelling fields.now)) }
    ensures err { OnErr result (out.new.items ≡ out.old.items) }
{
    let start = out.len();
    let pushed = push_all(out, fields);
    if pushed.is_err() {
        out.truncate(start);
    }
    pushed
}

// The same, but after an error some of the bytes may stand at the end.
fn push_all(out: &mut Vec<u8>, fields: &[Field]) -> Result<(), AllocError>
    ensures ok { OnOk result (Fits fields.now × (out.new.items ≡ out.old.items ++ spelling fields.now)) }
    ensures err { OnErr result (Extends out.old.items out.new.items) }
{
    let count = narrowed(fields.len())?;
    out.extend_from_slice(&count.to_le_bytes())?;
    for field in fields {
        push_field(out, field)?;
    }
    Ok(())
}

// Puts the spelling of the field at the end.
fn push_field(out: &mut Vec<u8>, field: &Field) -> Result<(), AllocError>
    ensures fits { OnOk result (FitsField field.now) }
    ensures bytes { OnOk result (out.new.items ≡ out.old.items ++ spelling_of_field field.now) }
    ensures err { OnErr result (Extends out.old.items out.new.items) }
{
    push_name(out, field.name.as_str())?;
    push_values(out, field.values.as_slice())
}

/// Puts the name's length, in two bytes, and the name at the end. A name of 2^16 bytes or more counts as want of memory. After an
/// error some of the bytes may stand at the end.
pub fn push_name(out: &mut Vec<u8>, name: &str) -> Result<(), AllocError>
    ensures fits { OnOk result (length name.now < 2 ^ 16) }
    ensures text { OnOk result (IsTrue (is_utf8 name.now)) }
    ensures bytes { OnOk result (out.new.items ≡ out.old.items ++ (to_le_bytes w16 (length name.now) ++ name.now)) }
    ensures err { OnErr result (Extends out.old.items out.new.items) }
{
    if name.len() > u16::MAX as usize {
        return Err(AllocError);
    }
    out.extend_from_slice(&(name.len() as u16).to_le_bytes())?;
    out.extend_from_slice(name.as_bytes())
}

// Puts the number of the values and their spellings at the end.
fn push_values(out: &mut Vec<u8>, values: &[Value]) -> Result<(), AllocError>
    ensures count { OnOk result (length values.now < 2 ^ 32) }
    ensures fits { OnOk result (AllByRecursion FitsValue values.now) }
    ensures bytes { OnOk result (out.new.items ≡ out.old.items ++ (to_le_bytes w32 (length values.now) ++ flat_map spelling_of_value values.now)) }
    ensures err { OnErr result (Extends out.old.items out.new.items) }
{
    let count = narrowed(values.len())?;
    out.extend_from_slice(&count.to_le_bytes())?;
    for value in values {
        push_value(out, value)?;
    }
    Ok(())
}

// Puts the spelling of the value at the end.
fn push_value(out: &mut Vec<u8>, value: &Value) -> Result<(), AllocError>
    ensures fits { OnOk result (FitsValue value.now) }
    ensures bytes { OnOk result (out.new.items ≡ out.old.items ++ spelling_of_value value.now) }
    ensures err { OnErr result (Extends out.old.items out.new.items) }
{
    match value {
        Value::Text(text) => push_text(out, text.as_str()),
        Value::Int(number) => out.extend_from_slice(&number.to_le_bytes()),
        Value::Long(number) => out.extend_from_slice(&number.to_le_bytes()),
        Value::Flag(flag) => out.extend_from_slice(&[*flag as u8]),
    }
}

/// Puts the text's length, in four bytes, and the text at the end. A text of 2^32 bytes or more counts as want of memory. After an
/// error some of the bytes may stand at the end.
pub fn push_text(out: &mut Vec<u8>, text: &str) -> Result<(), AllocError>
    ensures fits { OnOk result (length text.now < 2 ^ 32) }
    ensures text { OnOk result (IsTrue (is_utf8 text.now)) }
    ensures bytes { OnOk result (out.new.items ≡ out.old.items ++ (to_le_bytes w32 (length text.now) ++ text.now)) }
    ensures err { OnErr result (Extends out.old.items out.new.items) }
{
    let length = narrowed(text.len())?;
    out.extend_from_slice(&length.to_le_bytes())?;
    out.extend_from_slice(text.as_bytes())
}

// The number in 32 bits.
fn narrowed(number: usize) -> Result<u32, AllocError>
    ensures { IfOk result (λ narrow. narrow ≡ number) }
{
    if number > u32::MAX as usize {
        return Err(AllocError);
    }
    Ok(number as u32)
}
