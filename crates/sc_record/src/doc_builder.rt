//! A document's bytes, made of one field after another.

ghost use Rattle.std.specs.Prelude.{◌≡◌, ◌≤◌, ◌<◌, ◌^◌, ◌++◌, [], ◌∷◌, length, drop, Some, IfOk, OnOk, OnErr};
ghost use Rattle.std.specs.Int.{w32, to_le_bytes};
ghost use Rattle.std.specs.List.{AllByRecursion};
ghost use Rattle.sc_values.specs.Fields.{FitsField, FitsValue};
ghost use Rattle.sc_values.specs.declared.field.Field.{Field};
ghost use Rattle.sc_spelling.specs.Lent.{field_of, value_of};
ghost use Rattle.sc_spelling.specs.Reading.{document_at, read_of, rest_of};
ghost use Rattle.sc_spelling.specs.Spellings.{spelling_of_value, Extends};
ghost use Rattle.sc_record.specs.DocParts.{no_parts, spelled, spelling_before_values, with_field, with_value, Adds, FitsBefore};

use crate::document::Doc;
use sc_spelling::{FieldRef, ValueRef, push_name, push_text};
use sc_values::Value;
use std::alloc::{AllocError, Global};
use std::marker::Model;

/// How many bytes the number of the fields has.
const COUNT_LENGTH: usize = 4;

/// Makes a document of one field after another, which contracts see as the number of the fields so far and their spellings. After
/// an error some bytes of what was to be put at the end may stand there.
#[derive(Drop)]
pub struct DocBuilder {
    count: u32,
    // Room for the number of the fields, and their spellings.
    bytes: Vec<u8>,
}

impl Model for DocBuilder {
    ghost use Rattle.sc_record.specs.DocParts.{DocParts};

    ghost Value = { DocParts };

    ghost use Rattle.std.specs.Prelude.{◌≤◌, length, drop};

    ghost view = { λ a. record { count = a.count; bytes = drop 4 a.bytes.items } };

    ghost invariant = { λ a. 4 ≤ length a.bytes.items };
}

impl DocBuilder {
    /// No fields, and room for spellings of so many bytes.
    pub fn new(alloc: Global, room: usize) -> Result<DocBuilder, AllocError>
        ensures { IfOk result (λ builder. builder ≡ no_parts) }
    {
        let mut bytes = Vec::with_capacity(alloc, room.saturating_add(COUNT_LENGTH))?;
        bytes.extend_from_slice(&[0; COUNT_LENGTH])?;
        Ok(DocBuilder { count: 0, bytes })
    }

    /// How many fields there are.
    pub fn len(&self) -> u32
        ensures value { result ≡ self.now.count }
        ensures few { self.now.count < 2 ^ 32 }
    {
        self.count
    }

    /// Begins a field of this name, of which so many values are put at the end then. A name of 2^16 bytes or more, and 2^32 values or
    /// more, count as want of memory.
    pub fn begin(&mut self, name: &str, count: usize) -> Result<(), AllocError>
        ensures field { OnOk result (self.new ≡ with_field name.now count self.old) }
        ensures fits { OnOk result (FitsBefore name.now count) }
    {
        let Some(fields) = self.count.checked_add(1) else {
            return Err(AllocError);
        };
        push_before_values(&mut self.bytes, name, count)?;
        self.count = fields;
        Ok(())
    }

    /// Puts a value of the field that was begun last at the end.
    #[inline]
    pub fn push(&mut self, value: ValueRef<'_>) -> Result<(), AllocError>
        ensures value { OnOk result (self.new ≡ with_value (value_of value.entry) self.old) }
        ensures fits { OnOk result (FitsValue (value_of value.entry)) }
    {
        push_value(&mut self.bytes, value)
    }

    /// Puts a field that is lent at the end.
    #[tactic(auto, using(crate::proofs::DocPartsLemmas::spelled_field))]
    pub fn push_lent(&mut self, field: FieldRef<'_>) -> Result<(), AllocError>
        ensures { OnOk result (Adds (field_of field.entry ∷ []) self.old self.new) }
    {
        self.begin(field.name, field.values.len())?;
        for value in field.values {
            self.push(value)?;
        }
        Ok(())
    }

    /// Puts the field of this name and these values at the end.
    #[tactic(auto, using(crate::proofs::DocPartsLemmas::spelled_field))]
    pub fn push_field(&mut self, name: &str, values: &[Value]) -> Result<(), AllocError>
        ensures added { OnOk result (Adds (record { name = name.now; values = values.now } ∷ []) self.old self.new) }
        ensures fits { OnOk result (FitsField (record { name = name.now; values = values.now })) }
    {
        self.begin(name, values.len())?;
        for value in values {
            self.push(lent(value))?;
        }
        Ok(())
    }

    /// The document that the fields make. One whose spelling would be too long counts as want of memory.
    #[tactic(auto, using(crate::proofs::DocPartsLemmas::whole_counted))]
    pub fn finish(self) -> Result<Doc, AllocError>
        requires { rest_of (document_at (spelled self)) ≡ Some [] }
        ensures { IfOk result (λ doc. doc ≡ read_of (document_at (spelled self))) }
    {
        let DocBuilder { count, bytes } = self;
        if bytes.len() > u32::MAX as usize {
            return Err(AllocError);
        }
        Ok(Doc::of_bytes(with_count(bytes, count)))
    }
}

// The bytes, whose first four are those of the number.
fn with_count(bytes: Vec<u8>, count: u32) -> Vec<u8>
    requires { 4 ≤ length bytes.items }
    ensures { result.items ≡ to_le_bytes w32 count ++ drop 4 bytes.items }
{
    let mut counted = bytes;
    write_count(counted.as_mut_slice(), count);
    counted
}

// Writes the number over the first four bytes.
fn write_count(bytes: &mut [u8], count: u32)
    requires { 4 ≤ length bytes.now }
    ensures { bytes.new ≡ to_le_bytes w32 count ++ drop 4 bytes.old }
{
    bytes[..COUNT_LENGTH].copy_from_slice(&count.to_le_bytes());
}

// Puts at the end what stands before the values of a field.
fn push_before_values(out: &mut Vec<u8>, name: &str, count: usize) -> Result<(), AllocError>
    ensures bytes { OnOk result (out.new.items ≡ out.old.items ++ spelling_before_values name.now count) }
    ensures err { OnErr result (Extends out.old.items out.new.items) }
    ensures fits { OnOk result (FitsBefore name.now count) }
{
    if count > u32::MAX as usize {
        return Err(AllocError);
    }
    push_name(out, name)?;
    out.extend_from_slice(&(count as u32).to_le_bytes())
}

// Puts the spelling of the value at the end.
#[inline]
fn push_value(out: &mut Vec<u8>, value: ValueRef<'_>) -> Result<(), AllocError>
    ensures bytes { OnOk result (out.new.items ≡ out.old.items ++ spelling_of_value (value_of value.entry)) }
    ensures err { OnErr result (Extends out.old.items out.new.items) }
    ensures fits { OnOk result (FitsValue (value_of value.entry)) }
{
    match value {
        ValueRef::Text(text) => push_text(out, text),
        ValueRef::Int(number) => out.extend_from_slice(&number.to_le_bytes()),
        ValueRef::Long(number) => out.extend_from_slice(&number.to_le_bytes()),
        ValueRef::Flag(flag) => out.extend_from_slice(&[flag as u8]),
    }
}

// The value, lent.
#[inline]
fn lent(value: &Value) -> ValueRef<'_>
    ensures { value_of result ≡ value.now }
{
    match value {
        Value::Text(text) => ValueRef::Text(text.as_str()),
        Value::Int(number) => ValueRef::Int(*number),
        Value::Long(number) => ValueRef::Long(*number),
        Value::Flag(flag) => ValueRef::Flag(*flag),
    }
}
