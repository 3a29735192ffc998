//! `sc_spelling`: the bytes of documents, and which bytes are those of none.

use crate::support::assert_same;
use sc_record::{Field, List, Text, Value};
use sc_spelling::{Fields, FieldsFault, ValueRef, fields_len, push_fields, read_fields};
use std::alloc::{AllocError, Global};
use std::process::Abort;
use std::test::Fail;

// The fields of `{"id":"abc","t_s":"x"}`.
fn abc() -> &'static [u8] {
    b"\x01\0\0\0\x03\0t_s\x01\0\0\0\x01\0\0\0x"
}

// Bytes that spell no document: of a field without values, of two values where the field has one, of names that do not ascend, of a
// name that stands for no kind, of a truth that is 2, and of a text that is not UTF-8.
fn refused() -> [&'static [u8]; 6] {
    [
        b"\x01\0\0\0\x03\0t_s\0\0\0\0",
        b"\x01\0\0\0\x03\0t_s\x02\0\0\0\x01\0\0\0x\x01\0\0\0y",
        b"\x02\0\0\0\x03\0t_s\x01\0\0\0\x01\0\0\0x\x03\0a_s\x01\0\0\0\x01\0\0\0x",
        b"\x01\0\0\0\x02\0id\x01\0\0\0\x01\0\0\0x",
        b"\x01\0\0\0\x03\0t_b\x01\0\0\0\x02",
        b"\x01\0\0\0\x03\0t_s\x01\0\0\0\x01\0\0\0\xff",
    ]
}

// A field of this one value.
fn field_of(alloc: Global, name: &str, value: Value) -> Result<Field, AllocError> {
    let mut values = List::new(alloc);
    values.push(value)?;
    let name = Text::new(alloc, name)?;
    Ok(Field { name, values })
}

// The bytes of the fields are read as fields of these bytes, and no more is read.
fn assert_there_and_back(
    rt: &impl Abort,
    alloc: Global,
    fields: &[Field],
) -> Result<Vec<u8>, Fail> {
    let mut bytes = Vec::new(alloc);
    push_fields(&mut bytes, fields)?;
    assert_same(rt, fields_len(fields), Some(bytes.len() as u64));
    bytes.push(7)?;
    let (read, rest) = read_fields(alloc, bytes.as_slice())
        .ok()
        .ok_or("what was pushed is read")?;
    assert_eq!(rt; rest, b"\x07".as_slice());
    let mut again = Vec::new(alloc);
    push_fields(&mut again, read.as_slice())?;
    again.push(7)?;
    assert_eq!(rt; again.as_slice(), bytes.as_slice());
    Ok(again)
}

#[test]
fn a_document_has_its_bytes(rt: HostRuntime) -> Result<(), Fail> {
    let alloc = rt.alloc();
    let (mut fields, rest) = Fields::read(abc()).ok_or("the bytes are a document")?;
    assert_same(&rt, rest.len(), 0);
    let mut field = fields.next().ok_or("the document has a field")?;
    assert_eq!(rt; field.name, "t_s");
    assert!(rt; matches!(field.values.next(), Some(ValueRef::Text("x"))));
    assert!(rt; field.values.next().is_none());
    assert!(rt; fields.next().is_none());
    let text = Text::new(alloc, "x")?;
    let fields = vec![in alloc; field_of(alloc, "t_s", Value::Text(text))?]?;
    let mut bytes = Vec::new(alloc);
    push_fields(&mut bytes, fields.as_slice())?;
    assert_eq!(rt; bytes.as_slice(), abc());
    Ok(())
}

#[test]
fn values_of_each_width_go_there_and_back(rt: HostRuntime) -> Result<(), Fail> {
    let alloc = rt.alloc();
    for length in [0, 1, 13, 14, 15, 40, 41, 255, 256, 257, 65535, 65536, 65537] {
        let text = Text::from_string(alloc, "x".repeat(alloc, length)?)?;
        let fields = vec![in alloc;
            field_of(alloc, "a_i", Value::Int(i32::MIN))?,
            field_of(alloc, "b_l", Value::Long(i64::MIN))?,
            field_of(alloc, "c_b", Value::Flag(true))?,
            field_of(alloc, "d_s", Value::Text(text))?,
            field_of(alloc, "e_i", Value::Int(i32::MAX))?,
            field_of(alloc, "f_l", Value::Long(-1))?,
            field_of(alloc, "g_b", Value::Flag(false))?,
        ]?;
        assert_there_and_back(&rt, alloc, fields.as_slice())?;
    }
    assert_there_and_back(&rt, alloc, &[])?;
    Ok(())
}

#[test]
fn what_spells_no_document_is_refused(rt: HostRuntime) -> Result<(), Fail> {
    let alloc = rt.alloc();
    let whole = abc();
    for length in 0..whole.len() {
        let cut = &whole[..length.min(whole.len())];
        assert!(rt; matches!(read_fields(alloc, cut), Err(FieldsFault::NotFields)));
    }
    for bytes in refused() {
        assert!(rt; matches!(read_fields(alloc, bytes), Err(FieldsFault::NotFields)));
    }
    Ok(())
}
