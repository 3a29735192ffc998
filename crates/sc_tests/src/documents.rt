//! `sc_record`: what documents and writes lend of the bytes that they are kept as.

ghost use Rattle.std.specs.Prelude.{◌≡◌, IfOk, IsSome};
ghost use Rattle.sc_values.specs.Fields.{IsDocument};
ghost use Rattle.sc_record.specs.TermRuns.{run_at};

use crate::support::{assert_same, assert_text};
use sc_record::{Doc, Field, Id, List, TermRef, TermRun, TermsBuilder, Text, Value, Write};
use sc_schema::terms_of;
use sc_spelling::{FieldRef, Fields, ValueRef, push_fields};
use std::alloc::{AllocError, Global};
use std::process::Abort;
use std::test::Fail;

/// How many bytes are left where a key stands that is no value of the document: more than there are.
const NOWHERE: usize = usize::MAX;

// The fields of `{"id":"abc","t_s":"x"}`.
fn abc() -> &'static [u8] {
    b"\x01\0\0\0\x03\0t_s\x01\0\0\0\x01\0\0\0x"
}

// A field of this name without values.
fn field_named(alloc: Global, name: &str) -> Result<Field, AllocError> {
    Ok(Field {
        name: Text::new(alloc, name)?,
        values: List::new(alloc),
    })
}

// A field of this one text.
fn field_of(alloc: Global, name: &str, text: &str) -> Result<Field, AllocError> {
    let mut field = field_named(alloc, name)?;
    field.values.push(Value::Text(Text::new(alloc, text)?))?;
    Ok(field)
}

// A field of ten numbers, from this one on.
fn field_of_ten(alloc: Global, name: &str, first: i32) -> Result<Field, AllocError> {
    let mut field = field_named(alloc, name)?;
    for at in 0..10 {
        field.values.push(Value::Int(first.wrapping_add(at)))?;
    }
    Ok(field)
}

// Ten fields of ten values each.
fn ten_fields(alloc: Global) -> Result<Vec<Field>, AllocError> {
    let mut fields = Vec::new(alloc);
    for name in "a_is b_is c_is d_is e_is f_is g_is h_is i_is j_is".split(' ') {
        fields.push(field_of_ten(alloc, name, 2_147_483_640)?)?;
    }
    Ok(fields)
}

// The document of these fields.
fn doc_of(alloc: Global, fields: &[Field]) -> Result<Doc, Fail> {
    let mut bytes = Vec::new(alloc);
    push_fields(&mut bytes, fields)?;
    let Some((fields, _)) = Fields::read(bytes.as_slice()) else {
        return Err("the fields are those of a document")?;
    };
    Ok(doc_of_lent(alloc, fields)?)
}

// The document of what is lent of another.
fn doc_of_lent(alloc: Global, fields: Fields<'_>) -> Result<Doc, AllocError>
    requires { IsDocument fields }
{
    let copies = fields.to_fields(alloc)?;
    Doc::new(alloc, copies.as_slice())
}

// The value that is lent is this one.
fn is_value(lent: Option<ValueRef<'_>>, value: &Value) -> bool {
    match (lent, value) {
        (Some(ValueRef::Text(lent)), Value::Text(text)) => lent == text.as_str(),
        (Some(ValueRef::Int(lent)), Value::Int(number)) => lent == *number,
        _ => false,
    }
}

// The field that is lent is this one.
fn assert_field(rt: &impl Abort, lent: FieldRef<'_>, field: &Field) {
    assert_text(rt, lent.name, field.name.as_str());
    assert_same(rt, lent.values.len(), field.values.len());
    let mut values = lent.values;
    for value in field.values.as_slice() {
        let next = values.next();
        assert!(rt; is_value(next, value));
    }
}

// The document of these fields lends them, in their order.
fn assert_lends(rt: &impl Abort, alloc: Global, fields: &[Field]) -> Result<(), Fail> {
    let doc = doc_of(alloc, fields)?;
    assert_same(rt, doc.fields().len(), fields.len());
    let mut lent = doc.fields();
    for field in fields {
        let next = lent.next().ok_or("a field is left")?;
        assert_field(rt, next, field);
    }
    Ok(())
}

// The term that is lent is this one.
fn assert_term(rt: &impl Abort, lent: Option<TermRef<'_>>, field: &str, key: &str) {
    let lent = lent.unwrap_or(TermRef { field: "", key: "" });
    assert_text(rt, lent.field, field);
    assert_text(rt, lent.key, key);
}

// The document's first field gives its text as two keys, of which the first stands in the document; then comes the id.
fn run_of(alloc: Global, id: &Id, doc: &Doc, text: &str) -> Result<TermRun, AllocError>
    ensures { IfOk result (λ run. IsSome (run_at id.now doc.now run)) }
{
    let Some(field) = doc.fields().next() else {
        return Err(AllocError);
    };
    let mut terms = TermsBuilder::new(alloc, id, doc);
    terms.begin(&field);
    terms.push(text, field.values.bytes_left())?;
    terms.push(text, NOWHERE)?;
    terms.push_id()?;
    Ok(terms.finish())
}

// A write of the text under this name.
fn write_of(alloc: Global, name: &str, text: &str) -> Result<Write, Fail> {
    let fields = vec![in alloc; field_of(alloc, name, text)?]?;
    let doc = doc_of(alloc, fields.as_slice())?;
    let id = Id::new(alloc, "abc")?;
    let terms = run_of(alloc, &id, &doc, text)?;
    Ok(Write::new(alloc, id, 0, 1, &doc, &terms)?)
}

// The write lends the text twice, and then the id.
fn assert_terms(rt: &impl Abort, alloc: Global, name: &str, text: &str) -> Result<(), Fail> {
    let write = write_of(alloc, name, text)?;
    let mut terms = write.terms();
    assert_term(rt, terms.next(), name, text);
    assert_term(rt, terms.next(), name, text);
    assert_term(rt, terms.next(), "id", "abc");
    assert!(rt; terms.next().is_none());
    Ok(())
}

#[test]
fn a_write_lends_the_bytes_of_its_document(rt: HostRuntime) -> Result<(), Fail> {
    let alloc = rt.alloc();
    let write = write_of(alloc, "t_s", "x")?;
    let bytes = write.doc_bytes().ok_or("the write has a document")?;
    assert_eq!(rt; bytes, abc());
    assert!(rt; write.is_live());
    let gone = Write::deletion(alloc, Id::new(alloc, "abc")?, 0, 1);
    assert!(rt; gone.doc_bytes().is_none() && gone.terms().next().is_none());
    Ok(())
}

#[test]
fn a_document_lends_the_fields_that_it_was_made_of(rt: HostRuntime) -> Result<(), Fail> {
    let alloc = rt.alloc();
    assert_lends(&rt, alloc, &[])?;
    let fields = ten_fields(alloc)?;
    assert_lends(&rt, alloc, fields.as_slice())?;
    Ok(())
}

// The first lengths are those at which a key's mark changes, and the last those at which a length takes another byte.
#[test]
fn texts_of_each_width_are_lent(rt: HostRuntime) -> Result<(), Fail> {
    let alloc = rt.alloc();
    for length in [0, 1, 249, 250, 251, 252, 253, 254, 255, 256, 65_535, 65_536] {
        let text = "x".repeat(alloc, length)?;
        let fields = vec![in alloc; field_of(alloc, "t_s", text.as_str())?]?;
        assert_lends(&rt, alloc, fields.as_slice())?;
        assert_terms(&rt, alloc, "t_s", text.as_str())?;
    }
    Ok(())
}

// A name has at most 256 bytes.
#[test]
fn names_of_each_width_are_lent(rt: HostRuntime) -> Result<(), Fail> {
    let alloc = rt.alloc();
    for length in [0, 1, 248, 249, 250, 251, 252, 253, 254] {
        let name = format!(in alloc; "{}_s", "n".repeat(alloc, length)?)?;
        assert_terms(&rt, alloc, name.as_str(), "x")?;
    }
    Ok(())
}

// A write of a text and some words.
fn write_of_words(alloc: Global) -> Result<Write, Fail> {
    let fields = vec![in alloc;
        field_of(alloc, "a_s", "X")?,
        field_of(alloc, "w_t", "Ab b AB")?,
    ]?;
    let doc = doc_of(alloc, fields.as_slice())?;
    let id = Id::new(alloc, "abc")?;
    let terms = terms_of(alloc, &id, &doc)?;
    Ok(Write::new(alloc, id, 0, 1, &doc, &terms)?)
}

#[test]
fn a_write_lends_the_terms_of_its_document(rt: HostRuntime) -> Result<(), Fail> {
    let write = write_of_words(rt.alloc())?;
    let mut terms = write.terms();
    assert_term(&rt, terms.next(), "a_s", "X");
    assert_term(&rt, terms.next(), "id", "abc");
    assert_term(&rt, terms.next(), "w_t", "ab");
    assert_term(&rt, terms.next(), "w_t", "b");
    assert!(rt; terms.next().is_none());
    Ok(())
}
