//! The documents of a body that is an array of flat objects, read straight from its text. An object is flat where none of its
//! members is an object, or has one in its list, and each number is a whole one of 64 signed bits.

ghost use Rattle.std.specs.Prelude.{◌≡◌, ℕ, ◌<◌, ◌≤◌, [], length, map, Some, IfOk, OnOk, IfSome, option_and_then};
ghost use Rattle.json.specs.Lex.{tokens};
ghost use Rattle.serde_json.specs.Data.{Members};
ghost use Rattle.sc_schema.specs.Raw.{AscendByName, raw_names};
ghost use Rattle.sc_json.specs.Bodies.{json_of};
ghost use Rattle.sc_json.specs.Flat as flat;
ghost use Rattle.sc_json.specs.RawDocs.{raw_value, raw_fields, raw_fields_of};

use crate::flat_value::{Unread, next_flat};
use json::{Reader, Scratch, Token};
use memchr::{memchr, memchr2};
use sc_record::{List, MAX_ORDERS, Text};
use sc_schema::{RawDoc, RawField, RawValue};
use std::alloc::{AllocError, Global};
use std::cmp::Ordering;

/// The most bytes of a body of which the brackets are looked at before it is read: in the time that the reader takes to begin, a
/// few hundred bytes are read.
const SHORT_BODY: usize = 1024;

/// For how many members a document takes room with its first.
const FEW_MEMBERS: usize = 8;

/// The most members of a document that is read here: to put each at its place takes time that grows with their square.
const MOST_MEMBERS: usize = 64;

/// The documents of a body that is an array of no more flat objects than an update has orders, each of which has at most 64 keys,
/// each once. `None` says nothing of a body: it comes at each of another form, and at a short one that looks nested.
pub fn flat_docs(alloc: Global, body: &[u8]) -> Result<Option<List<RawDoc>>, AllocError>
    ensures { IfOk result (λ found. IfSome found
        (λ docs. option_and_then flat.docs_of (json_of body.now) ≡ Some (map flat.doc_fields docs))) }
{
    if looks_nested(body) {
        return Ok(None);
    }
    let Ok(text) = simdutf8::compat::from_utf8(body) else {
        return Ok(None);
    };
    let mut scratch = Scratch::new(alloc);
    match all_docs(alloc, text, &mut scratch) {
        Ok(docs) => Ok(Some(docs)),
        Err(Unread::Other) => Ok(None),
        Err(Unread::Memory) => Err(AllocError),
    }
}

/// Whether a short body is an object, or the first of its objects has another in it, as an atomic update has. It is told by the
/// first brackets, those within texts among them, so that a body of flat objects may look so too.
fn looks_nested(body: &[u8]) -> bool {
    if body.len() > SHORT_BODY {
        return false;
    }
    let Some(begin) = memchr(b'{', body) else {
        return false;
    };
    begin == 0 || opens_again(&body[begin + 1..])
}

/// Whether an object opens before one closes.
fn opens_again(bytes: &[u8]) -> bool {
    match memchr2(b'{', b'}', bytes) {
        Some(at) => bytes[at] == b'{',
        None => false,
    }
}

/// The documents of a text.
fn all_docs(alloc: Global, text: &str, scratch: &mut Scratch) -> Result<List<RawDoc>, Unread>
    ensures { IfOk result (λ docs. flat.next_by flat.docs_of flat.body_depth (tokens text.now)
        ≡ Some (Some (map flat.doc_fields docs), [])) }
{
    let mut reader = Reader::new(text, scratch)?;
    let docs = next_docs(alloc, &mut reader)?;
    if reader.next().is_some() {
        return Err(Unread::Other);
    }
    Ok(docs)
}

/// The documents of an array.
fn next_docs(alloc: Global, reader: &mut Reader<'_>) -> Result<List<RawDoc>, Unread>
    ensures { IfOk result (λ docs. flat.next_by flat.docs_of flat.body_depth reader.old
        ≡ Some (Some (map flat.doc_fields docs), reader.new)) }
{
    let Some(Token::BeginArray) = reader.next() else {
        return Err(Unread::Other);
    };
    rest_of_docs(alloc, reader)
}

/// The documents of an array that has begun.
fn rest_of_docs(alloc: Global, reader: &mut Reader<'_>) -> Result<List<RawDoc>, Unread>
    ensures { IfOk result (λ docs. flat.items_by flat.docs_in flat.doc_depth reader.old
        ≡ Some (Some (map flat.doc_fields docs), reader.new)) }
{
    let mut docs = List::new(alloc);
    'docs: while !reader.take_end_array() {
        if docs.len() >= MAX_ORDERS {
            return Err(Unread::Other);
        }
        let doc = next_doc(alloc, reader)?;
        docs.push(doc)?;
    }
    Ok(docs)
}

/// The document of a flat object.
pub(crate) fn next_doc(alloc: Global, reader: &mut Reader<'_>) -> Result<RawDoc, Unread>
    ensures value { IfOk result (λ doc. flat.next_by raw_fields_of flat.doc_depth reader.old
        ≡ Some (Some doc.fields, reader.new)) }
    ensures shorter { OnOk result (length reader.new < length reader.old) }
{
    let Some(Token::BeginObject) = reader.next() else {
        return Err(Unread::Other);
    };
    rest_of_members(alloc, reader)
}

/// The document of a flat object that has begun.
fn rest_of_members(alloc: Global, reader: &mut Reader<'_>) -> Result<RawDoc, Unread>
    ensures value { IfOk result (λ doc. flat.fields_by flat.member_depth reader.old
        ≡ Some (doc.fields, reader.new)) }
    ensures shorter { OnOk result (length reader.new < length reader.old) }
{
    let Some(name) = reader.next_key()? else {
        return Ok(RawDoc {
            fields: List::new(alloc),
        });
    };
    let mut fields = Vec::with_capacity(alloc, FEW_MEMBERS)?;
    let field = next_field(alloc, reader, name)?;
    fields.push(field)?;
    with_members(alloc, reader, fields)
}

/// The document of a flat object whose first fields are these.
fn with_members(
    alloc: Global,
    reader: &mut Reader<'_>,
    mut fields: Vec<RawField>,
) -> Result<RawDoc, Unread>
    requires { AscendByName fields.items }
    ensures value { (first : Members) (n : ℕ) → raw_fields first ≡ fields.items → length reader.old ≤ n
        → IfOk result (λ doc. flat.fields_left flat.member_depth n first reader.old
        ≡ Some (doc.fields, reader.new)) }
    ensures shorter { OnOk result (length reader.new < length reader.old) }
{
    'members: while let Some(name) = reader.next_key()? {
        if fields.len() >= MOST_MEMBERS {
            return Err(Unread::Other);
        }
        let Some(at) = place_of(fields.as_slice(), name) else {
            return Err(Unread::Other);
        };
        let field = next_field(alloc, reader, name)?;
        fields.insert(at, field)?;
    }
    Ok(RawDoc {
        fields: List::from_vec(fields),
    })
}

/// The field of this name, whose value comes next.
fn next_field(alloc: Global, reader: &mut Reader<'_>, name: &str) -> Result<RawField, Unread>
    ensures value { IfOk result (λ field. flat.next_by raw_value flat.member_depth reader.old
        ≡ Some (field.value, reader.new)) }
    ensures named { IfOk result (λ field. field.name ≡ name.now) }
    ensures shorter { OnOk result (length reader.new < length reader.old) }
{
    let value = next_flat(alloc, reader)?;
    Ok(RawField {
        name: Text::new(alloc, name)?,
        value: RawValue::Plain(value),
    })
}

/// Where a field of this name comes among fields whose names ascend. `None` where one has the name.
fn place_of(fields: &[RawField], name: &str) -> Option<usize>
    requires { AscendByName fields.now }
    ensures within { IfSome result (λ at. at ≤ length fields.now) }
    ensures place { IfSome result (flat.IsNamePlace name.now (raw_names fields.now)) }
{
    let mut at = fields.len();
    while at > 0 {
        match fields[at - 1].name.as_str().cmp(name) {
            Ordering::Less => return Some(at),
            Ordering::Equal => return None,
            Ordering::Greater => at -= 1,
        }
    }
    Some(0)
}
