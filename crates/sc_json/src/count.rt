//! How many documents a body has that is an array of flat objects. Each is let go once it is counted.

ghost use Rattle.std.specs.Prelude.{◌≡◌, length, [], Some, IfOk, IfSome, option_map, option_and_then};
ghost use Rattle.json.specs.Lex.{tokens};
ghost use Rattle.sc_json.specs.Bodies.{json_of};
ghost use Rattle.sc_json.specs.Flat as flat;

use crate::flat::next_doc;
use crate::flat_value::Unread;
use json::{Reader, Scratch, Token};
use std::alloc::{AllocError, Global};

/// How many documents a body has that is an array of flat objects, each of which has at most 64 keys, each once. `None` says
/// nothing of a body.
pub fn count_docs(alloc: Global, body: &[u8]) -> Result<Option<usize>, AllocError>
    ensures { IfOk result (λ found. IfSome found
        (λ count. option_map length (option_and_then flat.docs_of (json_of body.now)) ≡ Some count)) }
{
    let Ok(text) = simdutf8::compat::from_utf8(body) else {
        return Ok(None);
    };
    let mut scratch = Scratch::new(alloc);
    match all_counted(alloc, text, &mut scratch) {
        Ok(count) => Ok(Some(count)),
        Err(Unread::Other) => Ok(None),
        Err(Unread::Memory) => Err(AllocError),
    }
}

/// How many documents a text has.
fn all_counted(alloc: Global, text: &str, scratch: &mut Scratch) -> Result<usize, Unread>
    ensures { IfOk result
        (λ count. flat.HasCount count [] (flat.next_by flat.docs_of flat.body_depth (tokens text.now))) }
{
    let mut reader = Reader::new(text, scratch)?;
    let count = next_counted(alloc, &mut reader)?;
    if reader.next().is_some() {
        return Err(Unread::Other);
    }
    Ok(count)
}

/// How many documents an array has.
fn next_counted(alloc: Global, reader: &mut Reader<'_>) -> Result<usize, Unread>
    ensures { IfOk result
        (λ count. flat.HasCount count reader.new (flat.next_by flat.docs_of flat.body_depth reader.old)) }
{
    let Some(Token::BeginArray) = reader.next() else {
        return Err(Unread::Other);
    };
    rest_counted(alloc, reader)
}

/// How many documents an array has that has begun.
fn rest_counted(alloc: Global, reader: &mut Reader<'_>) -> Result<usize, Unread>
    ensures { IfOk result
        (λ count. flat.HasCount count reader.new (flat.items_by flat.docs_in flat.doc_depth reader.old)) }
{
    let mut count: usize = 0;
    'docs: while !reader.take_end_array() {
        let doc = next_doc(alloc, reader)?;
        drop(doc);
        let Some(more) = count.checked_add(1) else {
            return Err(Unread::Other);
        };
        count = more;
    }
    Ok(count)
}
