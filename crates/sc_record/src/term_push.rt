ghost use Rattle.std.specs.Prelude.{◌≡◌, ◌++◌, [], ◌∷◌, drop, Some, true, IfSome, OnOk, OnErr};
ghost use Rattle.sc_spelling.specs.Reading.{cut_text};
ghost use Rattle.std.specs.Int.{w16, w32, to_le_bytes};
ghost use Rattle.std.specs.Option.{option_map};
ghost use Rattle.sc_spelling.specs.Spellings.{Extends};
ghost use Rattle.sc_record.specs.TermRuns.{AddsKey, AddsName, AddsTerm, StandsAt};

use crate::term_run::{LONG_KEY, NAME, PLACED_KEY, PLACED_NAME, from_place};
use sc_spelling::{push_name, push_text, u16_at, u32_at};
use std::alloc::AllocError;

/// How many bytes a place has: a text that is no longer is not kept as its place.
const PLACE_LENGTH: usize = 4;

/// A text, and where it may stand in a document, with its length before it.
#[derive(Clone, Copy)]
pub(crate) struct Placed<'a> {
    pub(crate) text: &'a str,
    pub(crate) place: usize,
}

// Puts a term at the end: the name of its field, where it has not begun, and the key. After an error nothing has changed.
#[inline(always)]
pub(crate) fn push_term(
    out: &mut Vec<u8>,
    doc: &[u8],
    name: Option<Placed<'_>>,
    key: Placed<'_>,
) -> Result<(), AllocError>
    ensures ok { OnOk result (AddsTerm doc.now (option_map (λ name. name.text.now) name.entry) key.entry.text.now out.old.items out.new.items) }
    ensures err { OnErr result (out.new.items ≡ out.old.items) }
{
    let start = out.len();
    let pushed = push_parts(out, doc, name, key);
    if pushed.is_err() {
        out.truncate(start);
    }
    pushed
}

// The same, but after an error some of the bytes may stand at the end.
#[inline(always)]
fn push_parts(
    out: &mut Vec<u8>,
    doc: &[u8],
    name: Option<Placed<'_>>,
    key: Placed<'_>,
) -> Result<(), AllocError>
    ensures ok { OnOk result (AddsTerm doc.now (option_map (λ name. name.text.now) name.entry) key.entry.text.now out.old.items out.new.items) }
    ensures err { OnErr result (Extends out.old.items out.new.items) }
{
    match name {
        Some(name) => {
            push_field_name(out, doc, name)?;
            push_key(out, doc, key)
        }
        None => push_key(out, doc, key),
    }
}

// Puts the name of a field at the end, with its mark.
fn push_field_name(out: &mut Vec<u8>, doc: &[u8], name: Placed<'_>) -> Result<(), AllocError>
    ensures ok { OnOk result (AddsName doc.now name.entry.text.now out.old.items out.new.items) }
    ensures err { OnErr result (Extends out.old.items out.new.items) }
{
    match place_of_name(doc, name) {
        Some(place) => push_place(out, PLACED_NAME, place),
        None => {
            out.push(NAME)?;
            push_name(out, name.text)
        }
    }
}

// Puts a key at the end, with its mark.
#[inline(always)]
fn push_key(out: &mut Vec<u8>, doc: &[u8], key: Placed<'_>) -> Result<(), AllocError>
    ensures ok { OnOk result (AddsKey doc.now key.entry.text.now out.old.items out.new.items) }
    ensures err { OnErr result (Extends out.old.items out.new.items) }
{
    match place_of_key(doc, key) {
        Some(place) => push_place(out, PLACED_KEY, place),
        None => push_whole_key(out, doc, key.text),
    }
}

// Puts a key at the end as it is.
#[inline(always)]
fn push_whole_key(out: &mut Vec<u8>, doc: &[u8], key: &str) -> Result<(), AllocError>
    ensures ok { OnOk result (AddsKey doc.now key.now out.old.items out.new.items) }
    ensures err { OnErr result (Extends out.old.items out.new.items) }
{
    if key.len() < LONG_KEY as usize {
        out.push(key.len() as u8)?;
        return out.extend_from_slice(key.as_bytes());
    }
    out.push(LONG_KEY)?;
    push_text(out, key)
}

// Puts a mark and a place at the end.
fn push_place(out: &mut Vec<u8>, mark: u8, place: u32) -> Result<(), AllocError>
    ensures ok { OnOk result (out.new.items ≡ out.old.items ++ mark ∷ to_le_bytes w32 place) }
    ensures err { OnErr result (Extends out.old.items out.new.items) }
{
    out.push(mark)?;
    out.extend_from_slice(&place.to_le_bytes())
}

// Where the name stands in the document, if it does so where it may.
fn place_of_name(doc: &[u8], name: Placed<'_>) -> Option<u32>
    ensures { IfSome result (StandsAt w16 doc.now name.entry.text.now) }
{
    let place = place_of(name)?;
    let (length, rest) = u16_at(from_place(doc, place))?;
    if begins_with(rest, length as usize, name.text) {
        Some(place)
    } else {
        None
    }
}

// Where the key stands in the document, if it does so where it may.
fn place_of_key(doc: &[u8], key: Placed<'_>) -> Option<u32>
    ensures { IfSome result (StandsAt w32 doc.now key.entry.text.now) }
{
    let place = place_of(key)?;
    let (length, rest) = u32_at(from_place(doc, place))?;
    if begins_with(rest, length as usize, key.text) {
        Some(place)
    } else {
        None
    }
}

// Whether the bytes begin with the text, and its length is this.
fn begins_with(bytes: &[u8], length: usize, text: &str) -> bool
    ensures { result ≡ true → cut_text length bytes.now ≡ Some (text.now, drop length bytes.now) }
{
    if length != text.len() || bytes.len() < length {
        return false;
    }
    let (front, _) = bytes.split_at(length);
    front == text.as_bytes()
}

// The place in four bytes, where the text is longer.
fn place_of(placed: Placed<'_>) -> Option<u32> {
    if placed.text.len() <= PLACE_LENGTH {
        return None;
    }
    u32::try_from(placed.place).ok()
}
