//! `sc_record`: `record.kind NAME`, `record.id TEXT`, `record.version MOMENT CLOCK`, `record.shown VERSION`,
//! `record.text TEXT`, `record.size`, `record.least TEXT TEXT` and `record.least-id TEXT TEXT`.

ghost use Rattle.std.specs.Prelude.{pos, ◌<ℤ◌, IfOk, IsSome};

use crate::line::joined;
use crate::words::word_and;
use sc_record::{CloneIn, Doc, Id, TermsBuilder, Text, Write, found, kind_of, next_version};
use std::alloc::{AllocError, Global};
use std::sync::Arc;

pub fn answer(alloc: Global, question: &str, text: &str) -> Result<String, AllocError> {
    let (first, rest) = word_and(text);
    match question {
        "kind" => kind(alloc, text),
        "id" => id(alloc, text),
        "version" => version(alloc, first, rest),
        "shown" => shown(alloc, text),
        "text" => kept(alloc, text),
        "size" => size_of::<Text>().to_string(alloc),
        "least" => least_text(alloc, first, rest),
        _ => least_id(alloc, first, rest),
    }
}

/// The kind of a field's values, and whether it may have several.
fn kind(alloc: Global, name: &str) -> Result<String, AllocError> {
    match kind_of(name) {
        Some((kind, many)) => format!(in alloc; "{kind:?} {many}"),
        None => String::from_str(alloc, "no field"),
    }
}

/// The id of the text.
pub fn id_of(alloc: Global, text: &str) -> Result<Id, AllocError> {
    match Id::new(alloc, text) {
        Ok(id) => Ok(id),
        Err(_) => Err(AllocError),
    }
}

/// How long the id of the text is.
fn id(alloc: Global, text: &str) -> Result<String, AllocError> {
    match Id::new(alloc, text) {
        Ok(id) => format!(in alloc; "{} bytes", id.as_str().len()),
        Err(fault) => fault.to_string(alloc),
    }
}

/// The version of a write at a timestamp, after a clock.
fn version(alloc: Global, moment: &str, clock: &str) -> Result<String, AllocError> {
    let moment = moment.parse::<u64>().unwrap_or(0);
    let clock = clock.parse::<i64>().unwrap_or(0);
    if clock < 0 || clock == i64::MAX {
        return Err(AllocError);
    }
    next_version(moment, clock).to_string(alloc)
}

/// A write of a document that no search finds.
pub fn live_write(alloc: Global, id: &str, version: i64, doc: &Doc) -> Result<Write, AllocError>
    requires { pos 0 <ℤ version }
    ensures { IfOk result (λ write. IsSome write.doc) }
{
    let id = id_of(alloc, id)?;
    let terms = TermsBuilder::new(alloc, &id, doc).finish();
    Write::new(alloc, id, 0, version, doc, &terms)
}

/// The versions that a client is shown of a document, of a deletion and of an id without either.
fn shown(alloc: Global, text: &str) -> Result<String, AllocError> {
    let version = text.parse::<i64>().unwrap_or(0);
    if version <= 0 {
        return Err(AllocError);
    }
    let live = live_write(alloc, "a", version, &Doc::new(alloc, &[])?)?;
    let live = shown_of(alloc, live)?;
    let gone = shown_of(
        alloc,
        Write::deletion(alloc, id_of(alloc, "a")?, 0, version),
    )?;
    format!(in alloc; "{live} {gone} {}", found(None))
}

/// The version that a client is shown of a write.
fn shown_of(alloc: Global, write: Write) -> Result<i64, AllocError> {
    let cell = Arc::new(alloc, write)?;
    Ok(found(Some(&cell)))
}

/// A copy of the kept text, which itself is gone.
fn copy_of(alloc: Global, text: &str) -> Result<Text, AllocError> {
    let first = Text::new(alloc, text)?;
    let copy = first.clone_in(alloc)?;
    drop(first);
    Ok(copy)
}

/// Whether a copy of the kept text is the text still, and how long it is.
fn kept(alloc: Global, text: &str) -> Result<String, AllocError> {
    let copy = copy_of(alloc, text)?;
    joined(alloc, &(copy.as_str() == text), " ", &copy.as_str().len())
}

/// The lesser of two values, by the bound.
fn least<T: Ord + Drop>(a: T, b: T) -> T {
    if b < a { b } else { a }
}

fn least_text(alloc: Global, a: &str, b: &str) -> Result<String, AllocError> {
    let text = least(Text::new(alloc, a)?, Text::new(alloc, b)?);
    String::from_str(alloc, text.as_str())
}

fn least_id(alloc: Global, a: &str, b: &str) -> Result<String, AllocError> {
    let id = least(id_of(alloc, a)?, id_of(alloc, b)?);
    String::from_str(alloc, id.as_str())
}
