//! `sc_reply`: `reply.get`, `reply.get JSON`, `reply.ids`, `reply.ids JSON`, `reply.select FOUND START JSON`, `reply.cause NAME`,
//! `reply.update VERSIONS ADDS | DELETES` and `reply.error VERSIONS CODE ADDS|MESSAGE`.
//!
//! Documents have the first version of the timestamp 1,000. Of an update the ids and their versions are given as `id=version`.

ghost use Rattle.std.specs.Prelude.{IfOk, IsSome};
ghost use Rattle.std.specs.Arc.{arc_value};

use crate::causes::cause_line;
use crate::documents::document_of;
use crate::records::{id_of, live_write};
use crate::words::word_and;
use sc_record::{Ack, Cell, List, Text};
use sc_reply::{error_body, get_body, ids_body, memory_body, ok_body, select_body, update_body};
use std::alloc::{AllocError, Global};
use std::sync::Arc;

/// The version of the first write at second 1 (1000 * 2^20).
const VERSION: i64 = 1_048_576_000;

pub fn answer(alloc: Global, question: &str, text: &str) -> Result<String, AllocError> {
    if question == "cause" {
        return cause_line(alloc, text);
    }
    let body = body_of(alloc, question, text)?;
    String::from_str(alloc, body.as_str())
}

fn body_of(alloc: Global, question: &str, text: &str) -> Result<Text, AllocError> {
    match question {
        "get" if text.is_empty() => get_body(alloc, None),
        "get" => get(alloc, text),
        "ids" => ids(alloc, text),
        "select" => select(alloc, text),
        "update" => update(alloc, text),
        "error" => error(alloc, text),
        "ok" => Text::new(alloc, ok_body()),
        _ => Text::new(alloc, memory_body()),
    }
}

fn get(alloc: Global, body: &str) -> Result<Text, AllocError> {
    let cell = cell(alloc, body)?;
    get_body(alloc, Some(&cell))
}

/// The first write of a document, whose id is `abc`.
fn cell(alloc: Global, body: &str) -> Result<Cell, AllocError>
    ensures { IfOk result (λ cell. IsSome (arc_value cell).doc) }
{
    let doc = document_of(alloc, body)?;
    let write = live_write(alloc, "abc", VERSION, &doc)?;
    Ok(Arc::new(alloc, write)?)
}

fn ids(alloc: Global, body: &str) -> Result<Text, AllocError> {
    let mut docs = List::new(alloc);
    if body.is_empty() {
        return ids_body(alloc, &docs);
    }
    docs.push(cell(alloc, body)?)?;
    ids_body(alloc, &docs)
}

fn select(alloc: Global, text: &str) -> Result<Text, AllocError> {
    let (found, rest) = word_and(text);
    let (start, body) = word_and(rest);
    let mut docs = List::new(alloc);
    docs.push(cell(alloc, body)?)?;
    let found = found.parse::<u64>().unwrap_or(0);
    let start = start.parse::<u32>().unwrap_or(0);
    select_body(alloc, found, start, &docs)
}

/// The accepted orders of a text such as `a=1 b=2`.
fn acks(alloc: Global, text: &str) -> Result<List<Ack>, AllocError> {
    let mut acks = List::new(alloc);
    for part in text.split(' ') {
        if !part.is_empty() {
            acks.push(ack(alloc, part)?)?;
        }
    }
    Ok(acks)
}

/// The accepted order of a text such as `a=1`.
fn ack(alloc: Global, text: &str) -> Result<Ack, AllocError> {
    let (id, version) = text.split_once('=').unwrap_or((text, ""));
    Ok(Ack {
        id: id_of(alloc, id)?,
        version: version.parse().unwrap_or(0),
    })
}

fn update(alloc: Global, text: &str) -> Result<Text, AllocError> {
    let (versions, rest) = word_and(text);
    let (adds, deletes) = rest.split_once('|').unwrap_or((rest, ""));
    let (adds, deletes) = (acks(alloc, adds)?, acks(alloc, deletes)?);
    update_body(alloc, &adds, &deletes, versions == "true")
}

fn error(alloc: Global, text: &str) -> Result<Text, AllocError> {
    let (versions, rest) = word_and(text);
    let (code, rest) = word_and(rest);
    let (adds, message) = rest.split_once('|').unwrap_or((rest, ""));
    let code = code.parse::<u16>().unwrap_or(0);
    let adds = acks(alloc, adds)?;
    error_body(
        alloc,
        code,
        message,
        &adds,
        &List::new(alloc),
        versions == "true",
    )
}
