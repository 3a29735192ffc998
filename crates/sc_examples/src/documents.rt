//! `sc_json`, `sc_schema` and `sc_partial`: what a document or a change in JSON is read as, and what it makes of another.
//!
//! `document.read JSON`, `document.bytes HEX`, `document.raw JSON`, `document.order JSON`, `document.field NAME JSON`, `document.resolve JSON`
//! and `document.resolve JSON + JSON`, where the first is the document that stands.

use crate::fields::{order_line, put_fields, put_values};
use crate::hashes::bytes_of;
use crate::line::Line;
use crate::terms;
use crate::words::word_and;
use sc_json::{print, raw_doc, read};
use sc_partial::resolve;
use sc_record::{Change, Doc, Order};
use sc_schema::{RawDoc, RawField, check_doc};
use sc_spelling::Values;
use serde_json::Value;
use std::alloc::{AllocError, Global};

pub fn answer(alloc: Global, question: &str, text: &str) -> Result<String, AllocError> {
    match question {
        "read" => read_back(alloc, text),
        "bytes" => read_bytes(alloc, text),
        "raw" => raw(alloc, text),
        "order" => order(alloc, text),
        "field" => field(alloc, text),
        "resolve" => resolved(alloc, text),
        _ => terms::answer(alloc, question, text),
    }
}

/// The value of a JSON text.
fn value_of(alloc: Global, body: &str) -> Result<Value, AllocError> {
    match read(alloc, body.as_bytes()) {
        Ok(value) => Ok(value),
        Err(_) => Err(AllocError),
    }
}

/// The document as it was given.
fn raw_of(alloc: Global, body: &str) -> Result<RawDoc, AllocError> {
    match raw_doc(alloc, &value_of(alloc, body)?) {
        Ok(raw) => Ok(raw),
        Err(_) => Err(AllocError),
    }
}

/// The order that a body asks for.
pub fn order_of(alloc: Global, body: &str) -> Result<Order, AllocError> {
    match check_doc(alloc, &raw_of(alloc, body)?) {
        Ok(order) => Ok(order),
        Err(_) => Err(AllocError),
    }
}

/// The document that a body is.
pub fn document_of(alloc: Global, body: &str) -> Result<Doc, AllocError> {
    let Order { change, .. } = order_of(alloc, body)?;
    match change {
        Change::Whole(doc) => Ok(doc),
        _ => Err(AllocError),
    }
}

fn read_back(alloc: Global, body: &str) -> Result<String, AllocError> {
    match read(alloc, body.as_bytes()) {
        Ok(value) => String::from_str(alloc, print(alloc, &value)?.as_str()),
        Err(fault) => fault.to_string(alloc),
    }
}

/// Whether bytes, in hexadecimal digits, are a JSON text.
fn read_bytes(alloc: Global, digits: &str) -> Result<String, AllocError> {
    match read(alloc, bytes_of(alloc, digits)?.as_slice()) {
        Ok(_) => String::from_str(alloc, "JSON"),
        Err(fault) => fault.to_string(alloc),
    }
}

fn raw(alloc: Global, body: &str) -> Result<String, AllocError> {
    let value = value_of(alloc, body)?;
    match raw_doc(alloc, &value) {
        Ok(raw) => raw_line(alloc, &raw),
        Err(_) => String::from_str(alloc, "no object"),
    }
}

fn raw_line(alloc: Global, raw: &RawDoc) -> Result<String, AllocError> {
    let mut line = Line::new(alloc);
    for field in raw.fields.as_slice() {
        put_raw(&mut line, field);
    }
    line.end()
}

fn put_raw(line: &mut Line, field: &RawField) {
    line.push(field.name.as_str());
    line.debug(" ", &field.value);
    line.push(";");
}

fn order(alloc: Global, body: &str) -> Result<String, AllocError> {
    match check_doc(alloc, &raw_of(alloc, body)?) {
        Ok(order) => order_line(alloc, &order),
        Err(fault) => fault.to_string(alloc),
    }
}

fn field(alloc: Global, text: &str) -> Result<String, AllocError> {
    let (name, body) = word_and(text);
    let doc = document_of(alloc, body)?;
    match doc.get(name) {
        Some(values) => values_line(alloc, values),
        None => String::from_str(alloc, "none"),
    }
}

fn values_line(alloc: Global, values: Values<'_>) -> Result<String, AllocError> {
    let mut line = Line::new(alloc);
    put_values(&mut line, values);
    line.end()
}

fn resolved(alloc: Global, text: &str) -> Result<String, AllocError> {
    match text.split_once(" + ") {
        Some((old, changes)) => {
            let doc = document_of(alloc, old)?;
            changed(alloc, Some(&doc), changes)
        }
        None => changed(alloc, None, text),
    }
}

/// What the changes of a body make of the document.
fn changed(alloc: Global, old: Option<&Doc>, body: &str) -> Result<String, AllocError> {
    let order = order_of(alloc, body)?;
    changed_by(alloc, old, &order)
}

fn changed_by(alloc: Global, old: Option<&Doc>, order: &Order) -> Result<String, AllocError> {
    let Change::Parts(changes) = &order.change else {
        return Err(AllocError);
    };
    match resolve(alloc, old, changes) {
        Ok(doc) => doc_line(alloc, &doc),
        Err(fault) => fault.to_string(alloc),
    }
}

fn doc_line(alloc: Global, doc: &Doc) -> Result<String, AllocError> {
    let mut line = Line::new(alloc);
    put_fields(&mut line, doc.fields());
    line.end()
}
