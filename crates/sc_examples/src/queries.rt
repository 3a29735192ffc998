//! `sc_query`: `query.parse TEXT` and `query.and TEXT & TEXT`. A query is shown as `*`, `field=value@place`, `!q`,
//! `(p & q)` and `(p | q)`.

use crate::line::Line;
use sc_query::{Query, QueryFault, and, parse};
use std::alloc::{AllocError, Global};

pub fn answer(alloc: Global, question: &str, text: &str) -> Result<String, AllocError> {
    match question {
        "parse" => parsed(alloc, text),
        _ => both(alloc, text),
    }
}

fn parsed(alloc: Global, text: &str) -> Result<String, AllocError> {
    match parse(alloc, text) {
        Ok(query) => shown(alloc, &query),
        Err(QueryFault::At { at }) => format!(in alloc; "fault {at}"),
        Err(QueryFault::Memory) => Err(AllocError),
    }
}

fn both(alloc: Global, text: &str) -> Result<String, AllocError> {
    let (left, right) = text.split_once(" & ").unwrap_or((text, ""));
    let query = and(alloc, read(alloc, left)?, read(alloc, right)?)?;
    shown(alloc, &query)
}

/// The query that the text is.
pub fn read(alloc: Global, text: &str) -> Result<Query, AllocError> {
    match parse(alloc, text) {
        Ok(query) => Ok(query),
        Err(_) => Err(AllocError),
    }
}

fn shown(alloc: Global, query: &Query) -> Result<String, AllocError> {
    let mut line = Line::new(alloc);
    put_query(&mut line, query);
    line.end()
}

/// Puts a query at the end.
fn put_query(line: &mut Line, query: &Query) {
    match query {
        Query::All => line.push("*"),
        Query::Leaf { field, value, at } => put_leaf(line, field.as_str(), value.as_str(), *at),
        Query::Not(operand) => {
            line.push("!");
            put_query(line, operand);
        }
        Query::And(left, right) => {
            line.push("(");
            put_query(line, left);
            line.push(" & ");
            put_query(line, right);
            line.push(")");
        }
        Query::Or(left, right) => {
            line.push("(");
            put_query(line, left);
            line.push(" | ");
            put_query(line, right);
            line.push(")");
        }
    }
}

/// A leaf: its field, its value and its place.
fn put_leaf(line: &mut Line, field: &str, value: &str, at: u32) {
    line.push(field);
    line.put("=", &value);
    line.put("@", &at);
}
