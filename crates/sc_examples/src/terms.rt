//! The terms of `sc_schema`: `document.terms JSON`, `document.words TEXT` and `document.key KIND TEXT`.
//!
//! The words of a text are shown with bars between them, and after a slash its one word, where it has one.

use crate::documents::order_of;
use crate::line::{Line, joined};
use crate::words::word_and;
use sc_json::print;
use sc_record::{Change, CloneIn, Kind, Order, Terms, Text, Write};
use sc_schema::{fold_word, key_of, terms_of};
use serde_json::Value;
use std::alloc::{AllocError, Global};

pub fn answer(alloc: Global, question: &str, text: &str) -> Result<String, AllocError> {
    match question {
        "terms" => terms(alloc, text),
        "words" => words(alloc, text),
        _ => key(alloc, text),
    }
}

fn terms(alloc: Global, body: &str) -> Result<String, AllocError> {
    let order = order_of(alloc, body)?;
    terms_line(alloc, &order)
}

fn terms_line(alloc: Global, order: &Order) -> Result<String, AllocError> {
    let write = write_of_order(alloc, order)?;
    term_line(alloc, write.terms())
}

/// The write of the document that the order adds.
fn write_of_order(alloc: Global, order: &Order) -> Result<Write, AllocError> {
    let Change::Whole(doc) = &order.change else {
        return Err(AllocError);
    };
    let id = order.id.clone_in(alloc)?;
    let terms = terms_of(alloc, &id, doc)?;
    Write::new(alloc, id, 0, 1, doc, &terms)
}

fn term_line(alloc: Global, terms: Terms<'_>) -> Result<String, AllocError> {
    let mut line = Line::new(alloc);
    for term in terms {
        line.push(term.field);
        line.push(":");
        line.push(term.key);
        line.push("|");
    }
    line.end()
}

/// The text as JSON.
fn quoted(alloc: Global, text: &str) -> Result<Text, AllocError> {
    let value = Value::try_from_str(alloc, text)?;
    print(alloc, &value)
}

/// The order to add a document with this text.
fn order_with(alloc: Global, text: &str) -> Result<Order, AllocError> {
    let value = quoted(alloc, text)?;
    let body = format!(in alloc; r#"{{"id":"a","t_t":{}}}"#, value.as_str())?;
    order_of(alloc, body.as_str())
}

fn words(alloc: Global, text: &str) -> Result<String, AllocError> {
    let words = words_found(alloc, text)?;
    let word = one_word(alloc, text)?;
    joined(alloc, &words, "/", &word)
}

/// The words by which a document with this text is found, a bar behind each.
fn words_found(alloc: Global, text: &str) -> Result<String, AllocError> {
    let order = order_with(alloc, text)?;
    words_line(alloc, &order)
}

fn words_line(alloc: Global, order: &Order) -> Result<String, AllocError> {
    let write = write_of_order(alloc, order)?;
    word_line(alloc, write.terms())
}

fn word_line(alloc: Global, terms: Terms<'_>) -> Result<String, AllocError> {
    let mut line = Line::new(alloc);
    for term in terms {
        if term.field == "t_t" {
            line.push(term.key);
            line.push("|");
        }
    }
    line.end()
}

/// The one word of the text; nothing where it has another number of words.
fn one_word(alloc: Global, text: &str) -> Result<String, AllocError> {
    match fold_word(alloc, text)? {
        Some(word) => String::from_str(alloc, word.as_str()),
        None => Ok(String::new(alloc)),
    }
}

fn key(alloc: Global, text: &str) -> Result<String, AllocError> {
    let (kind, text) = word_and(text);
    let kind = match kind {
        "Str" => Kind::Str,
        "Words" => Kind::Words,
        "Int" => Kind::Int,
        "Long" => Kind::Long,
        _ => Kind::Flag,
    };
    match key_of(alloc, kind, text)? {
        Some(key) => String::from_str(alloc, key.as_str()),
        None => String::from_str(alloc, "none"),
    }
}
