//! `sc_commands`: `update.read BODY`, where no parameter is set. The orders are shown where they are fewer than 100. `sc_json`:
//! `update.count BODY`, how many flat documents an array has.

use crate::line::Line;
use sc_commands::{Batch, Flags, read_update};
use sc_json::count_docs;
use sc_record::{Change, Order};
use std::alloc::{AllocError, Global};

/// What a request without parameters sets.
const FLAGS: Flags = Flags {
    commit: false,
    versions: false,
    fail_on_conflict: true,
};

pub fn answer(alloc: Global, question: &str, body: &str) -> Result<String, AllocError> {
    match question {
        "read" => orders(alloc, body),
        _ => count(alloc, body),
    }
}

fn count(alloc: Global, body: &str) -> Result<String, AllocError> {
    match count_docs(alloc, body.as_bytes())? {
        Some(count) => count.to_string(alloc),
        None => String::from_str(alloc, "not counted"),
    }
}

fn orders(alloc: Global, body: &str) -> Result<String, AllocError> {
    match read_update(alloc, body.as_bytes(), &FLAGS) {
        Ok(batch) => batch_text(alloc, &batch),
        Err(fault) => fault.to_string(alloc),
    }
}

/// An order: what it does, its id and its condition.
fn put_order(line: &mut Line, order: &Order) {
    line.push(match &order.change {
        Change::Whole(_) => "add ",
        Change::Parts(_) => "change ",
        Change::Delete => "delete ",
    });
    line.push(order.id.as_str());
    line.put(" ", &order.condition);
    line.push(";");
}

/// The orders of a batch, and whether it commits.
fn batch_text(alloc: Global, batch: &Batch) -> Result<String, AllocError> {
    if batch.orders.len() >= 100 {
        return format!(in alloc; "{} orders", batch.orders.len());
    }
    let mut line = Line::new(alloc);
    for order in &batch.orders {
        put_order(&mut line, order);
    }
    if batch.flags.commit {
        line.push("commit");
    }
    line.end()
}
