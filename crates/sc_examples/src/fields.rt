//! Fields, changes and orders as text: a text begins with `'`, and a number of 64 bits ends in `L`.

use crate::line::Line;
use sc_record::{Change, FieldChange, How, List, Order, Value};
use sc_spelling::{Fields, ValueRef, Values};
use std::alloc::{AllocError, Global};

fn put_value(line: &mut Line, value: &ValueRef<'_>) {
    match value {
        ValueRef::Text(text) => {
            line.push("'");
            line.push(text);
        }
        ValueRef::Int(number) => line.put("", number),
        ValueRef::Long(number) => {
            line.put("", number);
            line.push("L");
        }
        ValueRef::Flag(flag) => line.put("", flag),
    }
}

/// Puts the values at the end, with commas between them.
pub fn put_values(line: &mut Line, values: Values<'_>) {
    let mut before = "";
    for value in values {
        line.push(before);
        put_value(line, &value);
        before = ",";
    }
}

/// Puts the fields at the end, each after a space.
pub fn put_fields(line: &mut Line, fields: Fields<'_>) {
    for field in fields {
        line.push(" ");
        line.push(field.name);
        line.push("=");
        put_values(line, field.values);
    }
}

/// The value, lent.
fn lent(value: &Value) -> ValueRef<'_> {
    match value {
        Value::Text(text) => ValueRef::Text(text.as_str()),
        Value::Int(number) => ValueRef::Int(*number),
        Value::Long(number) => ValueRef::Long(*number),
        Value::Flag(flag) => ValueRef::Flag(*flag),
    }
}

/// Puts the mark and the values of a change at the end, with commas between these.
fn put_changed(line: &mut Line, mark: &str, values: &List<Value>) {
    line.push(mark);
    let mut before = "";
    for value in values.as_slice() {
        line.push(before);
        put_value(line, &lent(value));
        before = ",";
    }
}

fn put_how(line: &mut Line, how: &How) {
    match how {
        How::Set(values) => put_changed(line, "=set:", values),
        How::Add(values) => put_changed(line, "=add:", values),
        How::AddDistinct(values) => put_changed(line, "=add-distinct:", values),
        How::Remove(values) => put_changed(line, "=remove:", values),
        How::Inc(amount) => line.put("=inc:", amount),
    }
}

/// Puts the changes at the end, each after a space.
fn put_parts(line: &mut Line, parts: &[FieldChange]) {
    for part in parts {
        line.push(" ");
        line.push(part.name.as_str());
        put_how(line, &part.how);
    }
}

fn put_change(line: &mut Line, change: &Change) {
    match change {
        Change::Whole(doc) => put_fields(line, doc.fields()),
        Change::Parts(parts) => put_parts(line, parts.as_slice()),
        Change::Delete => line.push(" delete"),
    }
}

/// The order in a line: its id, its condition, and its change.
pub fn order_line(alloc: Global, order: &Order) -> Result<String, AllocError> {
    let mut line = Line::new(alloc);
    line.push(order.id.as_str());
    line.put(" ", &order.condition);
    put_change(&mut line, &order.change);
    line.end()
}
