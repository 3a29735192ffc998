//! The orders of commands.

ghost use Rattle.std.specs.Prelude.{◌≡◌, ◌∷◌, ◌++◌, [], codes, map, Ok, IfOk, IfErr};
ghost use Rattle.serde_json.specs.View.{view};
ghost use Rattle.sc_schema.specs.Documents.{content_of, found_map, IsDocumentFault};
ghost use Rattle.sc_schema.specs.declared.raw.RawFlat.TheVariants.{One};
ghost use Rattle.sc_schema.specs.declared.raw.RawValue.TheVariants.{Plain};
ghost use Rattle.sc_json.specs.RawDocs.{raw_one as one_of};
ghost use Rattle.sc_commands.specs.Commands.{order_members};
ghost use Rattle.sc_commands.specs.Listed.{added_docs, command_of, listed};
ghost use Rattle.sc_commands.specs.Updates as updates;
ghost use Rattle.sc_commands.specs.declared.forms.Action.TheVariants as actions;

use crate::forms::{Action, Commands};
use sc_json::{RawFault, raw_doc, raw_one};
use sc_record::{Change, List, Order, Text};
use sc_schema::{DocFault, RawDoc, RawField, RawFlat, RawValue, check_doc};
use serde_json::Value;
use std::alloc::{AllocError, Global};

/// The orders of all commands, or the first fault of the first that has one. Each value is let go once its order is made.
pub(crate) fn orders_of(alloc: Global, commands: Commands) -> Result<List<Order>, DocFault>
    ensures ok { IfOk result (λ orders. updates.orders_of
        (listed actions.Add commands.adds.items ++ listed actions.Delete commands.deletes.items)
        ≡ Ok (map content_of orders)) }
    ensures fault { IfErr result (IsDocumentFault (updates.orders_of
        (listed actions.Add commands.adds.items ++ listed actions.Delete commands.deletes.items))) }
{
    let Commands { adds, deletes, .. } = commands;
    let none = List::from_vec(Vec::with_capacity(alloc, adds.len() + deletes.len())?);
    let orders = with_orders(alloc, none, adds, Action::Add)?;
    with_orders(alloc, orders, deletes, Action::Delete)
}

/// The orders to add these documents, or the first fault of the first that has one. Each is let go once its order is made.
pub(crate) fn orders_of_docs(alloc: Global, docs: List<RawDoc>) -> Result<List<Order>, DocFault>
    ensures ok { IfOk result (λ orders. updates.orders_of (added_docs docs) ≡ Ok (map content_of orders)) }
    ensures fault { IfErr result (IsDocumentFault (updates.orders_of (added_docs docs))) }
{
    let none = List::from_vec(Vec::with_capacity(alloc, docs.len())?);
    with_docs(alloc, none, docs.into_vec())
}

/// The orders with those to add the documents after them.
fn with_docs(
    alloc: Global,
    mut orders: List<Order>,
    docs: Vec<RawDoc>,
) -> Result<List<Order>, DocFault>
    ensures ok { IfOk result
        (λ all. found_map (λ more. map content_of orders ++ more) (updates.orders_of (added_docs docs.items))
        ≡ Ok (map content_of all)) }
    ensures fault { IfErr result (IsDocumentFault (updates.orders_of (added_docs docs.items))) }
{
    for document in docs {
        let checked = check_doc(alloc, &document);
        drop(document);
        orders.push(checked?)?;
    }
    Ok(orders)
}

/// The orders with those of the values after them.
fn with_orders(
    alloc: Global,
    mut orders: List<Order>,
    values: Vec<Value>,
    action: Action,
) -> Result<List<Order>, DocFault>
    ensures ok { IfOk result
        (λ all. found_map (λ more. map content_of orders ++ more) (updates.orders_of (listed action values.items))
        ≡ Ok (map content_of all)) }
    ensures fault { IfErr result (IsDocumentFault (updates.orders_of (listed action values.items))) }
{
    for value in values {
        let made = order_of(alloc, &value, action);
        drop(value);
        orders.push(made?)?;
    }
    Ok(orders)
}

/// The order of one value.
fn order_of(alloc: Global, value: &Value, action: Action) -> Result<Order, DocFault>
    ensures ok { IfOk result (λ order.
        updates.order_of (command_of action (view value.now)) ≡ Ok (content_of order)) }
    ensures fault { IfErr result
        (IsDocumentFault (updates.order_of (command_of action (view value.now)))) }
{
    let document = document_of(alloc, value)?;
    let checked = check_doc(alloc, &document);
    drop(document);
    let order = checked?;
    match action {
        Action::Add => Ok(order),
        Action::Delete => Ok(deletion(order)),
    }
}

/// The deletion of the document that an order names, under its condition.
fn deletion(order: Order) -> Order
    ensures { content_of result ≡ updates.as_deletion (content_of order) }
{
    let Order { id, condition, .. } = order;
    Order {
        id,
        condition,
        change: Change::Delete,
    }
}

/// The document of an object, or that of the id which a value is.
fn document_of(alloc: Global, value: &Value) -> Result<RawDoc, AllocError>
    ensures { IfOk result (λ document. document.fields ≡ order_members (view value.now)) }
{
    if !value.is_object() {
        return id_alone(alloc, value);
    }
    match raw_doc(alloc, value) {
        Ok(document) => Ok(document),
        Err(RawFault::NotObject) => unreachable!(),
        Err(RawFault::Memory) => Err(AllocError),
    }
}

/// A document of an id and no field.
fn id_alone(alloc: Global, value: &Value) -> Result<RawDoc, AllocError>
    ensures { IfOk result (λ document. document.fields
        ≡ record { name = codes "id"; value = Plain (One (one_of (view value.now))) } ∷ []) }
{
    let name = Text::new(alloc, "id")?;
    let one = raw_one(alloc, value)?;
    let mut fields = List::new(alloc);
    fields.push(RawField {
        name,
        value: RawValue::Plain(RawFlat::One(one)),
    })?;
    Ok(RawDoc { fields })
}
