//! The forms of a body.

ghost use Rattle.std.specs.Prelude.{◌≡◌, ◌∷◌, ◌<◌, ◌^◌, ◌++◌, [], false, codes, Some, None, Ok, Err, IfOk, IfErr, IfSome, OnSome, OnOk, MatchOption, option_map};
ghost use Rattle.std.specs.Option.{option_map_or};
ghost use Rattle.serde_json.specs.Find.{get};
ghost use Rattle.serde_json.specs.View.{view, items_view};
ghost use Rattle.sc_commands.specs.Commands as commands;
ghost use Rattle.sc_commands.specs.Listed.{command_of, listed, IsFormFault, ComesWithin};
ghost use Rattle.sc_commands.specs.declared.forms.Action.TheVariants as actions;
ghost use Rattle.sc_commands.specs.declared.forms.FormFault.TheVariants as faults;

use crate::keys::{has_keys, is_id, take_member};
use serde_json::Value;
use std::alloc::Global;

/// What a command does with the document of a value.
#[derive(Clone, Copy)]
pub(crate) enum Action {
    Add,
    Delete,
}

/// The commands of a body, each of which has one of the forms.
#[derive(Drop)]
pub(crate) struct Commands {
    /// The objects of the documents to add.
    pub adds: Vec<Value>,
    /// The ids to delete, or one object that has an id and may have a version.
    pub deletes: Vec<Value>,
    pub commit: bool,
}

/// Why a body has no commands.
#[derive(Drop)]
pub(crate) enum FormFault {
    /// What comes after so many orders has none of the forms.
    Shape { at: usize },
    Memory,
}

/// What a body's value asks for.
pub(crate) fn commands_of(alloc: Global, value: Value) -> Result<Commands, FormFault>
    ensures ok { IfOk result (λ found. commands.reading (view value)
        ≡ Ok (listed actions.Add found.adds.items ++ listed actions.Delete found.deletes.items)) }
    ensures commit { IfOk result
        (λ found. found.commit ≡ commands.asks_commit (view value)) }
    ensures err { IfErr result (IsFormFault (commands.reading (view value))) }
{
    match value {
        Value::Array(items) => Ok(Commands {
            adds: all_objects(items)?,
            deletes: Vec::new(alloc),
            commit: false,
        }),
        other => object_commands(alloc, other),
    }
}

/// What an object of commands asks for.
fn object_commands(alloc: Global, mut value: Value) -> Result<Commands, FormFault>
    ensures ok { IfOk result (λ found. commands.commands_of (view value)
        ≡ Ok (listed actions.Add found.adds.items ++ listed actions.Delete found.deletes.items)) }
    ensures commit { IfOk result
        (λ found. found.commit ≡ commands.asks_commit (view value)) }
    ensures err { IfErr result (IsFormFault (commands.commands_of (view value))) }
{
    let found = take_commands(alloc, &mut value);
    drop(value);
    found
}

/// Takes what an object of commands asks for out of it.
fn take_commands(alloc: Global, value: &mut Value) -> Result<Commands, FormFault>
    ensures ok { IfOk result (λ found. commands.commands_of (view value.old)
        ≡ Ok (listed actions.Add found.adds.items ++ listed actions.Delete found.deletes.items)) }
    ensures commit { IfOk result
        (λ found. found.commit ≡ commands.asks_commit (view value.old)) }
    ensures err { IfErr result (IsFormFault (commands.commands_of (view value.old))) }
{
    if !has_keys(value, &["add", "delete", "commit"]) {
        return Err(FormFault::Shape { at: 0 });
    }
    let adds = adds_at(alloc, take_member(value, "add"))?;
    let deletes = match deletes_at(alloc, take_member(value, "delete")) {
        Ok(deletes) => deletes,
        Err(FormFault::Shape { at }) => {
            let before = adds.len();
            drop(adds);
            return Err(FormFault::Shape { at: before + at });
        }
        Err(fault) => {
            drop(adds);
            return Err(fault);
        }
    };
    let Some(commit) = commit_at(value) else {
        let at = adds.len() + deletes.len();
        drop(adds);
        drop(deletes);
        return Err(FormFault::Shape { at });
    };
    Ok(Commands {
        adds,
        deletes,
        commit,
    })
}

/// What the value of the key `add` asks for, where it is there.
fn adds_at(alloc: Global, asked: Option<Value>) -> Result<Vec<Value>, FormFault>
    ensures ok { IfOk result
        (λ found. commands.where_there commands.orders_of_add (option_map view asked)
        ≡ Ok (listed actions.Add found.items)) }
    ensures err { IfErr result
        (IsFormFault (commands.where_there commands.orders_of_add (option_map view asked))) }
{
    match asked {
        Some(value) => adds_of(alloc, value),
        None => Ok(Vec::new(alloc)),
    }
}

/// What the value of the key `delete` asks for, where it is there.
fn deletes_at(alloc: Global, asked: Option<Value>) -> Result<Vec<Value>, FormFault>
    ensures ok { IfOk result
        (λ found. commands.where_there commands.orders_of_delete (option_map view asked)
        ≡ Ok (listed actions.Delete found.items)) }
    ensures err { IfErr result
        (IsFormFault (commands.where_there commands.orders_of_delete (option_map view asked))) }
    ensures small { IfErr result (ComesWithin (2 ^ 62)) }
{
    match asked {
        Some(value) => deletes_of(alloc, value),
        None => Ok(Vec::new(alloc)),
    }
}

/// Whether the key `commit` is there. `None` where what it has is no object.
fn commit_at(value: &Value) -> Option<bool>
    ensures some { OnSome result
        (commands.where_there commands.commit_of (get (codes "commit") (view value.now)) ≡ Ok []) }
    ensures commit { IfSome result (λ found. found ≡ commands.asks_commit (view value.now)) }
    ensures none { result ≡ None
        → commands.where_there commands.commit_of (get (codes "commit") (view value.now)) ≡ Err 0 }
{
    match value.get("commit") {
        Some(asked) if asked.is_object() => Some(true),
        Some(_) => None,
        None => Some(false),
    }
}

/// What a value asks to add.
fn adds_of(alloc: Global, value: Value) -> Result<Vec<Value>, FormFault>
    ensures ok { IfOk result
        (λ found. commands.orders_of_add (view value) ≡ Ok (listed actions.Add found.items)) }
    ensures err { IfErr result (IsFormFault (commands.orders_of_add (view value))) }
{
    match value {
        Value::Array(items) => all_objects(items),
        other => one_added(alloc, other),
    }
}

/// The document of an object that adds one, alone.
fn one_added(alloc: Global, value: Value) -> Result<Vec<Value>, FormFault>
    ensures ok { IfOk result (λ found. commands.one (commands.added_doc (view value))
        ≡ Ok (listed actions.Add found.items)) }
    ensures err { IfErr result (IsFormFault (commands.one (commands.added_doc (view value)))) }
{
    match added_doc(value) {
        Some(doc) => alone(alloc, doc),
        None => Err(FormFault::Shape { at: 0 }),
    }
}

/// The document of an object that adds one.
fn added_doc(mut value: Value) -> Option<Value>
    ensures { MatchOption result (commands.added_doc (view value) ≡ None)
        (λ doc. commands.added_doc (view value) ≡ Some (command_of actions.Add (view doc))) }
{
    let doc = take_doc(&mut value);
    drop(value);
    doc
}

/// Takes the document out of an object that adds one.
fn take_doc(value: &mut Value) -> Option<Value>
    ensures { MatchOption result (commands.added_doc (view value.old) ≡ None)
        (λ doc. commands.added_doc (view value.old) ≡ Some (command_of actions.Add (view doc))) }
{
    if !has_keys(value, &["doc", "commitWithin", "overwrite"]) || !overwrites(value) {
        return None;
    }
    let doc = take_member(value, "doc")?;
    if doc.is_object() {
        return Some(doc);
    }
    drop(doc);
    None
}

/// Whether the key `overwrite` is left out, or true.
fn overwrites(value: &Value) -> bool
    ensures { result ≡ commands.overwrites (view value.now) }
{
    match value.get("overwrite") {
        Some(flag) => flag.as_bool().unwrap_or(false),
        None => true,
    }
}

/// What a value asks to delete.
fn deletes_of(alloc: Global, value: Value) -> Result<Vec<Value>, FormFault>
    ensures ok { IfOk result
        (λ found. commands.orders_of_delete (view value) ≡ Ok (listed actions.Delete found.items)) }
    ensures err { IfErr result (IsFormFault (commands.orders_of_delete (view value))) }
    ensures small { IfErr result (ComesWithin (2 ^ 62)) }
{
    match value {
        Value::Array(items) => all_ids(items),
        one => {
            if !names_one(&one) {
                drop(one);
                return Err(FormFault::Shape { at: 0 });
            }
            alone(alloc, one)
        }
    }
}

/// Whether the value names one document to delete.
fn names_one(value: &Value) -> bool
    ensures { result ≡ commands.names_one (view value.now) }
{
    match value {
        Value::Object(_) => has_keys(value, &["id", "_version_"]) && has_id(value),
        _ => is_id(value),
    }
}

/// Whether an object has an id.
fn has_id(value: &Value) -> bool
    ensures { result ≡ option_map_or commands.can_be_id (get (codes "id") (view value.now)) false }
{
    match value.get("id") {
        Some(id) => is_id(id),
        None => false,
    }
}

/// A list of this value alone.
fn alone(alloc: Global, value: Value) -> Result<Vec<Value>, FormFault>
    ensures ok { IfOk result (λ items. items.items ≡ value ∷ []) }
    ensures err { IfErr result (λ fault. fault ≡ faults.Memory) }
{
    match vec![in alloc; value] {
        Ok(items) => Ok(items),
        Err(_) => Err(FormFault::Memory),
    }
}

/// The items, where each is an object.
fn all_objects(items: Vec<Value>) -> Result<Vec<Value>, FormFault>
    ensures ok { IfOk result (λ found. commands.each commands.added (items_view items.items)
        ≡ Ok (listed actions.Add found.items)) }
    ensures err { IfErr result (IsFormFault (commands.each commands.added (items_view items.items))) }
{
    match objects(items.as_slice()) {
        Ok(()) => Ok(items),
        Err(at) => {
            drop(items);
            Err(FormFault::Shape { at })
        }
    }
}

/// Whether each item is an object; else how many come before the first that is none.
fn objects(items: &[Value]) -> Result<(), usize>
    ensures ok { OnOk result (commands.each commands.added (items_view items.now)
        ≡ Ok (listed actions.Add items.now)) }
    ensures err { IfErr result
        (λ at. commands.each commands.added (items_view items.now) ≡ Err at) }
{
    for (at, item) in items.iter().enumerate() {
        if !item.is_object() {
            return Err(at);
        }
    }
    Ok(())
}

/// The items, where each is an id.
fn all_ids(items: Vec<Value>) -> Result<Vec<Value>, FormFault>
    ensures ok { IfOk result (λ found. commands.each commands.deleted (items_view items.items)
        ≡ Ok (listed actions.Delete found.items)) }
    ensures err { IfErr result (IsFormFault (commands.each commands.deleted (items_view items.items))) }
    ensures small { IfErr result (ComesWithin (2 ^ 62)) }
{
    match ids(items.as_slice()) {
        Ok(()) => Ok(items),
        Err(at) => {
            drop(items);
            Err(FormFault::Shape { at })
        }
    }
}

/// Whether each item is an id; else how many come before the first that is none.
fn ids(items: &[Value]) -> Result<(), usize>
    ensures ok { OnOk result (commands.each commands.deleted (items_view items.now)
        ≡ Ok (listed actions.Delete items.now)) }
    ensures err { IfErr result
        (λ at. commands.each commands.deleted (items_view items.now) ≡ Err at) }
    ensures small { IfErr result (λ at. at < 2 ^ 62) }
{
    for (at, item) in items.iter().enumerate() {
        if !is_id(item) {
            return Err(at);
        }
    }
    Ok(())
}
