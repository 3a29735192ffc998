//! The body of the answer to a split.

ghost use Rattle.std.specs.Prelude.{◌≡◌, IfOk, map};
ghost use Rattle.serde_json.specs.View.{view};
ghost use Rattle.serde_json.specs.Data.{string};
ghost use Rattle.sc_json.specs.Documents.{array_of};
ghost use Rattle.sc_reply.specs.Bodies.{header_member};
ghost use Rattle.sc_admin.specs.Splits as splits;

use crate::text::text_of;
use sc_collection::Commits;
use sc_record::{List, Text};
use serde_json::{Value, json};
use std::alloc::{AllocError, Global};

/// What a client is told of the commits.
fn committed_value(alloc: Global, committed: Commits) -> Result<Value, AllocError>
    ensures { IfOk result (λ value. view value ≡ splits.committed_data committed) }
{
    match committed {
        Commits::All => Ok(Value::Bool(true)),
        Commits::LogFull => Value::try_from_str(alloc, "update log is full"),
        Commits::Memory => Value::try_from_str(alloc, "out of memory"),
    }
}

/// The body of the answer to a split that was done: the names of the subs, and what came of the commits.
pub fn split_body(alloc: Global, subs: &List<Text>, committed: Commits) -> Result<Text, AllocError>
    ensures { IfOk result (λ text. text ≡ splits.split_text subs.now committed) }
{
    let value = split_value(alloc, subs, committed)?;
    text_of(alloc, &value)
}

/// The value of the answer.
fn split_value(alloc: Global, subs: &List<Text>, committed: Commits) -> Result<Value, AllocError>
    ensures { IfOk result (λ value. view value ≡ splits.split_data subs.now committed) }
{
    let committed = committed_value(alloc, committed)?;
    let header = header_value(alloc)?;
    let names = names_value(alloc, subs.as_slice())?;
    json!(in alloc; {"committed": committed, "responseHeader": header, "subs": names})
}

/// The value of the member `responseHeader` of an answer to what was done.
pub(crate) fn header_value(alloc: Global) -> Result<Value, AllocError>
    ensures { IfOk result (λ value. view value ≡ (header_member 0).1) }
{
    json!(in alloc; {"QTime": 0, "status": 0})
}

/// The list of names.
fn names_value(alloc: Global, names: &[Text]) -> Result<Value, AllocError>
    ensures { IfOk result (λ value. view value ≡ array_of (map string names.now)) }
{
    let mut items = Vec::new(alloc);
    for name in names {
        items.push(Value::try_from_str(alloc, name.as_str())?)?;
    }
    Ok(Value::Array(items))
}
