//! The bodies of the answers to updates, and of all refusals.

ghost use Rattle.std.specs.Prelude.{◌≡◌, IfOk};
ghost use Rattle.serde_json.specs.View.{view};
ghost use Rattle.sc_reply.specs.Bodies as bodies;

use crate::parts::{put_error, put_header, put_orders, text_of};
use sc_record::{Ack, List, Text};
use serde_json::{Map, Value};
use std::alloc::{AllocError, Global};

/// The body of the answer to an update that was done, with the versions of its orders where they are to be shown.
pub fn update_body(
    alloc: Global,
    adds: &List<Ack>,
    deletes: &List<Ack>,
    versions: bool,
) -> Result<Text, AllocError>
    ensures { IfOk result (λ text. text ≡ bodies.update_text adds.now deletes.now versions) }
{
    let value = update_value(alloc, adds, deletes, versions)?;
    text_of(alloc, &value)
}

/// The value of an update's answer.
#[tactic(auto, using(crate::proofs::PutLemmas::put_all_append))]
fn update_value(
    alloc: Global,
    adds: &List<Ack>,
    deletes: &List<Ack>,
    versions: bool,
) -> Result<Value, AllocError>
    ensures { IfOk result
        (λ value. view value ≡ bodies.update_data adds.now deletes.now versions) }
{
    let mut members = Map::new(alloc);
    put_header(&mut members, alloc, 0)?;
    put_orders(&mut members, alloc, adds, deletes, versions)?;
    Ok(Value::Object(members))
}

/// The body of a refusal, whose status is the code, with the versions of the orders that were accepted before it where they
/// are to be shown.
pub fn error_body(
    alloc: Global,
    code: u16,
    message: &str,
    adds: &List<Ack>,
    deletes: &List<Ack>,
    versions: bool,
) -> Result<Text, AllocError>
    ensures { IfOk result
        (λ text. text ≡ bodies.error_text code message.now adds.now deletes.now versions) }
{
    let value = error_value(alloc, code, message, adds, deletes, versions)?;
    text_of(alloc, &value)
}

/// The value of a refusal.
#[tactic(auto, using(crate::proofs::PutLemmas::put_all_append))]
fn error_value(
    alloc: Global,
    code: u16,
    message: &str,
    adds: &List<Ack>,
    deletes: &List<Ack>,
    versions: bool,
) -> Result<Value, AllocError>
    ensures { IfOk result
        (λ value. view value ≡ bodies.error_data code message.now adds.now deletes.now versions) }
{
    let mut members = Map::new(alloc);
    put_header(&mut members, alloc, code)?;
    put_error(&mut members, alloc, code, message)?;
    put_orders(&mut members, alloc, adds, deletes, versions)?;
    Ok(Value::Object(members))
}
