//! The members of answers, and their text.

ghost use Rattle.std.specs.Prelude.{◌≡◌, ◌∷◌, [], false, IfOk, OnOk, Some};
ghost use Rattle.serde.specs.Event.{Log};
ghost use Rattle.serde_json.specs.Sent.{IsTextOf};
ghost use Rattle.serde_json.specs.Written.{has_float, compact_text};
ghost use Rattle.serde_json.specs.View.{view, members_view};
ghost use Rattle.sc_json.specs.Documents.{put_all};
ghost use Rattle.sc_reply.specs.Bodies as bodies;

use sc_json::print;
use sc_record::{Ack, List, Text};
use serde::Serialize;
use serde_json::{Map, Value, json, put};
use std::alloc::{AllocError, Global};

/// Puts the member `responseHeader`.
pub fn put_header(
    members: &mut Map<String, Value>,
    alloc: Global,
    status: u16,
) -> Result<(), AllocError>
    ensures { OnOk result (members_view members.new.entries
        ≡ put_all (bodies.header_member status ∷ []) (members_view members.old.entries)) }
{
    let header = json!(in alloc; {"QTime": 0, "status": status})?;
    put(members, alloc, "responseHeader", header)
}

/// Puts the member `error`.
pub fn put_error(
    members: &mut Map<String, Value>,
    alloc: Global,
    code: u16,
    message: &str,
) -> Result<(), AllocError>
    ensures { OnOk result (members_view members.new.entries
        ≡ put_all (bodies.error_member code message.now ∷ []) (members_view members.old.entries)) }
{
    let error = json!(in alloc; {"code": code, "msg": message})?;
    put(members, alloc, "error", error)
}

/// Puts the members of what was added and of what was deleted, where their versions are to be shown.
#[tactic(auto, using(crate::proofs::PutLemmas::put_all_append))]
pub fn put_orders(
    members: &mut Map<String, Value>,
    alloc: Global,
    adds: &List<Ack>,
    deletes: &List<Ack>,
    versions: bool,
) -> Result<(), AllocError>
    ensures { OnOk result (members_view members.new.entries
        ≡ put_all (bodies.acks_members adds.now deletes.now versions) (members_view members.old.entries)) }
{
    put_acks(members, alloc, "deletes", deletes, versions)?;
    put_acks(members, alloc, "adds", adds, versions)
}

/// Puts the member of accepted orders under this key, where their versions are to be shown and there are some.
fn put_acks(
    members: &mut Map<String, Value>,
    alloc: Global,
    key: &str,
    acks: &List<Ack>,
    versions: bool,
) -> Result<(), AllocError>
    ensures { OnOk result (members_view members.new.entries
        ≡ put_all (bodies.acks_member key.now versions acks.now) (members_view members.old.entries)) }
{
    if !versions || acks.is_empty() {
        return Ok(());
    }
    let shown = acks_value(alloc, acks.as_slice())?;
    put(members, alloc, key, shown)
}

/// The ids and the versions of accepted orders, in a flat list.
fn acks_value(alloc: Global, acks: &[Ack]) -> Result<Value, AllocError>
    ensures { IfOk result (λ value. view value ≡ bodies.acks_data acks.now) }
{
    let mut items = Vec::new(alloc);
    for ack in acks {
        items.push(Value::try_from_str(alloc, ack.id.as_str())?)?;
        items.push(Value::from(ack.version))?;
    }
    Ok(Value::Array(items))
}

/// The text of an answer.
pub fn text_of(alloc: Global, value: &Value) -> Result<Text, AllocError>
    requires { has_float (view value.now) ≡ false }
    ensures { IfOk result (λ text. text ≡ compact_text (view value.now)) }
{
    print(alloc, value)
}

/// The text of an answer that sends itself.
pub fn written<T: Serialize>(alloc: Global, answer: &T) -> Result<Text, AllocError>
    ensures { IfOk result
        (λ text. (log : Log) × T.writes answer.now (Some []) log × IsTextOf log text) }
{
    let Ok(text) = serde_json::to_string(alloc, answer) else {
        return Err(AllocError);
    };
    Text::from_string(alloc, text)
}
