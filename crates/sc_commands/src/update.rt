ghost use Rattle.std.specs.Prelude.{◌≡◌, ◌≤◌, ◌-◌, ◌^◌, length, min, Some, Ok, IfOk, IfErr};
ghost use Rattle.serde_json.specs.View.{view};
ghost use Rattle.sc_record.specs.Orders.{order_limit};
ghost use Rattle.sc_schema.specs.declared.raw.RawDoc.{RawDoc};
ghost use Rattle.sc_json.specs.Bodies.{json_of};
ghost use Rattle.sc_commands.specs.Listed.{added_docs};
ghost use Rattle.sc_commands.specs.Updates as updates;
ghost use Rattle.sc_commands.specs.declared.fault.CommandFault.TheVariants as faults;

use crate::batch::{Batch, Flags};
use crate::fault::CommandFault;
use crate::forms::{FormFault, commands_of};
use crate::orders::{orders_of, orders_of_docs};
use sc_json::{JsonFault, count_docs, flat_docs, read};
use sc_record::{List, MAX_ORDERS};
use sc_schema::{DocFault, RawDoc};
use serde_json::Value;
use std::alloc::{AllocError, Global};

/// A body of fewer bytes has no more documents than that: each takes two, and a comma or a bracket.
const MANY_BYTES: usize = 3 * MAX_ORDERS;

/// The orders that the body of an update asks for (Solr Reference Guide, "Indexing with Update Handlers"), with what the
/// request's parameters set: an array of documents, or an object that may `add`, `delete` and `commit`, which is done in this
/// order. A body of no bytes asks for nothing.
pub fn read_update(alloc: Global, body: &[u8], flags: &Flags) -> Result<Batch, CommandFault>
    ensures ok { IfOk result
        (λ batch. updates.asked_by_update flags.now body.now ≡ Ok (updates.update_of batch)) }
    ensures fault { IfErr result (updates.IsCommandFault (updates.asked_by_update flags.now body.now)) }
    ensures few { IfOk result (λ batch. length batch.orders ≤ order_limit) }
{
    if body.is_empty() {
        return Ok(Batch {
            orders: List::new(alloc),
            flags: *flags,
        });
    }
    match flat_docs(alloc, body) {
        Ok(Some(docs)) => read_docs(alloc, docs, flags),
        Ok(None) => read_other(alloc, body, flags),
        Err(AllocError) => Err(CommandFault::Memory),
    }
}

/// The orders that a body asks for which is no array of flat documents, or one of too many. Of these no tree is made, which may
/// take a hundred times the body's bytes.
fn read_other(alloc: Global, body: &[u8], flags: &Flags) -> Result<Batch, CommandFault>
    ensures ok { IfOk result
        (λ batch. updates.read_value flags.now (json_of body.now) ≡ Ok (updates.update_of batch)) }
    ensures fault { IfErr result
        (updates.IsCommandFault (updates.read_value flags.now (json_of body.now))) }
    ensures few { IfOk result (λ batch. length batch.orders ≤ order_limit) }
{
    if body.len() < MANY_BYTES {
        return read_tree(alloc, body, flags);
    }
    match count_docs(alloc, body) {
        Ok(Some(count)) if count > MAX_ORDERS => Err(CommandFault::TooMany),
        Ok(_) => read_tree(alloc, body, flags),
        Err(AllocError) => Err(CommandFault::Memory),
    }
}

/// The orders to add these documents.
fn read_docs(alloc: Global, docs: List<RawDoc>, flags: &Flags) -> Result<Batch, CommandFault>
    ensures ok { IfOk result
        (λ batch. updates.read_commands flags.now (Ok (added_docs docs)) ≡ Ok (updates.update_of batch)) }
    ensures fault { IfErr result
        (updates.IsCommandFault (updates.read_commands flags.now (Ok (added_docs docs)))) }
    ensures few { IfOk result (λ batch. length batch.orders ≤ order_limit) }
{
    if docs.len() > MAX_ORDERS {
        return Err(CommandFault::TooMany);
    }
    match orders_of_docs(alloc, docs) {
        Ok(orders) => Ok(Batch {
            orders,
            flags: *flags,
        }),
        Err(DocFault::Memory) => Err(CommandFault::Memory),
        Err(fault) => Err(CommandFault::Doc(fault)),
    }
}

/// The orders that a body asks for, by the tree of its value.
fn read_tree(alloc: Global, body: &[u8], flags: &Flags) -> Result<Batch, CommandFault>
    ensures ok { IfOk result
        (λ batch. updates.read_value flags.now (json_of body.now) ≡ Ok (updates.update_of batch)) }
    ensures fault { IfErr result
        (updates.IsCommandFault (updates.read_value flags.now (json_of body.now))) }
    ensures few { IfOk result (λ batch. length batch.orders ≤ order_limit) }
{
    match read(alloc, body) {
        Ok(value) => read_value(alloc, value, flags),
        Err(JsonFault::Bad) => Err(CommandFault::BadJson),
        Err(JsonFault::Memory) => Err(CommandFault::Memory),
    }
}

/// The orders that a body's value asks for.
fn read_value(alloc: Global, value: Value, flags: &Flags) -> Result<Batch, CommandFault>
    ensures ok { IfOk result
        (λ batch. updates.read_value flags.now (Some (view value)) ≡ Ok (updates.update_of batch)) }
    ensures fault { IfErr result
        (updates.IsCommandFault (updates.read_value flags.now (Some (view value)))) }
    ensures few { IfOk result (λ batch. length batch.orders ≤ order_limit) }
{
    let commands = match commands_of(alloc, value) {
        Ok(commands) => commands,
        Err(FormFault::Shape { at }) => return Err(bad_shape(at)),
        Err(FormFault::Memory) => return Err(CommandFault::Memory),
    };
    if commands.adds.len() + commands.deletes.len() > MAX_ORDERS {
        drop(commands);
        return Err(CommandFault::TooMany);
    }
    let commit = commands.commit;
    match orders_of(alloc, commands) {
        Ok(orders) => Ok(Batch {
            orders,
            flags: Flags {
                commit: flags.commit || commit,
                versions: flags.versions,
                fail_on_conflict: flags.fail_on_conflict,
            },
        }),
        Err(DocFault::Memory) => Err(CommandFault::Memory),
        Err(fault) => Err(CommandFault::Doc(fault)),
    }
}

/// The fault of a form that is none, after so many orders.
fn bad_shape(at: usize) -> CommandFault
    ensures { result ≡ faults.BadShape (min at (2 ^ 32 - 1)) }
{
    CommandFault::BadShape {
        at: at.min(u32::MAX as usize) as u32,
    }
}
