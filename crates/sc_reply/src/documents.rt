//! The bodies of answers that have documents.

ghost use Rattle.std.specs.Prelude.{◌≡◌, IfOk, Some, map, option_copied};
ghost use Rattle.std.specs.Option.{option_map};
ghost use Rattle.std.specs.Arc.{arc_value};
ghost use Rattle.sc_reply.specs.Bodies as bodies;

use crate::fixed::null_body;
use crate::parts::written;
use crate::shown::{ShownGet, ShownIds, ShownSearch};
use sc_record::{Cell, List, Text, Write};
use std::alloc::{AllocError, Global};

/// The body of the answer to a get of one id: the document, or null where the id has none.
pub fn get_body(alloc: Global, write: Option<&Cell>) -> Result<Text, AllocError>
    requires { bodies.IsLiveOrNone (option_map arc_value (option_copied write)) }
    ensures { IfOk result
        (λ text. text ≡ bodies.get_text (option_map arc_value (option_copied write.entry))) }
{
    match write {
        Some(cell) => found_body(alloc, cell),
        None => Text::new(alloc, null_body()),
    }
}

/// The body where the id has a document: the document, as the one member of an object.
fn found_body(alloc: Global, write: &Write) -> Result<Text, AllocError>
    ensures { IfOk result (λ text. text ≡ bodies.get_text (Some write.now)) }
{
    written(alloc, &ShownGet(write))
}

/// The body of the answer to a get of several ids: these documents, in this order.
pub fn ids_body(alloc: Global, docs: &List<Cell>) -> Result<Text, AllocError>
    requires { bodies.AreLive (map arc_value docs.now) }
    ensures { IfOk result (λ text. text ≡ bodies.ids_text (map arc_value docs.now)) }
{
    written(alloc, &ShownIds(docs.as_slice()))
}

/// The body of the answer to a search: of as many documents as were found, these, which stand from `start` on, counted from
/// 0.
pub fn select_body(
    alloc: Global,
    found: u64,
    start: u32,
    docs: &List<Cell>,
) -> Result<Text, AllocError>
    requires { bodies.AreLive (map arc_value docs.now) }
    ensures { IfOk result
        (λ text. text ≡ bodies.select_text found start (map arc_value docs.now)) }
{
    let shown = ShownSearch {
        found,
        start,
        docs: docs.as_slice(),
    };
    written(alloc, &shown)
}
