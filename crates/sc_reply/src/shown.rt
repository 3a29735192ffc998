//! Answers that have documents, as they are written, with no value in between.

ghost use Rattle.std.specs.Prelude.{map, OnOk, Some};
ghost use Rattle.std.specs.Arc.{arc_value};
ghost use Rattle.serde_json.specs.Events.{SendsValue};
ghost use Rattle.sc_json.specs.Documents as documents;
ghost use Rattle.sc_json.specs.Sent.{SendsMember};
ghost use Rattle.sc_reply.specs.Bodies as bodies;

use sc_json::ShownDocument;
use sc_record::{Cell, Write};
use serde::{Described, Serialize, Serializer};

/// The answer to a get of one id that has a document.
#[derive(Clone, Copy)]
pub(crate) struct ShownGet<'a>(pub(crate) &'a Write);

impl Described for ShownGet<'_> {
    ghost writes = { λ shown. SendsValue (bodies.get_data (Some shown.0.now)) };
}

impl Serialize for ShownGet<'_> {
    fn serialize<S: Serializer>(&self, out: &mut S) -> Result<(), S::Error> {
        out.begin_map(Some(1))?;
        out.key("doc")?;
        ShownDocument(self.0).serialize(out)?;
        out.end_map()
    }
}

/// The answer to a get of several ids: these documents, in this order.
#[derive(Clone, Copy)]
pub(crate) struct ShownIds<'a>(pub(crate) &'a [Cell]);

impl Described for ShownIds<'_> {
    ghost writes = { λ shown. SendsValue (bodies.ids_data (map arc_value shown.0.now)) };
}

impl Serialize for ShownIds<'_> {
    fn serialize<S: Serializer>(&self, out: &mut S) -> Result<(), S::Error> {
        out.begin_map(Some(1))?;
        send_response(out, self.0.len() as u64, 0, self.0)?;
        out.end_map()
    }
}

/// The answer to a search: of as many documents as were found, these, which stand from `start` on, counted from 0.
#[derive(Clone, Copy)]
pub(crate) struct ShownSearch<'a> {
    pub(crate) found: u64,
    pub(crate) start: u32,
    pub(crate) docs: &'a [Cell],
}

impl Described for ShownSearch<'_> {
    ghost writes = { λ shown. SendsValue
        (bodies.select_data shown.found shown.start (map arc_value shown.docs.now)) };
}

impl Serialize for ShownSearch<'_> {
    fn serialize<S: Serializer>(&self, out: &mut S) -> Result<(), S::Error> {
        out.begin_map(Some(2))?;
        send_response(out, self.found, self.start, self.docs)?;
        send_header(out)?;
        out.end_map()
    }
}

/// Sends the member `responseHeader` of an answer that is no refusal.
fn send_header<S: Serializer>(out: &mut S) -> Result<(), S::Error>
    ensures { OnOk result (SendsMember (bodies.header_member 0) (S.written out.old) (S.written out.new)) }
{
    out.key("responseHeader")?;
    out.begin_map(Some(2))?;
    out.key("QTime")?;
    out.u64(0)?;
    out.key("status")?;
    out.u64(0)?;
    out.end_map()
}

/// Sends the member `response`.
fn send_response<S: Serializer>(
    out: &mut S,
    found: u64,
    start: u32,
    docs: &[Cell],
) -> Result<(), S::Error>
    ensures { OnOk result (SendsMember (bodies.response_member found start (map arc_value docs.now))
        (S.written out.old) (S.written out.new)) }
{
    out.key("response")?;
    out.begin_map(Some(4))?;
    out.key("docs")?;
    send_docs(out, docs)?;
    out.key("numFound")?;
    out.u64(found)?;
    out.key("numFoundExact")?;
    out.bool(true)?;
    out.key("start")?;
    out.u64(u64::from(start))?;
    out.end_map()
}

/// Sends the list of documents.
fn send_docs<S: Serializer>(out: &mut S, docs: &[Cell]) -> Result<(), S::Error>
    ensures { OnOk result
        (SendsValue (documents.array_of (map documents.write_data (map arc_value docs.now)))
        (S.written out.old) (S.written out.new)) }
{
    out.begin_seq(Some(docs.len()))?;
    for cell in docs {
        ShownDocument(cell).serialize(out)?;
    }
    out.end_seq()
}
