ghost use Rattle.std.specs.Prelude.{◌≡◌, ◌<ℤ◌, pos, IfOk, true, false};
ghost use Rattle.sc_frames.specs.Stored.{stored_write, write};
ghost use Rattle.sc_journal.specs.Computed.{IsComputed};
ghost use Rattle.sc_frames.specs.Reading.{Gives, doc_at, id_at, write_at};

use crate::fault::BodyFault;
use crate::number::{name_of, u64_of};
use sc_record::{Doc, Id, IdFault, Write};
use sc_router::route_hash;
use sc_schema::terms_of;
use sc_spelling::FieldsFault;
use std::alloc::{AllocError, Global};

// The write that the bytes begin with, and the bytes after it. Its hash and its terms are computed.
#[tactic(auto, unfolding(crate::specs::Reading::write_at, crate::specs::Reading::version_at))]
pub(crate) fn write_of(
    alloc: Global,
    has_doc: bool,
    bytes: &[u8],
) -> Result<(Write, &[u8]), BodyFault>
    ensures read { Gives (λ x. (stored_write x.0, x.1.now)) result (write_at has_doc bytes.now) }
    ensures computed { IfOk result (λ x. IsComputed x.0) }
{
    let (id, rest) = id_of(alloc, bytes)?;
    let (version, rest) = u64_of(rest)?;
    let version = version.cast_signed();
    if version <= 0 {
        return Err(BodyFault::NotEntries);
    }
    let (doc, rest) = doc_of(alloc, has_doc, rest)?;
    let write = computed(alloc, id, version, doc)?;
    Ok((write, rest))
}

// A write of the id: of the document, with its terms, or a deletion.
fn computed(alloc: Global, id: Id, version: i64, doc: Option<Doc>) -> Result<Write, AllocError>
    requires { pos 0 <ℤ version }
    ensures stored { IfOk result (λ made. stored_write made ≡ write id version doc) }
    ensures computed { IfOk result IsComputed }
{
    let hash = route_hash(id.as_str());
    let Some(doc) = doc else {
        return Ok(Write::deletion(alloc, id, hash, version));
    };
    let terms = terms_of(alloc, &id, &doc)?;
    Write::new(alloc, id, hash, version, &doc, &terms)
}

// The id that the bytes begin with, and the bytes after it.
#[tactic(auto, unfolding(crate::specs::Reading::id_at))]
fn id_of(alloc: Global, bytes: &[u8]) -> Result<(Id, &[u8]), BodyFault>
    ensures { Gives (λ x. (x.0, x.1.now)) result (id_at bytes.now) }
{
    let (text, rest) = name_of(bytes)?;
    match Id::new(alloc, text) {
        Ok(id) => Ok((id, rest)),
        Err(IdFault::Empty | IdFault::TooLong) => Err(BodyFault::NotEntries),
        Err(IdFault::Memory) => Err(BodyFault::Memory),
    }
}

// The document that the bytes begin with, where one is to come, and the bytes after it.
#[tactic(auto, unfolding(crate::specs::Reading::doc_at))]
fn doc_of(alloc: Global, has_doc: bool, bytes: &[u8]) -> Result<(Option<Doc>, &[u8]), BodyFault>
    ensures { Gives (λ x. (x.0, x.1.now)) result (doc_at has_doc bytes.now) }
{
    if !has_doc {
        return Ok((None, bytes));
    }
    match Doc::read(alloc, bytes) {
        Ok((doc, rest)) => Ok((Some(doc), rest)),
        Err(FieldsFault::NotFields) => Err(BodyFault::NotEntries),
        Err(FieldsFault::Memory) => Err(BodyFault::Memory),
    }
}
