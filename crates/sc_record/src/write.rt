ghost use Rattle.std.specs.Prelude.{◌≡◌, ◌++◌, ◌<◌, ◌^◌, OnOk, pos, ◌<ℤ◌, IfOk, IfSome, IsSome, is_some};
ghost use Rattle.std.specs.Int.{w32, to_le_bytes};
ghost use Rattle.std.specs.Option.{option_map};
ghost use Rattle.sc_spelling.specs.Spellings.{spelling};
ghost use Rattle.sc_values.specs.Fields.{IsDocument};
ghost use Rattle.sc_record.specs.TermRuns.{run_at, terms_of_run};
ghost use Rattle.sc_record.specs.Versions.{shown_version};
ghost use Rattle.sc_record.specs.Writes.{document_write, deletion_write};

use crate::document::{Doc, spelled};
use crate::id::Id;
use crate::term_run::{TermRun, Terms};
use sc_spelling::Fields;
use std::alloc::{AllocError, Global};
use std::marker::Model;
use std::sync::Arc;

/// One write of an id under its version, which is above 0. A write without a document is a deletion. Contracts see it as its id,
/// the id's hash, by which it belongs to a slice, its version, its document, and the terms that a search finds the document by.
/// The document and the terms are kept as one run of bytes.
#[derive(Debug, Drop)]
pub struct Write {
    id: Id,
    hash: i32,
    doc_length: u32,
    version: i64,
    run: Vec<u8>,
}

/// A write that a journal and what is kept of an id share.
pub type Cell = Arc<Write>;

impl Model for Write {
    ghost use Rattle.std.specs.Prelude.{pos, ◌<ℤ◌};
    ghost use Rattle.sc_record.specs.Writes.{Write as WriteValue};

    ghost Value = { WriteValue };

    ghost use Rattle.sc_spelling.specs.Reading.{read_of};
    ghost use Rattle.sc_record.specs.WriteRuns.{doc_of_run, terms_after, IsWriteRun};

    ghost view = { λ a. record {
      id = a.id;
      hash = a.hash;
      version = a.version;
      doc = doc_of_run a.doc_length a.run.items;
      terms = read_of (terms_after a.id a.doc_length a.run.items);
    } };

    ghost invariant = { λ a. (pos 0 <ℤ a.version) × IsWriteRun a.id a.doc_length a.run.items };
}

impl Write {
    /// A write of the document, whose terms were built beside it and the id.
    pub fn new(
        alloc: Global,
        id: Id,
        hash: i32,
        version: i64,
        doc: &Doc,
        terms: &TermRun,
    ) -> Result<Write, AllocError>
        requires positive { pos 0 <ℤ version }
        requires terms { IsSome (run_at id doc.now terms.now) }
        ensures { IfOk result (λ write. write ≡ document_write id hash version doc.now (terms_of_run id doc.now terms.now)) }
    {
        let bytes = doc.bytes();
        let kept = joined(alloc, bytes, terms)?;
        Ok(Write {
            id,
            hash,
            doc_length: bytes.len() as u32,
            version,
            run: kept,
        })
    }

    /// A deletion.
    pub fn deletion(alloc: Global, id: Id, hash: i32, version: i64) -> Write
        requires { pos 0 <ℤ version }
        ensures { result ≡ deletion_write id hash version }
    {
        Write {
            id,
            hash,
            doc_length: 0,
            version,
            run: Vec::new(alloc),
        }
    }

    pub fn id(&self) -> &Id
        ensures { result.now ≡ self.now.id }
    {
        &self.id
    }

    /// The id's hash, by which the write belongs to a slice.
    pub fn hash(&self) -> i32
        ensures { result ≡ self.now.hash }
    {
        self.hash
    }

    pub fn version(&self) -> i64
        ensures value { result ≡ self.now.version }
        ensures positive { pos 0 <ℤ self.now.version }
    {
        self.version
    }

    /// Whether the write has a document.
    pub fn is_live(&self) -> bool
        ensures { result ≡ is_some self.now.doc }
    {
        self.doc_length != 0
    }

    /// The fields of the document, lent one after another. `None` for a deletion.
    pub fn doc(&self) -> Option<Fields<'_>>
        ensures value { result ≡ self.now.doc }
        ensures document { IfSome self.now.doc IsDocument }
    {
        if self.doc_length == 0 {
            return None;
        }
        let (doc, _) = self.run.as_slice().split_at(self.doc_length as usize);
        Some(Fields::of(spelled(doc)))
    }

    /// The document's spelling. `None` for a deletion.
    pub fn doc_bytes(&self) -> Option<&[u8]>
        ensures bytes { option_map (λ bytes. bytes.now) result ≡ option_map spelling self.now.doc }
        ensures document { IfSome self.now.doc IsDocument }
    {
        if self.doc_length == 0 {
            return None;
        }
        let (doc, _) = self.run.as_slice().split_at(self.doc_length as usize);
        Some(spelled(doc))
    }

    /// What a search finds the document by, lent one after another; nothing of a deletion.
    pub fn terms(&self) -> Terms<'_>
        ensures { result ≡ self.now.terms }
    {
        if self.doc_length == 0 {
            return Terms::none();
        }
        let (doc, rest) = self.run.as_slice().split_at(self.doc_length as usize);
        Terms::of(self.id.as_str(), doc, rest)
    }

    /// A copy of the document. `None` for a deletion.
    pub fn clone_doc(&self, alloc: Global) -> Result<Option<Doc>, AllocError>
        ensures { IfOk result (λ doc. doc ≡ self.now.doc) }
    {
        if self.doc_length == 0 {
            return Ok(None);
        }
        let (doc, _) = self.run.as_slice().split_at(self.doc_length as usize);
        Ok(Some(Doc::copied(alloc, doc)?))
    }

    /// The version as clients see it: that of a deletion is shown as its negative.
    pub fn shown(&self) -> i64
        ensures { result ≡ shown_version self.now }
    {
        if self.doc_length == 0 {
            return -self.version;
        }
        self.version
    }
}

// The spelling of a document, the number of its terms and their run.
fn joined(alloc: Global, doc: &[u8], terms: &TermRun) -> Result<Vec<u8>, AllocError>
    ensures items { IfOk result (λ run. run.items ≡ doc.now ++ (to_le_bytes w32 terms.now.count ++ terms.now.bytes.items)) }
    ensures fits { OnOk result (terms.now.count < 2 ^ 32) }
{
    let length = doc.len().saturating_add(terms.bytes.len());
    let mut run = Vec::with_capacity(alloc, length.saturating_add(4))?;
    run.extend_from_slice(doc)?;
    run.extend_from_slice(&terms.count.to_le_bytes())?;
    run.extend_from_slice(terms.bytes.as_slice())?;
    Ok(run)
}
