ghost use Rattle.std.specs.Prelude.{◌≡◌, ◌++◌, List, ℕ, IfOk};
ghost use Rattle.sc_values.specs.Fields.{AreFields, IsDocument, values_of};
ghost use Rattle.sc_values.specs.declared.field.Field.{Field};
ghost use Rattle.sc_spelling.specs.Reading.{document_at, read_of};
ghost use Rattle.sc_spelling.specs.Spellings.{spelling};
ghost use Rattle.sc_record.specs.Documents.{IsWhole};

use sc_spelling::{Fields, FieldsFault, Values, fields_len, push_fields};
use sc_values::{CloneIn, Field};
use std::alloc::{AllocError, Global};
use std::marker::Model;

/// The most bytes that a document is spelled with.
const MAX_DOC_LENGTH: u64 = u32::MAX as u64;

/// A document without its id and its version, which contracts see as its fields. Their names ascend by their bytes, and each field
/// has values, of the kind that its name stands for. It is kept as its spelling, one run of bytes.
#[derive(Debug, Drop)]
pub struct Doc {
    bytes: Vec<u8>,
}

impl Model for Doc {
    ghost use Rattle.std.specs.Prelude.{List};
    ghost use Rattle.sc_values.specs.declared.field.Field.{Field};

    ghost Value = { List Field };

    ghost use Rattle.sc_record.specs.Documents.{IsWhole};
    ghost use Rattle.sc_spelling.specs.Reading.{document_at, read_of};

    ghost view = { λ a. read_of (document_at a.bytes.items) };

    ghost invariant = { λ a. IsWhole a.bytes.items };
}

impl Doc {
    /// A document of these fields. One whose spelling would be too long counts as want of memory.
    pub fn new(alloc: Global, fields: &[Field]) -> Result<Doc, AllocError>
        requires { AreFields fields.now }
        ensures { IfOk result (λ doc. doc ≡ fields.now) }
    {
        let length = match fields_len(fields) {
            Some(length) if length <= MAX_DOC_LENGTH => length,
            _ => return Err(AllocError),
        };
        let mut bytes = Vec::with_capacity(alloc, length as usize)?;
        push_fields(&mut bytes, fields)?;
        Ok(Doc { bytes })
    }

    /// A copy of the document whose spelling the bytes begin with, and the bytes after it. One that is too long counts as want of memory.
    pub fn read(alloc: Global, bytes: &[u8]) -> Result<(Doc, &[u8]), FieldsFault>
        ensures found { IfOk result (λ read. IsDocument read.0 × (bytes.now ≡ spelling read.0 ++ read.1.now)) }
        ensures refused { result ≡ Err FieldsFault.NotFields → (fields : List Field) (more : List ℕ) → IsDocument fields
            → bytes.now ≡ spelling fields ++ more → ⊥ }
    {
        let Some((_, rest)) = Fields::read(bytes) else {
            return Err(FieldsFault::NotFields);
        };
        let (own, rest) = bytes.split_at(bytes.len() - rest.len());
        if own.len() as u64 > MAX_DOC_LENGTH {
            return Err(FieldsFault::Memory);
        }
        match Doc::copied(alloc, own) {
            Ok(doc) => Ok((doc, rest)),
            Err(AllocError) => Err(FieldsFault::Memory),
        }
    }

    /// The document that the bytes spell, which are kept as they are.
    pub fn of_bytes(bytes: Vec<u8>) -> Doc
        requires { IsWhole bytes.items }
        ensures { result ≡ read_of (document_at bytes.items) }
    {
        Doc { bytes }
    }

    // A copy of the document that the bytes spell.
    pub(crate) fn copied(alloc: Global, bytes: &[u8]) -> Result<Doc, AllocError>
        requires { IsWhole bytes.now }
        ensures { IfOk result (λ doc. doc ≡ read_of (document_at bytes.now)) }
    {
        let mut copy = Vec::with_capacity(alloc, bytes.len())?;
        copy.extend_from_slice(bytes)?;
        Ok(Doc { bytes: copy })
    }

    /// The fields, lent one after another.
    pub fn fields(&self) -> Fields<'_>
        ensures value { result ≡ self.now }
        ensures document { IsDocument self.now }
    {
        Fields::of(spelled(self.bytes.as_slice()))
    }

    /// The values of the field of this name, lent.
    pub fn get(&self, name: &str) -> Option<Values<'_>>
        ensures { result ≡ values_of self.now name.now }
    {
        for field in self.fields() {
            if field.name == name {
                return Some(field.values);
            }
        }
        None
    }

    /// The document's spelling.
    pub fn bytes(&self) -> &[u8]
        ensures value { result.now ≡ spelling self.now }
        ensures document { read_of (document_at result.now) ≡ self.now }
        ensures whole { IsWhole result.now }
    {
        spelled(self.bytes.as_slice())
    }
}

impl CloneIn for Doc {
    fn clone_in(&self, alloc: Global) -> Result<Doc, AllocError> {
        Doc::copied(alloc, self.bytes.as_slice())
    }
}

// The same bytes, which are the spelling of the document that is read of them.
#[inline(always)]
pub(crate) fn spelled(bytes: &[u8]) -> &[u8]
    requires { IsWhole bytes.now }
    ensures same { result.now ≡ bytes.now }
    ensures spelling { bytes.now ≡ spelling (read_of (document_at bytes.now)) }
    ensures document { IsDocument (read_of (document_at bytes.now)) }
{
    bytes
}
