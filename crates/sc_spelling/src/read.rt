ghost use Rattle.std.specs.Prelude.{◌≡◌, List, ℕ, ◌++◌, IfOk};
ghost use Rattle.sc_values.specs.declared.field.Field.{Field};
ghost use Rattle.sc_values.specs.Fields.{IsDocument};
ghost use Rattle.sc_spelling.specs.Spellings.{spelling};

use crate::field::Fields;
use sc_values::{Field, List};
use std::alloc::{AllocError, Global};
use thiserror::Error;

/// Why no document was read.
#[derive(Clone, Copy, Debug, PartialEq, Eq, Error)]
pub enum FieldsFault {
    /// The bytes begin with the spelling of no document.
    #[error("the bytes spell no document")]
    NotFields,
    #[error("out of memory")]
    Memory,
}

/// A copy of the document whose spelling the bytes begin with, and the bytes after it.
pub fn read_fields(alloc: Global, bytes: &[u8]) -> Result<(List<Field>, &[u8]), FieldsFault>
    ensures found { IfOk result (λ read. IsDocument read.0 × (bytes.now ≡ spelling read.0 ++ read.1.now)) }
    ensures refused { result ≡ Err FieldsFault.NotFields → (fields : List Field) (more : List ℕ) → IsDocument fields
        → bytes.now ≡ spelling fields ++ more → ⊥ }
{
    let Some((fields, rest)) = Fields::read(bytes) else {
        return Err(FieldsFault::NotFields);
    };
    match fields.to_fields(alloc) {
        Ok(copies) => Ok((copies, rest)),
        Err(AllocError) => Err(FieldsFault::Memory),
    }
}
