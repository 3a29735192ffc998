ghost use Rattle.std.specs.Prelude.{◌≡◌, Some, refl, ◌≤◌, ◌<◌, ◌↔◌, length, IfOk};
ghost use Rattle.sc_record.specs.Ids.{id_limit};
ghost use Rattle.std.specs.Cmp.{partial_equiv_from_equiv};
ghost use Rattle.std.specs.Cmp.Lexicographic.{slice_cmp, texts_po, texts_ties, nat_list_cmp_total, nat_list_eq_equiv};
ghost use Rattle.std.specs.Ordering.{nat_cmp};
ghost use Rattle.std.specs.Str.{bytes_eq};

use sc_values::{CloneIn, Text};
use std::alloc::{AllocError, Global};
use std::cmp::Ordering;
use std::marker::Model;
use thiserror::Error;

/// The most bytes that an id has.
pub const MAX_ID_LENGTH: usize = 512;

/// What names a document: a text that is not empty and not too long, which contracts see as its UTF-8 bytes.
#[derive(Clone, Debug, Drop)]
pub struct Id {
    text: Text,
}

/// Why a text became no id.
#[derive(Clone, Copy, Debug, PartialEq, Eq, Error)]
pub enum IdFault {
    #[error("an id has at least one byte")]
    Empty,
    #[error("an id has at most {MAX_ID_LENGTH} bytes")]
    TooLong,
    #[error("out of memory")]
    Memory,
}

impl Model for Id {
    ghost use Rattle.std.specs.Prelude.{List, ℕ, length, ◌≤◌, ◌<◌};
    ghost use Rattle.sc_record.specs.Ids.{id_limit};

    ghost Value = { List ℕ };

    ghost view = { λ a. a.text };

    ghost invariant = { λ a.
        (0 < length a.text) × (length a.text ≤ id_limit) };
}

impl Id {
    /// A copy of the text, where its length in bytes is that of an id.
    pub fn new(alloc: Global, text: &str) -> Result<Id, IdFault>
        ensures value { IfOk result (λ id. id ≡ text.now) }
        ensures empty { (result ≡ Err IdFault.Empty) ↔ (length text.now ≡ 0) }
        ensures too_long { (result ≡ Err IdFault.TooLong) ↔ (id_limit < length text.now) }
    {
        if text.is_empty() {
            return Err(IdFault::Empty);
        }
        if text.len() > MAX_ID_LENGTH {
            return Err(IdFault::TooLong);
        }
        match Text::new(alloc, text) {
            Ok(text) => Ok(Id { text }),
            Err(_) => Err(IdFault::Memory),
        }
    }

    pub fn as_str(&self) -> &str
        ensures value { result.now ≡ self.now }
        ensures not_empty { 0 < length self.now }
        ensures bounded { length self.now ≤ id_limit }
    {
        self.text.as_str()
    }

    /// The id as a text, which its copies share.
    pub fn as_text(&self) -> &Text
        ensures { result.now ≡ self.now }
    {
        &self.text
    }
}

impl CloneIn for Id {
    fn clone_in(&self, alloc: Global) -> Result<Id, AllocError> {
        Ok(Id {
            text: self.text.clone_in(alloc)?,
        })
    }
}

impl PartialEq for Id {
    ghost eq = { bytes_eq };

    ghost laws = { partial_equiv_from_equiv nat_list_eq_equiv };

    fn eq(&self, other: &Id) -> bool {
        self.text == other.text
    }
}

impl Eq for Id {
    ghost laws = { nat_list_eq_equiv };
}

impl PartialOrd for Id {
    ghost partial_cmp = { λ a b. Some (slice_cmp nat_cmp a b) };

    ghost laws = { texts_po };

    fn partial_cmp(&self, other: &Id) -> Option<Ordering> {
        Some(self.cmp(other))
    }
}

impl Ord for Id {
    ghost cmp = { slice_cmp nat_cmp };

    ghost total = { nat_list_cmp_total };

    ghost matches_partial_cmp = { λ a b. refl };

    ghost matches_eq = { texts_ties };

    fn cmp(&self, other: &Id) -> Ordering {
        self.text.cmp(&other.text)
    }
}
