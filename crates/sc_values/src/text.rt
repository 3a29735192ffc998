ghost use Rattle.std.specs.Prelude.{◌≡◌, Some, refl, IfOk, IfSome};
ghost use Rattle.std.specs.String.{string_bytes};
ghost use Rattle.std.specs.Cmp.{partial_equiv_from_equiv};
ghost use Rattle.std.specs.Cmp.Lexicographic.{slice_cmp, texts_po, texts_ties, nat_list_cmp_total, nat_list_eq_equiv};
ghost use Rattle.std.specs.Ordering.{nat_cmp};
ghost use Rattle.std.specs.Str.{bytes_eq};

use crate::copy::CloneIn;
use crate::short::Short;
use arrayvec::ArrayString;
use std::alloc::{AllocError, Global};
use std::cmp::Ordering;
use std::fmt;
use std::marker::Model;
use std::sync::Arc;

/// The most bytes of a text that is shared as one piece of memory of 48 bytes, with its header and that of the allocator.
const MAX_SMALL_LENGTH: usize = 24;

/// The most bytes of a text that is shared as one piece of memory of 64 bytes.
const MAX_MEDIUM_LENGTH: usize = 40;

/// The most bytes of a text that is shared as one piece of memory of 96 bytes.
const MAX_LARGE_LENGTH: usize = 72;

/// The most bytes of a text that is shared as one piece of memory of 128 bytes.
const MAX_HUGE_LENGTH: usize = 104;

/// How a text is kept.
#[derive(Drop)]
enum Kept {
    /// In the value itself.
    Short(Short),
    /// Shared by all copies of the text, in one piece of memory.
    Small(Arc<ArrayString<MAX_SMALL_LENGTH>>),
    /// The same, in a larger piece.
    Medium(Arc<ArrayString<MAX_MEDIUM_LENGTH>>),
    /// The same, in a larger piece still.
    Large(Arc<ArrayString<MAX_LARGE_LENGTH>>),
    /// The same, in the largest piece.
    Huge(Arc<ArrayString<MAX_HUGE_LENGTH>>),
    /// Shared by all copies of the text, in two pieces of memory.
    Long(Arc<String>),
}

/// A text that is kept, which contracts see as its UTF-8 bytes. It takes 16 bytes: one of at most 14 bytes lies in it, and a
/// longer one is shared with its copies, in one piece of memory up to 104 bytes.
#[derive(Drop)]
pub struct Text {
    kept: Kept,
}

impl Model for Text {
    ghost use Rattle.std.specs.Prelude.{List, ℕ};
    ghost use Rattle.sc_values.specs.Texts.{text_bytes};

    ghost Value = { List ℕ };

    ghost view = { λ a. text_bytes a.kept };
}

impl Kept {
    ghost use Rattle.sc_values.specs.Texts.{text_bytes};

    /// A copy of the text, where it has at most 104 bytes.
    fn within(alloc: Global, text: &str) -> Result<Option<Kept>, AllocError>
        ensures { IfOk result (λ kept. IfSome kept (λ kept. text_bytes kept ≡ text.now)) }
    {
        if let Some(short) = Short::new(text) {
            return Ok(Some(Kept::Short(short)));
        }
        if let Ok(small) = ArrayString::from(text) {
            return Ok(Some(Kept::Small(Arc::new(alloc, small)?)));
        }
        if let Ok(medium) = ArrayString::from(text) {
            return Ok(Some(Kept::Medium(Arc::new(alloc, medium)?)));
        }
        if let Ok(large) = ArrayString::from(text) {
            return Ok(Some(Kept::Large(Arc::new(alloc, large)?)));
        }
        match ArrayString::from(text) {
            Ok(huge) => Ok(Some(Kept::Huge(Arc::new(alloc, huge)?))),
            Err(_) => Ok(None),
        }
    }
}

impl Text {
    /// A copy of the text.
    #[inline]
    pub fn new(alloc: Global, text: &str) -> Result<Text, AllocError>
        ensures { IfOk result (λ kept. kept ≡ text.now) }
    {
        match Short::new(text) {
            Some(short) => Ok(Text {
                kept: Kept::Short(short),
            }),
            None => Text::shared(alloc, text),
        }
    }

    // The same, where it does not lie in the value.
    #[inline(never)]
    fn shared(alloc: Global, text: &str) -> Result<Text, AllocError>
        ensures { IfOk result (λ kept. kept ≡ text.now) }
    {
        let kept = match Kept::within(alloc, text)? {
            Some(kept) => kept,
            None => Kept::Long(Arc::new(alloc, String::from_str(alloc, text)?)?),
        };
        Ok(Text { kept })
    }

    /// The same text, with no copy of one of more than 104 bytes.
    pub fn from_string(alloc: Global, text: String) -> Result<Text, AllocError>
        ensures { IfOk result (λ kept. kept ≡ string_bytes text) }
    {
        let kept = match Kept::within(alloc, text.as_str())? {
            Some(kept) => kept,
            None => Kept::Long(Arc::new(alloc, text)?),
        };
        Ok(Text { kept })
    }

    #[inline]
    pub fn as_str(&self) -> &str
        ensures { result.now ≡ self.now }
    {
        match &self.kept {
            Kept::Short(short) => short.as_str(),
            Kept::Small(small) => small.as_str(),
            Kept::Medium(medium) => medium.as_str(),
            Kept::Large(large) => large.as_str(),
            Kept::Huge(huge) => huge.as_str(),
            Kept::Long(long) => long.as_str(),
        }
    }

    // Whether the texts are the same, however they are kept. It and `order` stand apart from `eq` and `cmp`, which compare two short
    // texts where they are called.
    #[inline(never)]
    fn is_same(&self, other: &Text) -> bool
        ensures { result ≡ bytes_eq self.now other.now }
    {
        self.as_str() == other.as_str()
    }

    // How the texts compare, however they are kept.
    #[inline(never)]
    fn order(&self, other: &Text) -> Ordering
        ensures { result ≡ slice_cmp nat_cmp self.now other.now }
    {
        self.as_str().cmp(other.as_str())
    }
}

impl Clone for Text {
    ghost is_clone = { λ original copy. copy ≡ original };

    #[inline]
    fn clone(&self) -> Result<Text, AllocError> {
        let kept = match &self.kept {
            Kept::Short(short) => Kept::Short(short.copy()),
            Kept::Small(small) => Kept::Small(Arc::try_clone(small)?),
            Kept::Medium(medium) => Kept::Medium(Arc::try_clone(medium)?),
            Kept::Large(large) => Kept::Large(Arc::try_clone(large)?),
            Kept::Huge(huge) => Kept::Huge(Arc::try_clone(huge)?),
            Kept::Long(long) => Kept::Long(Arc::try_clone(long)?),
        };
        Ok(Text { kept })
    }
}

impl CloneIn for Text {
    fn clone_in(&self, _: Global) -> Result<Text, AllocError> {
        self.clone()
    }
}

impl fmt::Debug for Text {
    fn fmt<W: fmt::Write>(&self, f: &mut fmt::Formatter<W>) -> fmt::Result {
        fmt::Debug::fmt(&self.as_str(), f)
    }
}

impl fmt::Display for Text {
    fn fmt<W: fmt::Write>(&self, f: &mut fmt::Formatter<W>) -> fmt::Result {
        f.write_str(self.as_str())
    }
}

impl PartialEq for Text {
    ghost eq = { bytes_eq };

    ghost laws = { partial_equiv_from_equiv nat_list_eq_equiv };

    #[inline]
    fn eq(&self, other: &Text) -> bool {
        match (&self.kept, &other.kept) {
            (Kept::Short(short), Kept::Short(other)) => short.is_same(other),
            _ => self.is_same(other),
        }
    }
}

impl Eq for Text {
    ghost laws = { nat_list_eq_equiv };
}

impl PartialOrd for Text {
    ghost partial_cmp = { λ a b. Some (slice_cmp nat_cmp a b) };

    ghost laws = { texts_po };

    #[inline]
    fn partial_cmp(&self, other: &Text) -> Option<Ordering> {
        Some(self.cmp(other))
    }
}

impl Ord for Text {
    ghost cmp = { slice_cmp nat_cmp };

    ghost total = { nat_list_cmp_total };

    ghost matches_partial_cmp = { λ a b. refl };

    ghost matches_eq = { texts_ties };

    #[inline]
    fn cmp(&self, other: &Text) -> Ordering {
        match (&self.kept, &other.kept) {
            (Kept::Short(short), Kept::Short(other)) => short.order(other),
            _ => self.order(other),
        }
    }
}
