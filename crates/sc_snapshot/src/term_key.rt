ghost use Rattle.std.specs.Prelude.{◌≡◌, ◌&&◌, [], ◌∷◌, length, min, take, Some, refl, IfOk};
ghost use Rattle.std.specs.Cmp.{partial_equiv_from_equiv, po};
ghost use Rattle.std.specs.Cmp.Derive.{tie, then_tied};
ghost use Rattle.std.specs.Cmp.Lexicographic.{slice_cmp, bytes_decides, nat_list_eq_equiv, texts_ties};
ghost use Rattle.std.specs.Hash.{and-Alike, on_Alike, same_Alike};
ghost use Rattle.std.specs.Ordering.{nat_cmp};
ghost use Rattle.std.specs.Str.{bytes_eq};
ghost use Rattle.std.proofs.lemmas.Cmp.{nat_list_cmp_total, and_equiv, on_equiv, on_total, then_total};
ghost use Rattle.sc_keys.proofs.FrontLemmas.{front_number-first};
ghost use Rattle.sc_keys.specs.Heads.{front_number};
ghost use Rattle.sc_record.specs.TermRuns.{term_of};
ghost use Rattle.sc_snapshot.specs.Keys.{key_cmp};

use sc_keys::{Head, Key, Steps, front_number};
use sc_record::{Term, TermRef};
use std::alloc::{AllocError, Global};
use std::cmp::Ordering;
use std::hash::{Hash, Hasher};
use std::sync::ledger::Ledger;

/// How many bytes a rank has, and how many of them are of the text.
const RANK_LENGTH: usize = 16;

const RANKED_TEXT_LENGTH: usize = 10;

/// A term as a key of posting lists. Keys ascend by their texts and then by their fields, since few keys have one text and many one field.
#[derive(Debug, Drop)]
pub struct TermKey {
    pub term: Term,
}

impl TermKey {
    /// The key of a term, which shares its texts. The only error is that memory was refused.
    #[inline(always)]
    pub fn of(term: &Term) -> Result<TermKey, AllocError>
        ensures { IfOk result (λ key. key.term ≡ term.now) }
    {
        Ok(TermKey {
            term: Term {
                field: term.field.clone()?,
                key: term.key.clone()?,
            },
        })
    }

    /// The key of a term that is lent, which has texts of its own. The only error is that memory was refused.
    #[inline(always)]
    pub(crate) fn of_lent(alloc: Global, term: &TermRef<'_>) -> Result<TermKey, AllocError>
        ensures { IfOk result (λ key. key.term ≡ term_of term.now) }
    {
        Ok(TermKey {
            term: term.to_term(alloc)?,
        })
    }
}

impl PartialEq for TermKey {
    ghost eq = { λ a b. bytes_eq a.term.key b.term.key && bytes_eq a.term.field b.term.field };

    ghost laws = { partial_equiv_from_equiv (and_equiv (on_equiv (λ a. a.term.key) nat_list_eq_equiv) (on_equiv (λ a. a.term.field) nat_list_eq_equiv)) };

    fn eq(&self, other: &TermKey) -> bool {
        self.term.key == other.term.key && self.term.field == other.term.field
    }
}

impl Eq for TermKey {
    ghost laws = { and_equiv (on_equiv (λ a. a.term.key) nat_list_eq_equiv) (on_equiv (λ a. a.term.field) nat_list_eq_equiv) };
}

impl PartialOrd for TermKey {
    ghost partial_cmp = { λ a b. Some (key_cmp a.term b.term) };

    ghost laws = { po (then_total (on_total (λ a. a.term.key) nat_list_cmp_total) (on_total (λ a. a.term.field) nat_list_cmp_total)) (then_tied
        (tie (λ a b. slice_cmp nat_cmp a.term.key b.term.key) (λ a b. texts_ties a.term.key b.term.key))
        (tie (λ a b. slice_cmp nat_cmp a.term.field b.term.field) (λ a b. texts_ties a.term.field b.term.field))).ties };

    fn partial_cmp(&self, other: &TermKey) -> Option<Ordering> {
        Some(self.cmp(other))
    }
}

impl Ord for TermKey {
    ghost cmp = { λ a b. key_cmp a.term b.term };

    ghost total = { then_total (on_total (λ a. a.term.key) nat_list_cmp_total) (on_total (λ a. a.term.field) nat_list_cmp_total) };

    ghost matches_partial_cmp = { λ a b. refl };

    ghost matches_eq = { (then_tied
        (tie (λ a b. slice_cmp nat_cmp a.term.key b.term.key) (λ a b. texts_ties a.term.key b.term.key))
        (tie (λ a b. slice_cmp nat_cmp a.term.field b.term.field) (λ a b. texts_ties a.term.field b.term.field))).ties };

    fn cmp(&self, other: &TermKey) -> Ordering {
        match self.term.key.cmp(&other.term.key) {
            Ordering::Less => Ordering::Less,
            Ordering::Equal => self.term.field.cmp(&other.term.field),
            Ordering::Greater => Ordering::Greater,
        }
    }
}

impl Hash for TermKey {
    ghost hash_input = { λ a. a.term.key ∷ a.term.field ∷ [] };

    ghost respects_eq = { (and-Alike
        (on_Alike (λ a. a.term.key) (same_Alike (λ text. text ∷ []) bytes_decides))
        (on_Alike (λ a. a.term.field) (same_Alike (λ text. text ∷ []) bytes_decides))).fed };

    fn hash<H: Hasher>(&self, state: &mut H) {
        state.write(self.term.key.as_str().as_bytes());
        state.write(self.term.field.as_str().as_bytes());
    }
}

impl Key for TermKey {
    ghost order = { λ a b. key_cmp a.term b.term };

    ghost heading = { λ a. front_number 8 a.term.key };

    fn compare<L: Ledger>(&self, other: &Self, steps: &mut Steps<L>) -> Ordering {
        steps.tick();
        self.cmp(other)
    }

    /// The first bytes of the text.
    #[inline]
    fn head(&self) -> Head {
        Head::new(front_number(self.term.key.as_str().as_bytes()))
    }

    /// The first bytes of the text and of the field: of two terms the lesser one has the lesser number, but where long texts begin alike.
    fn rank(&self) -> u128 {
        let mut bytes = [0; RANK_LENGTH];
        put_front(&mut bytes[..RANKED_TEXT_LENGTH], self.term.key.as_str());
        put_front(&mut bytes[RANKED_TEXT_LENGTH..], self.term.field.as_str());
        u128::from_be_bytes(bytes)
    }

    #[inline(always)]
    fn share(&self) -> Result<Self, AllocError> {
        let key = TermKey::of(&self.term)?;
        Ok(key)
    }

    ghost total = { then_total (on_total (λ a. a.term.key) nat_list_cmp_total) (on_total (λ a. a.term.field) nat_list_cmp_total) };

    ghost goes_with = { λ x y fits less. front_number-first 8 x.term.key y.term.key (slice_cmp nat_cmp x.term.field y.term.field) fits less };
}

// Puts as much of the text in the room as it has place for.
fn put_front(room: &mut [u8], text: &str)
    ensures { take (min (length room.old) (length text.now)) room.new ≡ take (min (length room.old) (length text.now)) text.now }
{
    let count = room.len().min(text.len());
    room[..count].copy_from_slice(&text.as_bytes()[..count]);
}
