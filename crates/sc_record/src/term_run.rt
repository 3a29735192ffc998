ghost use Rattle.std.specs.Prelude.{◌≡◌, [], drop, IfOk, IsSome};
ghost use Rattle.std.specs.Int.{w16, w32};
ghost use Rattle.std.specs.Iterator.{YieldsFirstBy, item_count};
ghost use Rattle.sc_spelling.specs.Reading.{Gives, read_of};
ghost use Rattle.sc_record.specs.TermRuns.{placed_at, key_at, name_or, field_term_at, term_at, terms_at, term_of};
ghost use Rattle.sc_record.specs.WriteRuns.{counted_terms_at};

use crate::term::Term;
use sc_spelling::{known_cut, known_name_at, known_text_at, u32_at};
use sc_values::Text;
use std::alloc::{AllocError, Global};
use std::marker::Model;

/// The mark of a key that follows with its length. A lower mark is the length of the key that follows.
pub(crate) const LONG_KEY: u8 = 251;

/// The mark of a key that stands in the document.
pub(crate) const PLACED_KEY: u8 = 252;

/// The mark of a field whose name follows.
pub(crate) const NAME: u8 = 253;

/// The mark of a field whose name stands in the document.
pub(crate) const PLACED_NAME: u8 = 254;

/// The mark of the term of the id.
pub(crate) const ID: u8 = 255;

/// The terms of a document as bytes, which are read beside its id and its spelling.
#[derive(Drop)]
pub struct TermRun {
    pub(crate) count: u32,
    pub(crate) bytes: Vec<u8>,
}

/// A term, lent.
#[derive(Clone, Copy, Debug)]
pub struct TermRef<'a> {
    pub field: &'a str,
    pub key: &'a str,
}

impl<'a> TermRef<'a> {
    /// A copy of the term.
    pub fn to_term(&self, alloc: Global) -> Result<Term, AllocError>
        ensures { IfOk result (λ term. term ≡ term_of self.now) }
    {
        Ok(Term {
            field: Text::new(alloc, self.field)?,
            key: Text::new(alloc, self.key)?,
        })
    }
}

/// The terms of a write that are still to be lent, in their order, which contracts see as the list of them.
#[derive(Drop)]
pub struct Terms<'a> {
    pub(crate) id: &'a str,
    pub(crate) doc: &'a [u8],
    pub(crate) field: &'a str,
    pub(crate) left: u32,
    pub(crate) rest: &'a [u8],
}

impl<'a> Model for Terms<'a> {
    ghost use Rattle.std.specs.Prelude.{List, IsSome};
    ghost use Rattle.sc_record.specs.declared.term.Term.{Term};

    ghost Value = { List Term };

    ghost use Rattle.sc_spelling.specs.Reading.{read_of};
    ghost use Rattle.sc_record.specs.TermRuns.{terms_at};

    ghost view = { λ a. read_of (terms_at a.field.now (record { id = a.id.now; doc = a.doc.now }) a.left a.rest.now) };

    ghost invariant = { λ a. IsSome (terms_at a.field.now (record { id = a.id.now; doc = a.doc.now }) a.left a.rest.now) };
}

impl<'a> Terms<'a> {
    /// No terms.
    pub fn none() -> Terms<'a>
        ensures { result ≡ [] }
    {
        Terms {
            id: "",
            doc: &[],
            field: "",
            left: 0,
            rest: &[],
        }
    }

    // The terms whose number and whose run the bytes are.
    #[tactic(auto, unfolding(crate::specs::WriteRuns::counted_terms_at))]
    pub(crate) fn of(id: &'a str, doc: &'a [u8], bytes: &'a [u8]) -> Terms<'a>
        requires { IsSome (counted_terms_at (record { id = id.now; doc = doc.now }) bytes.now) }
        ensures { result ≡ read_of (counted_terms_at (record { id = id.entry.now; doc = doc.entry.now }) bytes.entry.now) }
    {
        match u32_at(bytes) {
            Some((left, rest)) => Terms {
                id,
                doc,
                field: "",
                left,
                rest,
            },
            None => Terms::none(),
        }
    }
}

impl<'a> Iterator for Terms<'a> {
    type Item = TermRef<'a>;

    ghost next_gives = { YieldsFirstBy term_of (λ rest. rest) };

    ghost remaining = { item_count (λ rest. rest) };

    fn next(&mut self) -> Option<TermRef<'a>> {
        if self.left == 0 {
            return None;
        }
        let (term, rest) = term_at(self.field, self.id, self.doc, self.rest)?;
        self.field = term.field;
        self.left -= 1;
        self.rest = rest;
        Some(term)
    }
}

// The term that is known to begin the bytes, and the bytes after it.
#[inline(always)]
#[tactic(auto, unfolding(crate::specs::TermRuns::term_at))]
fn term_at<'a>(
    field: &'a str,
    id: &'a str,
    doc: &'a [u8],
    bytes: &'a [u8],
) -> Option<(TermRef<'a>, &'a [u8])>
    requires { IsSome (term_at field.now (record { id = id.now; doc = doc.now }) bytes.now) }
    ensures { Gives (λ x. (term_of x.0, x.1.now)) result
        (term_at field.entry.now (record { id = id.entry.now; doc = doc.entry.now }) bytes.entry.now) }
{
    match bytes {
        [] => None,
        [mark, rest @ ..] => {
            if *mark == ID {
                let term = TermRef {
                    field: "id",
                    key: id,
                };
                return Some((term, rest));
            }
            field_term_at(field, doc, bytes)
        }
    }
}

// The key of a field that is known to begin the bytes, and the bytes after it.
#[inline(always)]
#[tactic(auto, unfolding(crate::specs::TermRuns::field_term_at))]
fn field_term_at<'a>(
    field: &'a str,
    doc: &'a [u8],
    bytes: &'a [u8],
) -> Option<(TermRef<'a>, &'a [u8])>
    requires { IsSome (field_term_at field.now doc.now bytes.now) }
    ensures { Gives (λ x. (term_of x.0, x.1.now)) result (field_term_at field.entry.now doc.entry.now bytes.entry.now) }
{
    let (field, rest) = name_or(field, doc, bytes)?;
    let (key, rest) = key_at(doc, rest)?;
    Some((TermRef { field, key }, rest))
}

// The name of a field that is known to begin the bytes, or this one, and the bytes after it.
#[inline(always)]
#[tactic(auto, unfolding(crate::specs::TermRuns::name_or))]
fn name_or<'a>(name: &'a str, doc: &'a [u8], bytes: &'a [u8]) -> Option<(&'a str, &'a [u8])>
    requires { IsSome (name_or name.now doc.now bytes.now) }
    ensures { Gives (λ x. (x.0.now, x.1.now)) result (name_or name.entry.now doc.entry.now bytes.entry.now) }
{
    match bytes {
        [] => None,
        [mark, rest @ ..] => match *mark {
            NAME => known_name_at(rest),
            PLACED_NAME => placed_name_at(doc, rest),
            _ => Some((name, bytes)),
        },
    }
}

// The key that is known to begin the bytes, and the bytes after it.
#[inline(always)]
#[tactic(auto, unfolding(crate::specs::TermRuns::key_at))]
fn key_at<'a>(doc: &'a [u8], bytes: &'a [u8]) -> Option<(&'a str, &'a [u8])>
    requires { IsSome (key_at doc.now bytes.now) }
    ensures { Gives (λ x. (x.0.now, x.1.now)) result (key_at doc.entry.now bytes.entry.now) }
{
    match bytes {
        [] => None,
        [mark, rest @ ..] => {
            if *mark < LONG_KEY {
                return known_cut(*mark as usize, rest);
            }
            match *mark {
                LONG_KEY => known_text_at(rest),
                PLACED_KEY => placed_key_at(doc, rest),
                _ => None,
            }
        }
    }
}

// The name in the document at the place that the bytes begin with, and the bytes after that.
#[tactic(auto, unfolding(crate::specs::TermRuns::placed_at))]
fn placed_name_at<'a>(doc: &'a [u8], bytes: &'a [u8]) -> Option<(&'a str, &'a [u8])>
    requires { IsSome (placed_at w16 doc.now bytes.now) }
    ensures { Gives (λ x. (x.0.now, x.1.now)) result (placed_at w16 doc.entry.now bytes.entry.now) }
{
    let (place, rest) = u32_at(bytes)?;
    let (name, _) = known_name_at(from_place(doc, place))?;
    Some((name, rest))
}

// The key in the document at the place that the bytes begin with, and the bytes after that.
#[tactic(auto, unfolding(crate::specs::TermRuns::placed_at))]
fn placed_key_at<'a>(doc: &'a [u8], bytes: &'a [u8]) -> Option<(&'a str, &'a [u8])>
    requires { IsSome (placed_at w32 doc.now bytes.now) }
    ensures { Gives (λ x. (x.0.now, x.1.now)) result (placed_at w32 doc.entry.now bytes.entry.now) }
{
    let (place, rest) = u32_at(bytes)?;
    let (key, _) = known_text_at(from_place(doc, place))?;
    Some((key, rest))
}

// The bytes from a place on.
pub(crate) fn from_place(bytes: &[u8], place: u32) -> &[u8]
    ensures { result.now ≡ drop place bytes.now }
{
    let place = place as usize;
    if place > bytes.len() {
        return &[];
    }
    &bytes[place..]
}
