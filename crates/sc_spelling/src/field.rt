ghost use Rattle.std.specs.Prelude.{◌≡◌, List, ℕ, ◌++◌, [], length, IfOk, IfSome, IsSome, None};
ghost use Rattle.std.specs.Iterator.{YieldsFirstBy, item_count};
ghost use Rattle.sc_values.specs.declared.field.Field.{Field};
ghost use Rattle.sc_values.specs.Fields.{fits_count, IsDocument};
ghost use Rattle.sc_spelling.specs.Lent.{field_of};
ghost use Rattle.sc_spelling.specs.Reading.{Gives, field_at, field_after, fields_at, document_at, read_of, rest_of};
ghost use Rattle.sc_spelling.specs.Spellings.{spelling};

use crate::known::known_field_after;
use crate::number::{name_at, u32_at};
use crate::value::{Values, skip_values};
use sc_values::{Field, List, Text, kind_of};
use std::alloc::{AllocError, Global};
use std::marker::Model;

/// A field, lent: its name, and its values in their order.
#[derive(Drop)]
pub struct FieldRef<'a> {
    pub name: &'a str,
    pub values: Values<'a>,
}

impl<'a> FieldRef<'a> {
    /// A copy of the field.
    pub fn to_field(self, alloc: Global) -> Result<Field, AllocError>
        ensures { IfOk result (λ field. field ≡ field_of self.entry) }
    {
        let name = Text::new(alloc, self.name)?;
        let values = self.values.to_values(alloc)?;
        Ok(Field { name, values })
    }
}

/// The fields of a document that are still to be lent, in their order, which contracts see as the list of them.
#[derive(Drop)]
pub struct Fields<'a> {
    before: &'a str,
    left: u32,
    rest: &'a [u8],
}

impl<'a> Model for Fields<'a> {
    ghost use Rattle.std.specs.Prelude.{List, IsSome};
    ghost use Rattle.sc_values.specs.declared.field.Field.{Field};

    ghost Value = { List Field };

    ghost use Rattle.sc_spelling.specs.Reading.{fields_at, read_of};

    ghost view = { λ a. read_of (fields_at a.before.now a.left a.rest.now) };

    ghost invariant = { λ a. IsSome (fields_at a.before.now a.left a.rest.now) };
}

impl<'a> Fields<'a> {
    /// The fields of the document whose spelling the bytes begin with, and the bytes after it. `None` where they begin with that
    /// of no document.
    pub fn read(bytes: &'a [u8]) -> Option<(Fields<'a>, &'a [u8])>
        ensures found { IfSome result (λ read. IsDocument read.0 × (bytes.entry.now ≡ spelling read.0 ++ read.1.now)) }
        ensures none { result ≡ None → (fields : List Field) (more : List ℕ) → IsDocument fields
            → bytes.entry.now ≡ spelling fields ++ more → ⊥ }
    {
        Fields::at(bytes)
    }

    /// The fields of the document whose spelling the bytes begin with, which is known of them.
    #[tactic(auto, unfolding(crate::specs::Reading::document_at))]
    pub fn of(bytes: &'a [u8]) -> Fields<'a>
        requires { IsSome (document_at bytes.now) }
        ensures { result ≡ read_of (document_at bytes.entry.now) }
    {
        match u32_at(bytes) {
            Some((left, rest)) => Fields {
                before: "",
                left,
                rest,
            },
            None => Fields {
                before: "",
                left: 0,
                rest: bytes,
            },
        }
    }

    #[tactic(auto, unfolding(crate::specs::Reading::document_at))]
    fn at(bytes: &'a [u8]) -> Option<(Fields<'a>, &'a [u8])>
        ensures { Gives (λ x. (x.0, x.1.now)) result (document_at bytes.entry.now) }
    {
        let (count, rest) = u32_at(bytes)?;
        let after = skip_fields(count, rest)?;
        let fields = Fields {
            before: "",
            left: count,
            rest,
        };
        Some((fields, after))
    }

    /// How many fields are left.
    pub fn len(&self) -> usize
        ensures { result ≡ length self.now }
    {
        self.left as usize
    }

    /// Copies of the fields.
    pub fn to_fields(self, alloc: Global) -> Result<List<Field>, AllocError>
        ensures { IfOk result (λ copies. copies ≡ self.entry) }
    {
        let mut copies = List::new(alloc);
        for field in self {
            copies.push(field.to_field(alloc)?)?;
        }
        Ok(copies)
    }
}

impl<'a> Iterator for Fields<'a> {
    type Item = FieldRef<'a>;

    ghost next_gives = { YieldsFirstBy field_of (λ rest. rest) };

    ghost remaining = { item_count (λ rest. rest) };

    fn next(&mut self) -> Option<FieldRef<'a>> {
        if self.left == 0 {
            return None;
        }
        let (field, rest) = known_field_after(self.before, self.rest)?;
        self.before = field.name;
        self.left -= 1;
        self.rest = rest;
        Some(field)
    }
}

// The field that the bytes begin with, and the bytes after it.
#[tactic(auto, unfolding(crate::specs::Reading::field_at))]
fn field_at(bytes: &[u8]) -> Option<(FieldRef<'_>, &[u8])>
    ensures { Gives (λ x. (field_of x.0, x.1.now)) result (field_at bytes.now) }
{
    let (name, rest) = name_at(bytes)?;
    let (kind, many) = kind_of(name)?;
    let (count, rest) = u32_at(rest)?;
    if !fits_count(many, count) {
        return None;
    }
    let after = skip_values(kind, count, rest)?;
    let values = Values::new(kind, count, rest);
    Some((FieldRef { name, values }, after))
}

// Whether a field may have so many values: one at least, and one only where the field has one.
fn fits_count(many: bool, count: u32) -> bool
    ensures { result ≡ fits_count many count }
{
    if many { 0 < count } else { count == 1 }
}

// The field that the bytes begin with, where its name comes after this one, and the bytes after it.
#[tactic(auto, unfolding(crate::specs::Reading::field_after))]
fn field_after<'a>(before: &str, bytes: &'a [u8]) -> Option<(FieldRef<'a>, &'a [u8])>
    ensures { Gives (λ x. (field_of x.0, x.1.now)) result (field_after before.now bytes.entry.now) }
{
    let (field, rest) = field_at(bytes)?;
    if before.cmp(field.name).is_lt() {
        Some((field, rest))
    } else {
        None
    }
}

// The bytes after so many fields whose names ascend, where the bytes begin with them.
fn skip_fields(count: u32, bytes: &[u8]) -> Option<&[u8]>
    ensures { Gives (λ x. x.now) result (rest_of (fields_at [] count bytes.now)) }
{
    let mut before = "";
    let mut rest = bytes;
    for _ in 0..count {
        let (field, after) = field_after(before, rest)?;
        before = field.name;
        rest = after;
    }
    Some(rest)
}
