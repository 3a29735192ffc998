ghost use Rattle.std.specs.Prelude.{◌≡◌, length, IfOk, IsSome};
ghost use Rattle.std.specs.Iterator.{YieldsFirstBy, item_count};
ghost use Rattle.sc_spelling.specs.Lent.{value_of};
ghost use Rattle.sc_spelling.specs.Reading.{Gives, value_at, values_at, read_of, rest_of};

use crate::known::known_value_at;
use crate::number::{flag_at, text_at, u32_at, u64_at};
use sc_values::{Kind, List, Text, Value};
use std::alloc::{AllocError, Global};
use std::marker::Model;

/// One value of a field, lent.
#[derive(Clone, Copy, Debug)]
pub enum ValueRef<'a> {
    Text(&'a str),
    Int(i32),
    Long(i64),
    Flag(bool),
}

impl<'a> ValueRef<'a> {
    /// A copy of the value.
    pub fn to_value(&self, alloc: Global) -> Result<Value, AllocError>
        ensures { IfOk result (λ value. value ≡ value_of self.now) }
    {
        match self {
            ValueRef::Text(text) => Ok(Value::Text(Text::new(alloc, text)?)),
            ValueRef::Int(number) => Ok(Value::Int(*number)),
            ValueRef::Long(number) => Ok(Value::Long(*number)),
            ValueRef::Flag(flag) => Ok(Value::Flag(*flag)),
        }
    }
}

/// The values of a field that are still to be lent, in their order, which contracts see as the list of them.
#[derive(Drop)]
pub struct Values<'a> {
    kind: Kind,
    left: u32,
    rest: &'a [u8],
}

impl<'a> Model for Values<'a> {
    ghost use Rattle.std.specs.Prelude.{List, IsSome};
    ghost use Rattle.sc_values.specs.declared.value.Value.{Value as FieldValue};

    ghost Value = { List FieldValue };

    ghost use Rattle.sc_spelling.specs.Reading.{values_at, read_of};

    ghost view = { λ a. read_of (values_at a.kind a.left a.rest.now) };

    ghost invariant = { λ a. IsSome (values_at a.kind a.left a.rest.now) };
}

impl<'a> Values<'a> {
    // The values that the bytes begin with, so many of this kind.
    pub(crate) fn new(kind: Kind, count: u32, bytes: &'a [u8]) -> Values<'a>
        requires { IsSome (values_at kind count bytes.now) }
        ensures { result ≡ read_of (values_at kind count bytes.entry.now) }
    {
        Values {
            kind,
            left: count,
            rest: bytes,
        }
    }

    /// How many values are left.
    pub fn len(&self) -> usize
        ensures { result ≡ length self.now }
    {
        self.left as usize
    }

    /// How many bytes are left of those that the document was read from, from where the next value is spelled.
    pub fn bytes_left(&self) -> usize {
        self.rest.len()
    }

    /// Copies of the values.
    pub fn to_values(self, alloc: Global) -> Result<List<Value>, AllocError>
        ensures { IfOk result (λ copies. copies ≡ self.entry) }
    {
        let mut copies = List::new(alloc);
        for value in self {
            copies.push(value.to_value(alloc)?)?;
        }
        Ok(copies)
    }
}

impl<'a> Iterator for Values<'a> {
    type Item = ValueRef<'a>;

    ghost next_gives = { YieldsFirstBy value_of (λ rest. rest) };

    ghost remaining = { item_count (λ rest. rest) };

    fn next(&mut self) -> Option<ValueRef<'a>> {
        if self.left == 0 {
            return None;
        }
        let (value, rest) = known_value_at(self.kind, self.rest)?;
        self.left -= 1;
        self.rest = rest;
        Some(value)
    }
}

// The value of this kind that the bytes begin with, and the bytes after it.
#[tactic(auto, unfolding(crate::specs::Reading::value_at))]
fn value_at(kind: Kind, bytes: &[u8]) -> Option<(ValueRef<'_>, &[u8])>
    ensures { Gives (λ x. (value_of x.0, x.1.now)) result (value_at kind bytes.now) }
{
    match kind {
        Kind::Str | Kind::Words => {
            let (text, rest) = text_at(bytes)?;
            Some((ValueRef::Text(text), rest))
        }
        Kind::Int => {
            let (number, rest) = u32_at(bytes)?;
            Some((ValueRef::Int(number.cast_signed()), rest))
        }
        Kind::Long => {
            let (number, rest) = u64_at(bytes)?;
            Some((ValueRef::Long(number.cast_signed()), rest))
        }
        Kind::Flag => {
            let (flag, rest) = flag_at(bytes)?;
            Some((ValueRef::Flag(flag), rest))
        }
    }
}

// The bytes after so many values of this kind, where the bytes begin with them.
pub(crate) fn skip_values(kind: Kind, count: u32, bytes: &[u8]) -> Option<&[u8]>
    ensures { Gives (λ x. x.now) result (rest_of (values_at kind count bytes.now)) }
{
    let mut rest = bytes;
    for _ in 0..count {
        let (_, after) = value_at(kind, rest)?;
        rest = after;
    }
    Some(rest)
}
