ghost use Rattle.std.proofs.Props.{props};
ghost use Rattle.sc_schema.specs.Raw.{AscendByName};

use sc_record::{List, Text};

/// A document as a request gives it: the members of a JSON object, which ascend by the bytes of their names, each name once.
#[derive(Drop)]
pub struct RawDoc {
    pub fields: List<RawField>,
    pub ghost ascend: { AscendByName fields } by { Prim.hlevel props },
}

/// A member of a document's object.
#[derive(Drop)]
pub struct RawField {
    pub name: Text,
    pub value: RawValue,
}

/// The value of a member.
#[derive(Debug, Drop)]
pub enum RawValue {
    /// A value that is no object with exactly one key.
    Plain(RawFlat),
    /// An object with exactly one key, which names the change, and its value.
    Change { op: Text, value: RawFlat },
}

/// A value or a list of values.
#[derive(Debug, Drop)]
pub enum RawFlat {
    One(RawOne),
    Many(List<RawOne>),
}

/// One value.
#[derive(Debug, Drop)]
pub enum RawOne {
    Null,
    Flag(bool),
    /// A whole number of 64 signed bits, but for `-0`.
    Number(i64),
    /// Any other number, an object, or a list inside a list.
    Other,
    Text(Text),
}
