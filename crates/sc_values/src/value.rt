use crate::copy::CloneIn;
use crate::text::Text;
use std::alloc::{AllocError, Global};

/// One value of a field.
#[derive(Debug, Drop)]
pub enum Value {
    Text(Text),
    Int(i32),
    Long(i64),
    Flag(bool),
}

impl CloneIn for Value {
    fn clone_in(&self, alloc: Global) -> Result<Value, AllocError> {
        match self {
            Value::Text(text) => Ok(Value::Text(text.clone_in(alloc)?)),
            Value::Int(number) => Ok(Value::Int(*number)),
            Value::Long(number) => Ok(Value::Long(*number)),
            Value::Flag(flag) => Ok(Value::Flag(*flag)),
        }
    }
}

/// What kind of values a dynamic field keeps. `Str` and `Words` keep texts: a `Str` is found whole, and `Words` word by word.
#[derive(Clone, Copy, Debug, PartialEq, Eq)]
pub enum Kind {
    Str,
    Int,
    Long,
    Flag,
    Words,
}
