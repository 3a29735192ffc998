use crate::copy::CloneIn;
use crate::list::List;
use crate::text::Text;
use crate::value::Value;
use std::alloc::{AllocError, Global};

/// A field's name and its values, in the order in which they were given.
#[derive(Debug, Drop)]
pub struct Field {
    pub name: Text,
    pub values: List<Value>,
}

impl CloneIn for Field {
    fn clone_in(&self, alloc: Global) -> Result<Field, AllocError> {
        Ok(Field {
            name: self.name.clone_in(alloc)?,
            values: self.values.clone_in(alloc)?,
        })
    }
}
