ghost use Rattle.std.specs.Prelude.{◌≡◌, Some, None, IfOk};
ghost use Rattle.serde_json.specs.View.{view};
ghost use Rattle.sc_json.specs.Bodies.{json_of};

use serde_json::{Category, Value};
use std::alloc::Global;
use thiserror::Error;

/// Why a body has no value.
#[derive(Clone, Copy, Debug, Error)]
pub enum JsonFault {
    /// The body is not UTF-8 or no JSON text, its arrays and objects are in one another more than 127 deep, or it has a
    /// number that no finite float is near.
    #[error("invalid JSON")]
    Bad,
    #[error("out of memory")]
    Memory,
}

/// The JSON value that the body is (RFC 8259). Of an object's members with one key the last counts.
pub fn read(alloc: Global, body: &[u8]) -> Result<Value, JsonFault>
    ensures value { IfOk result (λ value. json_of body.now ≡ Some (view value)) }
    ensures bad { result ≡ Err JsonFault.Bad → json_of body.now ≡ None }
{
    let Ok(text) = simdutf8::compat::from_utf8(body) else {
        return Err(JsonFault::Bad);
    };
    match Value::from_str(alloc, text) {
        Ok(value) => Ok(value),
        Err(fault) if fault.classify() == Category::Memory => Err(JsonFault::Memory),
        Err(_) => Err(JsonFault::Bad),
    }
}
