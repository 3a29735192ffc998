//! The text of an answer.

ghost use Rattle.std.specs.Prelude.{◌≡◌, false, IfOk};
ghost use Rattle.serde_json.specs.View.{view};
ghost use Rattle.serde_json.specs.Written.{has_float, compact_text};

use sc_json::print;
use sc_record::Text;
use serde_json::Value;
use std::alloc::{AllocError, Global};

/// The text of an answer's value, which has no number but whole ones.
pub(crate) fn text_of(alloc: Global, value: &Value) -> Result<Text, AllocError>
    requires { has_float (view value.now) ≡ false }
    ensures { IfOk result (λ text. text ≡ compact_text (view value.now)) }
{
    print(alloc, value)
}
