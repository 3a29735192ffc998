ghost use Rattle.std.specs.Prelude.{◌≡◌, ◌≤◌, Some, IfOk, false};
ghost use Rattle.serde_json.specs.Data.{depth};
ghost use Rattle.serde_json.specs.Read.{max_depth, read as value_of};
ghost use Rattle.serde_json.specs.View.{view};
ghost use Rattle.serde_json.specs.Written.{has_float, compact_text};

use sc_record::Text;
use serde_json::Value;
use std::alloc::{AllocError, Global};

/// The text of a value, with no space, its members ascending by the bytes of their keys. What digits a number that is no
/// whole number has is not said, but that they are read as that number.
pub fn print(alloc: Global, value: &Value) -> Result<Text, AllocError>
    ensures text { IfOk result (λ text. has_float (view value.now) ≡ false
        → text ≡ compact_text (view value.now)) }
    ensures reads_back { IfOk result (λ text. depth (view value.now) ≤ max_depth
        → value_of text ≡ Some (view value.now)) }
{
    Ok(Text::from_string(alloc, value.to_string(alloc)?)?)
}
