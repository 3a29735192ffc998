ghost use Rattle.std.specs.Prelude.{◌≡◌, option_copied};
ghost use Rattle.sc_model.specs.Parameters as parameters;

use crate::message::Param;
use sc_record::Text;

/// Whether the first parameter of the name has this value.
pub fn is_set_to(value: &str, name: &str, params: &[Param]) -> bool
    ensures { result ≡ parameters.is_set_to value.now name.now params.now }
{
    match parameter(name, params) {
        Some(found) => found.as_str() == value,
        None => false,
    }
}

/// Whether the first parameter of the name has another value than this.
pub fn is_other_than(value: &str, name: &str, params: &[Param]) -> bool
    ensures { result ≡ parameters.is_other_than value.now name.now params.now }
{
    match parameter(name, params) {
        Some(found) => found.as_str() != value,
        None => false,
    }
}

/// The value of the first parameter of this name.
pub fn parameter<'a>(name: &str, params: &'a [Param]) -> Option<&'a Text>
    ensures { option_copied result ≡ parameters.parameter name.now params.now }
{
    for param in params {
        if param.name.as_str() == name {
            return Some(&param.value);
        }
    }
    None
}
