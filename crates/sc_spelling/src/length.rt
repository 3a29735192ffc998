ghost use Rattle.std.specs.Prelude.{◌≡◌, ◌≤◌, ◌^◌, length, MatchOption};
ghost use Rattle.std.specs.List.{flat_map};
ghost use Rattle.sc_spelling.specs.Spellings.{spelling_of_value, spelling_of_field, spelling};

use sc_values::{Field, Value};

/// How many bytes the spelling of the fields has. `None` where that is 2^64 or more, which texts that are shared may add up to.
pub fn fields_len(fields: &[Field]) -> Option<u64>
    ensures { MatchOption result (2 ^ 64 ≤ length (spelling fields.now)) (λ n. n ≡ length (spelling fields.now)) }
{
    let mut sum: u64 = 4;
    for field in fields {
        sum = sum.checked_add(field_len(field)?)?;
    }
    Some(sum)
}

// How many bytes the spelling of the field has.
fn field_len(field: &Field) -> Option<u64>
    ensures { MatchOption result (2 ^ 64 ≤ length (spelling_of_field field.now)) (λ n. n ≡ length (spelling_of_field field.now)) }
{
    let name = field.name.as_str().len() as u64;
    values_len(field.values.as_slice())?.checked_add(name + 6)
}

// How many bytes the spellings of the values have.
fn values_len(values: &[Value]) -> Option<u64>
    ensures { MatchOption result (2 ^ 64 ≤ length (flat_map spelling_of_value values.now)) (λ n. n ≡ length (flat_map spelling_of_value values.now)) }
{
    let mut sum: u64 = 0;
    for value in values {
        sum = sum.checked_add(value_len(value))?;
    }
    Some(sum)
}

// How many bytes the spelling of the value has.
fn value_len(value: &Value) -> u64
    ensures { result ≡ length (spelling_of_value value.now) }
{
    match value {
        Value::Text(text) => text.as_str().len() as u64 + 4,
        Value::Int(_) => 4,
        Value::Long(_) => 8,
        Value::Flag(_) => 1,
    }
}
