//! The keys of an object, and the values that commands have at them.

ghost use Rattle.std.specs.Prelude.{◌≡◌, ℕ, List, false, map, option_map};
ghost use Rattle.std.specs.List.{list_any};
ghost use Rattle.std.specs.Str.{bytes_eq};
ghost use Rattle.serde_json.specs.Find.{get, get_member};
ghost use Rattle.serde_json.specs.View.{view, members_view};
ghost use Rattle.sc_commands.specs.Commands as commands;

use serde_json::{Map, Value};

/// Whether the value is an object with no other keys than these.
pub(crate) fn has_keys(value: &Value, keys: &[&str]) -> bool
    ensures { result ≡ commands.has_keys (map (λ key. key.now) keys.now) (view value.now) }
{
    match value {
        Value::Object(members) => has_only(members, keys),
        _ => false,
    }
}

/// Whether each key of the members is one of these.
fn has_only(members: &Map<String, Value>, keys: &[&str]) -> bool
    ensures { result
        ≡ commands.has_only (map (λ key. key.now) keys.now) (members_view members.now.entries) }
{
    for (name, _) in members {
        if !is_one_of(name.as_str(), keys) {
            return false;
        }
    }
    true
}

/// Whether the name is one of the keys.
fn is_one_of(name: &str, keys: &[&str]) -> bool
    ensures { result ≡ list_any (bytes_eq name.now) (map (λ key. key.now) keys.now) }
{
    for key in keys {
        if name == *key {
            return true;
        }
    }
    false
}

/// Takes the value at the key out of an object, where it is there.
pub(crate) fn take_member(value: &mut Value, key: &str) -> Option<Value>
    ensures taken { option_map view result ≡ get key.now (view value.old) }
    ensures others { (other : List ℕ) → bytes_eq key.now other ≡ false
        → get other (view value.new) ≡ get other (view value.old) }
{
    match value {
        Value::Object(members) => take_from(members, key),
        _ => None,
    }
}

/// Takes the value at the key out of the members, where it is there.
fn take_from(members: &mut Map<String, Value>, key: &str) -> Option<Value>
    ensures taken { option_map view result ≡ get_member key.now (members_view members.old.entries) }
    ensures others { (other : List ℕ) → bytes_eq key.now other ≡ false
        → get_member other (members_view members.new.entries)
        ≡ get_member other (members_view members.old.entries) }
{
    members.remove(key)
}

/// Whether the value is a text or a whole number of 64 signed bits.
pub(crate) fn is_id(value: &Value) -> bool
    ensures { result ≡ commands.can_be_id (view value.now) }
{
    value.is_string() || value.is_i64()
}
