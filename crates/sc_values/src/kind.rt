ghost use Rattle.std.specs.Prelude.{◌≡◌};
ghost use Rattle.sc_values.specs.Fields.{kind_of};

use crate::value::Kind;

/// The most bytes that the name of a dynamic field has.
const MAX_NAME_LENGTH: usize = 256;

/// The kind of the field of this name, and whether it has many values: by the name's ending, as
/// the dynamic fields of Solr's default schema are (Solr Reference Guide, "Dynamic Fields").
/// `None` for any other name, such as `id` and `_version_`.
#[tactic(auto, unfolding(crate::specs::Fields::kind_of))]
pub fn kind_of(name: &str) -> Option<(Kind, bool)>
    ensures { result ≡ kind_of name.now }
{
    let name = name.as_bytes();
    if name.len() > MAX_NAME_LENGTH {
        return None;
    }
    if name.ends_with(b"_s") {
        Some((Kind::Str, false))
    } else if name.ends_with(b"_ss") {
        Some((Kind::Str, true))
    } else if name.ends_with(b"_i") {
        Some((Kind::Int, false))
    } else if name.ends_with(b"_is") {
        Some((Kind::Int, true))
    } else if name.ends_with(b"_l") {
        Some((Kind::Long, false))
    } else if name.ends_with(b"_ls") {
        Some((Kind::Long, true))
    } else if name.ends_with(b"_b") {
        Some((Kind::Flag, false))
    } else if name.ends_with(b"_bs") {
        Some((Kind::Flag, true))
    } else if name.ends_with(b"_t") {
        Some((Kind::Words, false))
    } else if name.ends_with(b"_txt") {
        Some((Kind::Words, true))
    } else {
        None
    }
}
