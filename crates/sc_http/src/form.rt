ghost use Rattle.std.specs.Prelude.{◌≡◌, IfOk};
ghost use Rattle.sc_model.specs.Heads.{form_params};

use form_urlencoded::parse;
use sc_model::Param;
use sc_record::{List, Text};
use std::alloc::{AllocError, Global};

/// The parameters that a form has, in order and decoded (URL Standard, section 5.1). Bytes that are not UTF-8 are replaced, so that
/// every text is a form. An error means out of memory.
pub fn form_params(alloc: Global, form: &[u8]) -> Result<List<Param>, AllocError>
    ensures { IfOk result (λ params. params ≡ form_params form.now) }
{
    let mut params = List::new(alloc);
    for pair in parse(alloc, form).into_owned() {
        let (name, value) = pair?;
        params.push(Param {
            name: Text::from_string(alloc, name)?,
            value: Text::from_string(alloc, value)?,
        })?;
    }
    Ok(params)
}
