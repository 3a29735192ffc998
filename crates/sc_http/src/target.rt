ghost use Rattle.std.specs.Prelude.{◌≡◌, IfOk};
ghost use Rattle.sc_model.specs.Heads.{method_of, is_head, path_of, params_of};

use crate::form::form_params;
use sc_model::{Method, Param};
use sc_record::{List, Text};
use std::alloc::{AllocError, Global};

/// The method of this name.
pub(crate) fn method_of(name: &[u8]) -> Method
    ensures { result ≡ method_of name.now }
{
    match name {
        b"GET" => Method::Get,
        b"POST" => Method::Post,
        _ => Method::Other,
    }
}

/// Whether the method is HEAD.
pub(crate) fn is_head(name: &[u8]) -> bool
    ensures { result ≡ is_head name.now }
{
    name == b"HEAD".as_slice()
}

/// The path and the parameters of a target.
pub(crate) fn split_target(alloc: Global, target: &str) -> Result<(Text, List<Param>), AllocError>
    ensures path { IfOk result (λ parts. parts.0 ≡ path_of target.now) }
    ensures params { IfOk result (λ parts. parts.1 ≡ params_of target.now) }
{
    match target.split_once('?') {
        Some((path, query)) => Ok((
            Text::new(alloc, path)?,
            form_params(alloc, query.as_bytes())?,
        )),
        None => Ok((Text::new(alloc, target)?, List::new(alloc))),
    }
}
