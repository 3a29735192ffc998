//! `sc_router`: `route.hash ID`, `route.range ROUTE`, `route.plain ID`, `route.bucket COUNT ID` and
//! `route.holds ROUTE ID`.

ghost use Rattle.std.specs.Prelude.{◌≤◌, length};

use sc_hash::range_text;
use sc_router::{bucket_of, key_range, plain_hash, route_hash};
use std::alloc::{AllocError, Global};

pub fn answer(alloc: Global, question: &str, text: &str) -> Result<String, AllocError> {
    if text.len() > 1000 {
        return Err(AllocError);
    }
    match question {
        "hash" => format!(in alloc; "{:08x}", route_hash(text)),
        "plain" => format!(in alloc; "{:08x}", plain_hash(text)),
        "range" => range_text(alloc, &key_range(text)),
        "bucket" => bucket(alloc, text),
        _ => holds(alloc, text),
    }
}

/// The bucket among 1, 2 or 256.
fn bucket(alloc: Global, text: &str) -> Result<String, AllocError>
    requires { length text.now ≤ 1000 }
{
    let Some((count, id)) = text.split_once(' ') else {
        return Err(AllocError);
    };
    let bucket = match count {
        "1" => bucket_of(id, 1),
        "2" => bucket_of(id, 2),
        _ => bucket_of(id, 256),
    };
    bucket.to_string(alloc)
}

/// Whether the route's range holds the id's hash.
fn holds(alloc: Global, text: &str) -> Result<String, AllocError>
    requires { length text.now ≤ 1000 }
{
    let Some((route, id)) = text.split_once(' ') else {
        return Err(AllocError);
    };
    key_range(route).contains(route_hash(id)).to_string(alloc)
}
