//! What slices and cores are called.

ghost use Rattle.std.specs.Prelude.{◌≡◌, ◌↔◌, ◌++◌, IsTrue, IfOk, codes};
ghost use Rattle.std.specs.Fmt.{decimal};
ghost use Rattle.sc_cluster.specs.Slices.{first_name, sub_name, core_name};

use itoa::Buffer;
use sc_record::Text;
use std::alloc::{AllocError, Global};

/// The name of slice i, from 1, of a new collection: `shard1`.
pub(crate) fn first_name(alloc: Global, i: u32) -> Result<Text, AllocError>
    ensures { IfOk result (λ name. name ≡ first_name i) }
{
    Ok(Text::from_string(alloc, format!(in alloc; "shard{i}")?)?)
}

/// The name of a slice's sub i, from 0: `shard1_0`.
pub(crate) fn sub_name(alloc: Global, parent: &str, i: usize) -> Result<Text, AllocError>
    ensures { IfOk result (λ name. name ≡ sub_name parent.now i) }
{
    Ok(Text::from_string(alloc, format!(in alloc; "{parent}_{i}")?)?)
}

// The text is `_` and the number in decimal.
fn is_sub_ending(text: &[u8], i: usize) -> bool
    ensures { IsTrue result ↔ (text.now ≡ codes "_" ++ decimal i) }
{
    match text.strip_prefix(&[b'_']) {
        Some(digits) => digits == Buffer::new().format(i).as_bytes(),
        None => false,
    }
}

/// The name is that of the parent's sub i, from 0.
pub(crate) fn is_sub_name(name: &str, parent: &str, i: usize) -> bool
    ensures { IsTrue result ↔ (name.now ≡ sub_name parent.now i) }
{
    match name.as_bytes().strip_prefix(parent.as_bytes()) {
        Some(ending) => is_sub_ending(ending, i),
        None => false,
    }
}

/// The name of the core that is a slice's replica, counted from 1, as Solr names the cores of the collection `docs`:
/// `docs_shard1_replica_n1`.
pub fn core_name(alloc: Global, slice: &str, replica: u8) -> Result<Text, AllocError>
    ensures { IfOk result (λ name. name ≡ core_name slice.now replica) }
{
    Ok(Text::from_string(alloc, format!(in alloc; "docs_{slice}_replica_n{replica}")?)?)
}
