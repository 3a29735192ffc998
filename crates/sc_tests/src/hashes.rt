//! `sc_router`: the hash of a whole id is MurmurHash3 of its bytes (x86, 32 bits, seed 0), by values that others have published.

use crate::support::assert_same;
use sc_router::plain_hash;
use std::test::Fail;

#[test]
fn the_hash_of_a_whole_id_is_murmur3(rt: HostRuntime) -> Result<(), Fail> {
    assert_same(&rt, plain_hash(""), 0);
    assert_same(&rt, plain_hash("hello"), 0x248b_fa47);
    assert_same(&rt, plain_hash("hello, world"), 0x149b_bb7f);
    Ok(())
}
