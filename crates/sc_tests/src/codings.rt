//! What follows a chunked coding is left.

use crate::support::assert_same;
use sc_chunks::Decoder;

#[test]
fn what_follows_a_coding_is_left(rt: HostRuntime) {
    let mut decoder = Decoder::new(rt.alloc());
    assert_same(&rt, decoder.take(b"1\r\na"), Ok(4));
    assert!(rt; !decoder.is_whole());
    assert_same(&rt, decoder.take(b"\r\n0\r\n\r\nGET /"), Ok(7));
    assert!(rt; decoder.is_whole());
    assert_same(&rt, decoder.take(b"GET /"), Ok(0));
    assert_same(&rt, decoder.into_data().as_slice(), b"a");
}
