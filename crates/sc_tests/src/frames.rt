//! `sc_frames`: the bytes of a journal's entries and of a file's first entry, and which bytes are those of none.

use crate::support::assert_same;
use sc_frames::{
    BodyFault, HEAD_LENGTH, Head, entry_len, head_body, push_entry, read_body, read_head,
};
use sc_record::{Entry, List};
use std::process::Abort;
use std::test::Fail;

// The first add of `{"id":"abc","t_s":"x"}`, at the version 1048576000.
fn abc() -> &'static [u8] {
    b"\x01\x03\0abc\0\0\x80\x3e\0\0\0\0\x01\0\0\0\x03\0t_s\x01\0\0\0\x01\0\0\0x"
}

/// The first entry of the file of the only bucket of a new collection.
pub fn new_head() -> Head {
    Head {
        nodes: 1,
        shards: 1,
        replicas: 1,
        buckets: 1,
        log_limit: 1_048_576,
        bucket: 0,
    }
}

// An entry of each kind: a document without fields, its deletion, a place, a commit, a split into one slice, the three entries that
// name a slice, and the three that name a core.
fn each_kind() -> &'static [u8] {
    b"\x01\x01\0a\x01\0\0\0\0\0\0\0\0\0\0\0\x02\x01\0a\xff\xff\xff\xff\xff\xff\xff\x7f\x03\xff\xff\xff\xff\xff\xff\xff\xff\x04\
        \x05\0\0\0\0\x01\0\0\0\x01\0\0\0\x02\0\0\0s1\0\0\0\x80\xff\xff\xff\x7f\x01\x01\0\0\0\x06\0\0\0\0\x07\x01\0\0\0\x08\xff\xff\xff\xff\
        \x09\0\0\0\0\x02\x0a\0\0\0\0\x02\x0b\0\0\0\0\xff"
}

// Bytes that are no entries: of a kind that is none, of an id without bytes, of the version 0, of one below 0, of a slice whose range is
// empty, of one without replicas, of one on no node, of a core without a number, and of an entry with a byte more.
fn refused() -> [&'static [u8]; 10] {
    [
        b"\0",
        b"\x0c\0\0\0\0\0",
        b"\x02\0\0\x01\0\0\0\0\0\0\0",
        b"\x02\x01\0a\0\0\0\0\0\0\0\0",
        b"\x02\x01\0a\xff\xff\xff\xff\xff\xff\xff\xff",
        b"\x05\0\0\0\0\x01\0\0\0\x01\0\0\0\0\0\0\0\x01\0\0\0\0\0\0\0\x01\x01\0\0\0",
        b"\x05\0\0\0\0\x01\0\0\0\x01\0\0\0\0\0\0\0\0\0\0\0\0\0\0\0\0\x01\0\0\0",
        b"\x05\0\0\0\0\x01\0\0\0\x01\0\0\0\0\0\0\0\0\0\0\0\0\0\0\0\x01\0\0\0\0",
        b"\x09\0\0\0\0\0",
        b"\x04\0",
    ]
}

// The entries that the bytes are have these bytes.
fn assert_back(
    rt: &impl Abort,
    entries: &List<Entry>,
    bytes: &[u8],
    out: &mut Vec<u8>,
) -> Result<(), Fail> {
    let mut length: u64 = 0;
    for entry in entries.as_slice() {
        push_entry(out, entry)?;
        let more = entry_len(entry).ok_or("an entry of a few bytes has a length")?;
        length = length.saturating_add(more);
    }
    assert_eq!(rt; out.as_slice(), bytes);
    assert_same(rt, length, bytes.len() as u64);
    Ok(())
}

#[test]
fn entries_go_there_and_back(rt: HostRuntime) -> Result<(), Fail> {
    let alloc = rt.alloc();
    assert_same(&rt, abc().len(), 32);
    for bytes in [abc(), each_kind()] {
        let entries = read_body(alloc, bytes).ok().ok_or("the bytes are entries")?;
        let mut out = Vec::new(alloc);
        assert_back(&rt, &entries, bytes, &mut out)?;
    }
    Ok(())
}

#[test]
fn what_is_no_entry_is_refused(rt: HostRuntime) -> Result<(), Fail> {
    let alloc = rt.alloc();
    let whole = abc();
    for length in 0..whole.len() {
        let cut = &whole[..length.min(whole.len())];
        assert!(rt; matches!(read_body(alloc, cut), Err(BodyFault::NotEntries)));
    }
    for bytes in refused() {
        assert!(rt; matches!(read_body(alloc, bytes), Err(BodyFault::NotEntries)));
    }
    Ok(())
}

#[test]
fn a_file_begins_with_its_collection(rt: HostRuntime) -> Result<(), Fail> {
    let head = new_head();
    let body = head_body(head);
    assert_same(&rt, HEAD_LENGTH, 26);
    assert_eq!(rt;
        body.as_slice(),
        b"\0\x01\0\0\0\x01\0\0\0\x01\x01\0\0\0\0\0\x10\0\0\0\0\0\0\0\0\0".as_slice()
    );
    assert!(rt; read_head(&body) == Some(head));
    for length in 0..HEAD_LENGTH {
        assert!(rt; read_head(&body[..length]).is_none());
    }
    assert!(rt; read_head(abc()).is_none());
    Ok(())
}
