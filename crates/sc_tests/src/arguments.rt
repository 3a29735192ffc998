//! `sc_arguments`: where there is memory, a line asks for what it says, or for nothing.

use crate::support::assert_line;
use sc_arguments::asked_of;
use std::alloc::{AllocError, Global};
use std::process::Abort;
use std::test::Fail;

// The words between the spaces of a line.
fn words_of(alloc: Global, line: &str) -> Result<Vec<String>, AllocError> {
    let mut words = Vec::new(alloc);
    for word in line.split(' ') {
        words.push(String::from_str(alloc, word)?)?;
    }
    Ok(words)
}

// What the words of a line ask for.
fn asked(alloc: Global, line: &str) -> Result<String, AllocError> {
    let words = words_of(alloc, line)?;
    let asked = asked_of(alloc, words.as_slice())?;
    format!(in alloc; "{asked:?}")
}

// Lines, and after an arrow what each asks for.
fn lines_asked() -> &'static str {
    "script --shards=2 --clock 1000 -> Some(Script(Script { shape: Shape { nodes: 1, shards: 2, replicas: 1, buckets: 64, log_limit: 1048576 }, clock: Some(1000) }))
serve --port 8984 --workers=8 --shards 2 -> Some(Serve(Server { shape: Shape { nodes: 1, shards: 2, replicas: 1, buckets: 64, log_limit: 1048576 }, clock: None, port: 8984, workers: 8, max_connections: 4294967295 }))
demo --seed 7 --count=20 --workers 2 -> Some(Demo(Demo { seed: 7, count: 20, workers: 2 }))
script --shards=2 -- -> None
script --shards=2 --shards=2 -> None
script --clock +1 -> None
script --port 1 -> None
script --help -> None
help -> None"
}

// The words before the arrow ask for what stands after it.
fn assert_asks(rt: &impl Abort, alloc: Global, line: &str) -> Result<(), AllocError> {
    let (words, wanted) = line.split_once(" -> ").unwrap_or((line, ""));
    assert_line(rt, line, asked(alloc, words)?.as_str(), wanted);
    Ok(())
}

#[test]
fn lines_ask_for_what_they_say(rt: HostRuntime) -> Result<(), Fail> {
    for line in lines_asked().lines() {
        assert_asks(&rt, rt.alloc(), line)?;
    }
    Ok(())
}
