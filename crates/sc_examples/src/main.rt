//! Worked examples of the lower crates and scenarios of the upper ones, which answers lines of standard input: the line of the same number
//! of standard output is a line's answer. An empty line and one that begins with `#` are written as they are.
//!
//! A line of an example names a question, by the crate's subject and a dot, and gives its arguments. What is expected comes from outside:
//! from published tables, other programs, or the rule that a crate's documentation states. In a question `\{308}` is the character of that
//! number, and `\{3*ab}` is `ababab`. In an answer a character that is no printable ASCII character is written by its number.
//!
//! A line of a scenario is an event of a bucket, a request to a collection, what its hosts, its pace or the wire of its connections are to
//! refuse, or a question about any of these. What is expected comes from outside: from worked examples, for the lists of events that were
//! drawn at random from `plain_bucket.py`, which follows each event with a bucket of plain lists, for the splits that are stopped at each
//! step from `stopped_splits.py`, and for reads and writes that fail from `failing_wires.py`. Scenarios depend on `sc_session`, whose
//! `serve` has all that a request comes to, and on `sc_world`, whose events are all that may happen to a bucket.
#![tactic(auto)]

// Examples: each module asks one crate.
mod causes;
mod clusters;
mod documents;
mod escapes;
mod fields;
mod hashes;
mod messages;
mod queries;
mod records;
mod replies;
mod routes;
mod searches;
mod splits;
mod terms;
mod updates;

// Scenarios: one bucket, its events, and what it shows; a collection with its hosts and its pace, behind one connection for each line of
// requests, whose bytes go through a wire; and what is done line by line.
mod bucket;
mod connection;
mod event;
mod stage;
mod state;
mod wire;

// The words of lines, and a line that is written piece by piece.
mod line;
mod words;

ghost use Rattle.std.specs.Prelude.{◌≡◌, None};
ghost use Rattle.sc_bucket.specs.Sound.{IsSound};

use sc_bucket::Bucket;
use sc_fanout::Page;
use stage::Stage;
use std::alloc::{AllocError, Global};
use std::io::{self, BufRead, BufReader};
use std::marker::{Send, Sync};
use std::thread::Threads;
use words::word_and;

fn main(rt: HostRuntime) -> io::Result<()> {
    buckets_and_pages_go_between_threads();
    let alloc = rt.alloc();
    let mut stage = Stage::new(alloc)?;
    let answered = answer_lines(&rt, alloc, &mut stage);
    // By a call, since at the end of the function each of its parts would be followed.
    drop(stage);
    answered
}

/// Buckets and pages may go from thread to thread, and several threads may look at one page.
fn buckets_and_pages_go_between_threads() {
    go_between_threads::<Bucket>();
    go_between_threads::<Page>();
    are_shared_by_threads::<Page>();
}

/// Values of this type may go from thread to thread.
fn go_between_threads<T: Send>() {}

/// Several threads may look at one value of this type.
fn are_shared_by_threads<T: Sync>() {}

/// Answers each line of standard input.
fn answer_lines<R: Threads + Sync + Input + Print>(
    rt: &R,
    alloc: Global,
    stage: &mut Stage,
) -> io::Result<()>
    requires sound { IsSound stage.old.bucket }
    requires out { stage.old.collection.desk.out ≡ None }
    requires board_out { stage.old.collection.desk.board_out ≡ None }
{
    for line in BufReader::new(alloc, rt.reader())?.lines(alloc) {
        write_answer(rt, alloc, stage, line?.as_str())?;
    }
    Ok(())
}

/// Writes what is written for a line.
fn write_answer<R: Threads + Sync + Print>(
    rt: &R,
    alloc: Global,
    stage: &mut Stage,
    line: &str,
) -> io::Result<()>
    requires sound { IsSound stage.old.bucket }
    requires out { stage.old.collection.desk.out ≡ None }
    requires board_out { stage.old.collection.desk.board_out ≡ None }
    ensures sound { IsSound stage.new.bucket }
    ensures out { stage.new.collection.desk.out ≡ None }
    ensures board_out { stage.new.collection.desk.board_out ≡ None }
{
    let answer = answer_line(rt, alloc, stage, line)?;
    rt.println(answer.as_str())
}

/// What is written for a line: it asks for an example where its first word has a dot, and is one of a scenario otherwise.
fn answer_line<R: Threads + Sync>(
    rt: &R,
    alloc: Global,
    stage: &mut Stage,
    line: &str,
) -> Result<String, AllocError>
    requires sound { IsSound stage.old.bucket }
    requires out { stage.old.collection.desk.out ≡ None }
    requires board_out { stage.old.collection.desk.board_out ≡ None }
    ensures sound { IsSound stage.new.bucket }
    ensures out { stage.new.collection.desk.out ≡ None }
    ensures board_out { stage.new.collection.desk.board_out ≡ None }
{
    if line.is_empty() || line.starts_with('#') {
        return String::from_str(alloc, line);
    }
    let (first, arguments) = word_and(line);
    match first.split_once('.') {
        Some((subject, question)) => example(alloc, subject, question, arguments),
        None => stage::answer(rt, alloc, stage, line),
    }
}

/// The answer of an example, as it is written. A question has none where its arguments have not the form that its module states, or ask for
/// what can't be made; it is then answered as one for which memory ran out.
fn example(
    alloc: Global,
    subject: &str,
    question: &str,
    arguments: &str,
) -> Result<String, AllocError> {
    let text = escapes::read(alloc, arguments)?;
    shown(alloc, answer(alloc, subject, question, text.as_str()))
}

/// The answer as it is written.
fn shown(alloc: Global, answer: Result<String, AllocError>) -> Result<String, AllocError> {
    match answer {
        Ok(answer) => escapes::shown(alloc, answer.as_str()),
        Err(AllocError) => String::from_str(alloc, "no answer"),
    }
}

/// The answer to a question about a subject, by the module that has it.
fn answer(alloc: Global, subject: &str, question: &str, text: &str) -> Result<String, AllocError> {
    match subject {
        "hash" => hashes::answer(alloc, question, text),
        "route" => routes::answer(alloc, question, text),
        "record" => records::answer(alloc, question, text),
        "cluster" => clusters::answer(alloc, question, text),
        "document" => documents::answer(alloc, question, text),
        "reply" => replies::answer(alloc, question, text),
        "update" => updates::answer(alloc, question, text),
        "query" => queries::answer(alloc, question, text),
        "search" => searches::answer(alloc, text),
        "http" => messages::answer(alloc, question, text),
        _ => Err(AllocError),
    }
}
