//! `sc_session` over `sc_shared`: requests that come between the steps of a split, by a desk of their own.

ghost use Rattle.std.specs.Prelude.{◌≡◌, Some};
ghost use Rattle.std.specs.Thread.{IsSync};
ghost use Rattle.sc_collection.specs.Desks.{nothing_out};
ghost use Rattle.sc_shared.specs.Sharing.{ArePasses};

use crate::collections::{new_collection, passes_of};
use crate::support::assert_text;
use crossbeam_channel::{Receiver, Sender};
use sc_collection::{Desk, Shape, Trail};
use sc_io::{Faults, Fixed, MemSink, MemSource, Never, NoPace, Pace, SplitStep};
use sc_record::List;
use sc_session::serve;
use sc_shared::{Collection, Home, Passes, Shared};
use std::alloc::{AllocError, Global};
use std::collections::VecDeque;
use std::marker::Brand;
use std::sync::Wait;
use std::test::Fail;
use std::thread;
use std::thread::Threads;

/// A request that comes once a split stands at this step.
#[derive(Drop)]
struct Visit<'a> {
    step: SplitStep,
    request: &'a str,
}

/// A pace that tells another thread each step, and waits until that has done what it does there. Where that is gone it says stop.
#[derive(Drop)]
struct Announcer<'a, R> {
    rt: &'a R,
    steps: Sender<SplitStep>,
    done: Receiver<()>,
    stops: Faults,
}

impl<'a, R: Wait> Pace for Announcer<'a, R> {
    ghost stops = { λ s. s.stops };

    fn between(&mut self, step: SplitStep) -> bool {
        if self.steps.send(self.rt, step).is_err() || self.done.recv(self.rt).is_err() {
            self.stops.rise();
            return false;
        }
        true
    }
}

/// The body of the answer to a connection that sends one request, where `|` stands for each end of a line.
fn exchange<R: Threads + Sync, D: Desk, P: Pace>(
    rt: &R,
    alloc: Global,
    desk: &mut D,
    pace: &mut P,
    request: &str,
) -> Result<String, AllocError>
    requires { D.out desk.old ≡ nothing_out }
    ensures { D.out desk.new ≡ nothing_out }
{
    let mut trail = Trail::new(alloc)?;
    let mut source = source_of(alloc, request)?;
    let mut sink = MemSink::new(alloc, List::new(alloc));
    let _ = serve(
        rt,
        alloc,
        desk,
        &mut Fixed { moment: 1000 },
        &mut Never,
        pace,
        &mut source,
        &mut sink,
        &mut trail,
    );
    let body = body_of(alloc, sink.bytes.as_slice());
    drop(sink);
    drop(source);
    drop(trail);
    body
}

/// A source that gives this request, where `|` stands for each end of a line.
fn source_of(alloc: Global, request: &str) -> Result<MemSource, AllocError> {
    let bytes = request.replace(alloc, '|', "\r\n")?.into_bytes();
    Ok(MemSource::new(List::from_vec(bytes), 4096, List::new(alloc)))
}

/// The body of the answer that was written.
fn body_of(alloc: Global, written: &[u8]) -> Result<String, AllocError> {
    let text = std::str::from_utf8(written).unwrap_or("");
    match text.split_once("\r\n\r\n") {
        Some((_, body)) => String::from_str(alloc, body),
        None => String::from_str(alloc, "no answer"),
    }
}

/// The bodies of the answers to these requests in turn, each in a line.
fn converse<R: Threads + Sync, D: Desk, P: Pace>(
    rt: &R,
    alloc: Global,
    desk: &mut D,
    pace: &mut P,
    requests: &[&str],
) -> Result<String, AllocError>
    requires { D.out desk.old ≡ nothing_out }
    ensures { D.out desk.new ≡ nothing_out }
{
    let mut told = String::new(alloc);
    for request in requests {
        let body = exchange(rt, alloc, desk, pace, request)?;
        told.push_str(body.as_str())?;
        told.push_str("\n")?;
    }
    Ok(told)
}

/// The bodies of the answers to these visits, each in a line: one at a time, each once the split stands at its step.
fn send_each<R: Threads + Wait + Sync, D: Desk>(
    rt: &R,
    alloc: Global,
    desk: &mut D,
    visits: VecDeque<Visit<'_>>,
    steps: Receiver<SplitStep>,
    done: Sender<()>,
) -> Result<String, AllocError>
    requires { D.out desk.old ≡ nothing_out }
    ensures { D.out desk.new ≡ nothing_out }
{
    let mut visits = visits;
    let mut told = String::new(alloc);
    for step in steps.iter(rt) {
        if let Some(visit) = next_at(&mut visits, step) {
            let line = line_of(rt, alloc, desk, visit)?;
            told.push_str(line.as_str())?;
        }
        if done.send(rt, ()).is_err() {
            break;
        }
    }
    Ok(told)
}

/// Takes the next of these visits, if it comes at this step.
fn next_at<'a>(visits: &mut VecDeque<Visit<'a>>, step: SplitStep) -> Option<Visit<'a>> {
    let comes = match visits.front() {
        Some(visit) => visit.step == step,
        None => false,
    };
    if comes { visits.pop_front() } else { None }
}

/// The body of the answer to a visit, as a line.
fn line_of<R: Threads + Sync, D: Desk>(
    rt: &R,
    alloc: Global,
    desk: &mut D,
    visit: Visit<'_>,
) -> Result<String, AllocError>
    requires { D.out desk.old ≡ nothing_out }
    ensures { D.out desk.new ≡ nothing_out }
{
    let mut line = exchange(rt, alloc, desk, &mut NoPace, visit.request)?;
    line.push_str("\n")?;
    Ok(line)
}

/// What is answered to these visits, by a desk for these passes.
fn visited<R: Threads + Wait + Sync>(
    rt: &R,
    alloc: Global,
    collection: &Collection,
    passes: Passes,
    visits: VecDeque<Visit<'_>>,
    steps: Receiver<SplitStep>,
    done: Sender<()>,
) -> Result<String, AllocError>
    requires passes { ArePasses collection.now passes }
{
    visited_at::<R, Brand>(rt, alloc, collection, passes, visits, steps, done)
}

/// The same, of the collection that is the desk's home.
fn visited_at<R: Threads + Wait + Sync, N: Home>(
    rt: &R,
    alloc: Global,
    collection: &Collection,
    passes: Passes,
    visits: VecDeque<Visit<'_>>,
    steps: Receiver<SplitStep>,
    done: Sender<()>,
) -> Result<String, AllocError>
    requires home { N.locks ≡ Some collection.now }
    requires passes { ArePasses collection.now passes }
{
    let mut desk = Shared::<R, N>::new(rt, collection, passes);
    let told = send_each(rt, alloc, &mut desk, visits, steps, done);
    let _ = passes_of(collection, desk);
    told
}

/// What is answered to these requests, by a desk for these passes. The steps of a split are told, and each waits until it is done.
fn conversed<R: Threads + Wait + Sync>(
    rt: &R,
    alloc: Global,
    collection: &Collection,
    passes: Passes,
    steps: Sender<SplitStep>,
    done: Receiver<()>,
    requests: &[&str],
) -> Result<String, AllocError>
    requires passes { ArePasses collection.now passes }
{
    conversed_at::<R, Brand>(rt, alloc, collection, passes, steps, done, requests)
}

/// The same, of the collection that is the desk's home.
fn conversed_at<R: Threads + Wait + Sync, N: Home>(
    rt: &R,
    alloc: Global,
    collection: &Collection,
    passes: Passes,
    steps: Sender<SplitStep>,
    done: Receiver<()>,
    requests: &[&str],
) -> Result<String, AllocError>
    requires home { N.locks ≡ Some collection.now }
    requires passes { ArePasses collection.now passes }
{
    let mut desk = Shared::<R, N>::new(rt, collection, passes);
    let mut pace = Announcer {
        rt,
        steps,
        done,
        stops: Faults::none(),
    };
    let told = converse(rt, alloc, &mut desk, &mut pace, requests);
    let _ = passes_of(collection, desk);
    told
}

/// What a thread talks by: requests over a collection, for passes of its own, and channels to one that works amid a split.
#[derive(Drop)]
struct Talk<'a, R> {
    rt: &'a R,
    alloc: Global,
    collection: &'a Collection,
    passes: Passes,
    steps: Sender<SplitStep>,
    done: Receiver<()>,
    requests: &'a [&'a str],
}

/// What is answered to the requests of a talk.
fn talked<R: Threads + Wait + Sync>(talk: Talk<'_, R>) -> Result<String, AllocError>
    requires passes { ArePasses talk.collection.now talk.passes }
{
    let Talk {
        rt,
        alloc,
        collection,
        passes,
        steps,
        done,
        requests,
    } = talk;
    conversed(rt, alloc, collection, passes, steps, done, requests)
}

/// What is answered to these requests over one desk, and then what to those that come amid the split, over another in another thread.
fn told_by_two<R: Threads + Wait + Sync>(
    rt: &R,
    alloc: Global,
    collection: &Collection,
    passes: Passes,
    others: Passes,
    visits: VecDeque<Visit<'_>>,
    requests: &[&str],
) -> Result<String, AllocError>
    requires passes { ArePasses collection.now passes }
    requires others { ArePasses collection.now others }
{
    let (steps, told_steps) = crossbeam_channel::unbounded(alloc)?;
    let (done, told_done) = crossbeam_channel::unbounded(alloc)?;
    let talk = Talk {
        rt,
        alloc,
        collection,
        passes,
        steps,
        done: told_done,
        requests,
    };
    let (told, amid) = thread::join(
        rt,
        move || -> Result<String, AllocError>
            requires passes { ArePasses talk.collection.now talk.passes }
            requires shared { IsSync R.row }
        { talked(talk) },
        move || -> Result<String, AllocError>
            requires others { ArePasses collection.now others }
            requires shared { IsSync R.row }
        { visited(rt, alloc, collection, others, visits, told_steps, done) },
    );
    let mut told = told?;
    told.push_str(amid?.as_str())?;
    Ok(told)
}

/// The same over a new collection of one bucket.
fn told<R: Threads + Wait + Sync>(
    rt: &R,
    alloc: Global,
    visits: Vec<Visit<'_>>,
    requests: &[&str],
) -> Result<String, AllocError> {
    let shape = Shape {
        nodes: 1,
        shards: 1,
        replicas: 1,
        buckets: 1,
        log_limit: 1_024,
    };
    let (collection, passes, others, _) = new_collection(alloc, &shape)?;
    let visits = VecDeque::from_vec(visits);
    told_by_two(rt, alloc, &collection, passes, others, visits, requests)
}

const SPLIT: &str =
    "GET /solr/admin/collections?action=SPLITSHARD&collection=docs&shard=shard1 HTTP/1.1|Host: a||";

const IS_SPLIT: &str =
    r#"{"committed":true,"responseHeader":{"QTime":0,"status":0},"subs":["shard1_0","shard1_1"]}"#;

// A deletion after an update, both amid a split, is what stands after it.
#[test]
fn an_update_and_a_deletion_come_amid_a_split(rt: HostRuntime) -> Result<(), Fail> {
    let alloc = rt.alloc();
    let visits = Vec::from_array(
        alloc,
        [
            Visit {
                step: SplitStep::Fed { bucket: 0 },
                request: r#"POST /solr/docs/update?versions=true HTTP/1.1|Host: a|Content-Length: 24||[{"id":"abc","t_s":"y"}]"#,
            },
            Visit {
                step: SplitStep::Replayed { bucket: 0 },
                request: r#"POST /solr/docs/update?versions=true HTTP/1.1|Host: a|Content-Length: 16||{"delete":"abc"}"#,
            },
        ],
    )?;
    let told = told(
        &rt,
        alloc,
        visits,
        &[
            r#"POST /solr/docs/update?versions=true HTTP/1.1|Host: a|Content-Length: 24||[{"id":"abc","t_s":"x"}]"#,
            SPLIT,
            "GET /solr/docs/get?id=abc HTTP/1.1|Host: a||",
            r#"POST /solr/docs/update HTTP/1.1|Host: a|Content-Length: 28||[{"id":"abc","_version_":7}]"#,
        ],
    )?;
    assert_text(
        &rt,
        told.as_str(),
        r#"{"adds":["abc",1048576000],"responseHeader":{"QTime":0,"status":0}}
{"committed":true,"responseHeader":{"QTime":0,"status":0},"subs":["shard1_0","shard1_1"]}
{"doc":null}
{"error":{"code":409,"msg":"version conflict for abc expected=7 actual=-1048576002"},"responseHeader":{"QTime":0,"status":409}}
{"adds":["abc",1048576001],"responseHeader":{"QTime":0,"status":0}}
{"deletes":["abc",-1048576002],"responseHeader":{"QTime":0,"status":0}}
"#,
    );
    Ok(())
}

const DELETE: &str =
    "GET /solr/admin/collections?action=DELETESHARD&collection=docs&shard=shard1 HTTP/1.1|Host: a||";

const SEARCH: &str = "GET /solr/docs/select?q=*:*&rows=0 HTTP/1.1|Host: a||";

const THREE: &str =
    r#"{"response":{"docs":[],"numFound":3,"numFoundExact":true,"start":0},"responseHeader":{"QTime":0,"status":0}}"#;

const FOUR: &str =
    r#"{"response":{"docs":[],"numFound":4,"numFoundExact":true,"start":0},"responseHeader":{"QTime":0,"status":0}}"#;

const ADD_THREE: &str =
    r#"POST /solr/docs/update?commit=true HTTP/1.1|Host: a|Content-Length: 43||[{"id":"test"},{"id":"abc"},{"id":"hello"}]"#;

const ADD_ONE: &str =
    r#"POST /solr/docs/update?commit=true HTTP/1.1|Host: a|Content-Length: 15||[{"id":"more"}]"#;

const IS_DONE: &str = r#"{"responseHeader":{"QTime":0,"status":0}}"#;

const IS_RUNNING: &str =
    r#"{"error":{"code":409,"msg":"split of shard1 is running"},"responseHeader":{"QTime":0,"status":409}}"#;

/// A request for each step of a split of one bucket in two: another split, a deletion of the shard, searches, and an update after the first
/// piece was fed.
fn visits_of_each_step(alloc: Global) -> Result<Vec<Visit<'static>>, AllocError> {
    let mut visits = Vec::new(alloc);
    for (step, request) in [
        (SplitStep::Begun, SPLIT),
        (SplitStep::Started { core: 0 }, DELETE),
        (SplitStep::Started { core: 1 }, SEARCH),
        (SplitStep::Opened { bucket: 0 }, SEARCH),
        (SplitStep::Fed { bucket: 0 }, ADD_ONE),
        (SplitStep::Fed { bucket: 0 }, SEARCH),
        (SplitStep::Replayed { bucket: 0 }, SEARCH),
        (SplitStep::Replayed { bucket: 0 }, SEARCH),
        (SplitStep::Recovering, SEARCH),
        (SplitStep::BeforeSwitch, SEARCH),
    ] {
        visits.push(Visit { step, request })?;
    }
    Ok(visits)
}

// A shard is neither split nor deleted amid a split. A search at each further step of it, and one after it, finds each document once: what
// was committed before it, and what was added and committed amid it.
#[test]
fn a_document_that_comes_amid_a_split_is_found_once(rt: HostRuntime) -> Result<(), Fail> {
    let alloc = rt.alloc();
    let visits = visits_of_each_step(alloc)?;
    let told = told(&rt, alloc, visits, &[ADD_THREE, SPLIT, SEARCH])?;
    assert_text(&rt, told.as_str(), answers_of_each_step(alloc)?.as_str());
    Ok(())
}

/// What is answered to the three requests, and then to those of each step.
fn answers_of_each_step(alloc: Global) -> Result<String, AllocError> {
    let asked = [IS_DONE, IS_SPLIT, FOUR];
    let before = [IS_RUNNING, IS_RUNNING, THREE, THREE, IS_DONE];
    let after = [FOUR, FOUR, FOUR, FOUR, FOUR];
    let mut answers = String::new(alloc);
    push_lines(&mut answers, &asked)?;
    push_lines(&mut answers, &before)?;
    push_lines(&mut answers, &after)?;
    Ok(answers)
}

/// Puts these lines at the end of the text.
fn push_lines(text: &mut String, lines: &[&str]) -> Result<(), AllocError> {
    for line in lines {
        text.push_str(line)?;
        text.push_str("\n")?;
    }
    Ok(())
}
