//! `sc_server`: two workers serve a connection each, beside each other, and a status says what failed.

ghost use Rattle.std.specs.Prelude.{◌≡◌, true, None};
ghost use Rattle.sc_collection.specs.Shapes.{is_in_range};

use crate::support::assert_text;
use sc_arguments::Server;
use sc_collection::{Shape, Trail};
use sc_io::{Failed, Fixed, MemSink, MemSource, Never, NoPace, Sink, Source};
use sc_record::List;
use sc_server::run_server;
use sc_session::{Crew, Link, MemListener, MemStation};
use std::alloc::{AllocError, Global};
use std::hint::spin_loop;
use std::process::Abort;
use std::sync::atomic::{AtomicBool, Ordering};
use std::sync::{Arc, Wait};
use std::test::Fail;
use std::thread::Threads;

/// How often a source looks for its mark before it fails.
const LOOKS: u32 = 200_000_000;

/// What each request begins with.
const HEAD: &str = "POST /solr/docs/update?versions=true HTTP/1.1\r\nHost: localhost\r\n";

/// A source whose first read gives the head of a request. Each read after it waits for a mark, if there is one, and fails where the mark
/// is not set after so many looks.
#[derive(Drop)]
struct WaitingSource {
    source: MemSource,
    mark: Option<Arc<AtomicBool, Global>>,
}

impl WaitingSource {
    /// The mark is set, or there is none.
    fn is_marked(&self) -> bool {
        let Some(mark) = &self.mark else {
            return true;
        };
        for _ in 0..LOOKS {
            if mark.load(Ordering::SeqCst) {
                return true;
            }
            spin_loop();
        }
        false
    }
}

impl Source for WaitingSource {
    ghost rest = { λ _. None };

    ghost faults = { λ s. s.source.faults };

    fn read(&mut self, into: &mut [u8]) -> Result<usize, Failed> {
        if self.source.calls > 0 && !self.is_marked() {
            self.source.faults.rise();
            return Err(Failed);
        }
        self.source.read(into)
    }
}

/// A sink that sets a mark as it is written to.
#[derive(Drop)]
struct MarkingSink {
    sink: MemSink,
    mark: Arc<AtomicBool, Global>,
}

impl Sink for MarkingSink {
    ghost written = { λ _. None };

    ghost faults = { λ s. s.sink.faults };

    ghost calls = { λ _. 0 };

    fn write(&mut self, piece: &[u8]) -> Result<(), Failed> {
        let written = self.sink.write(piece);
        self.mark.store(true, Ordering::SeqCst);
        written
    }
}

/// A connection that posts this body. Its head is read at once, and its body after the mark is set that the source waits for.
fn link_of(
    alloc: Global,
    body: &str,
    waits_for: Option<Arc<AtomicBool, Global>>,
    sets: Arc<AtomicBool, Global>,
) -> Result<Link<WaitingSource, MarkingSink>, AllocError> {
    let length = body.len();
    let head = format!(in alloc; "{HEAD}Content-Length: {length}\r\n\r\n")?;
    let most = head.len().max(1);
    let mut bytes = head.into_bytes();
    bytes.extend_from_slice(body.as_bytes())?;
    Ok(Link {
        source: WaitingSource {
            source: MemSource::new(List::from_vec(bytes), most, List::new(alloc)),
            mark: waits_for,
        },
        sink: MarkingSink {
            sink: MemSink::new(alloc, List::new(alloc)),
            mark: sets,
        },
    })
}

/// A crew whose hosts never fail and whose pace always goes on.
type OneLink = Crew<Fixed, Never, NoPace, MemListener<WaitingSource, MarkingSink>>;

/// The crew of a worker to which this one connection comes.
fn crew_of(alloc: Global, link: Link<WaitingSource, MarkingSink>) -> Result<OneLink, AllocError> {
    let links = Vec::from_array(alloc, [link])?;
    Ok(Crew {
        clock: Fixed { moment: 1000 },
        hosts: Never,
        pace: NoPace,
        listener: MemListener::new(alloc, links, List::new(alloc))?,
    })
}

/// What was written to the connections of the listener, after a word for one that was not read to its end or whose source failed, and then
/// the stops of each, as its lock and its place, with a sign where it made an entry.
fn told(
    alloc: Global,
    listener: &MemListener<WaitingSource, MarkingSink>,
) -> Result<String, AllocError> {
    let mut told = String::new(alloc);
    for taken in &listener.taken {
        push_link(&mut told, &taken.link)?;
        push_stops(alloc, &mut told, &taken.trail)?;
    }
    Ok(told)
}

/// Puts what was written to this connection at the end of the text, after its words.
fn push_link(text: &mut String, link: &Link<WaitingSource, MarkingSink>) -> Result<(), AllocError> {
    let source = &link.source.source;
    if source.faults.count() > 0 {
        text.push_str("failed ")?;
    }
    if source.at < source.bytes.len() {
        text.push_str("unread ")?;
    }
    text.push_str(std::str::from_utf8(link.sink.sink.bytes.as_slice()).unwrap_or(""))
}

/// Puts the stops at the end of the text, each as its lock and its place, with a sign where it made an entry.
fn push_stops(alloc: Global, text: &mut String, trail: &Trail) -> Result<(), AllocError> {
    for at in 0..trail.len() {
        if let Some(stop) = trail.get(at) {
            let sign = if stop.made { "+" } else { "" };
            let shown = format!(in alloc; " {}:{}{sign}", stop.lock, stop.place)?;
            text.push_str(shown.as_str())?;
        }
    }
    Ok(())
}

/// What a server of so many workers comes to, over one bucket, where a connection comes to each worker: its status, what it wrote of itself,
/// and then in a line for each crew that is back what was written to its connection. The calls whose numbers are in `opens` fail to open the
/// port, and the writes whose numbers are in `lines` fail.
fn served<R: Threads + Wait + Sync>(
    rt: &R,
    alloc: Global,
    workers: u32,
    crews: Vec<OneLink>,
    opens: List<u64>,
    lines: List<u64>,
) -> Result<String, AllocError>
    requires { is_in_range 1 64 workers ≡ true }
{
    let server = Server {
        shape: Shape {
            nodes: 1,
            shards: 1,
            replicas: 1,
            buckets: 1,
            log_limit: 1_024,
        },
        clock: Some(1000),
        port: 8983,
        workers,
        max_connections: 1,
    };
    let mut station = MemStation::new(alloc, crews, opens)?;
    let mut sink = MemSink::new(alloc, lines);
    let status = run_server(rt, alloc, &server, &mut sink, &mut station);
    let told = told_in_all(
        alloc,
        status,
        sink.bytes.as_slice(),
        station.back.as_slice(),
    );
    drop(sink);
    drop(station);
    told
}

/// The status, what the server wrote of itself, and what was written to the connections of the crews that are back.
fn told_in_all(
    alloc: Global,
    status: u8,
    written: &[u8],
    crews: &[Option<OneLink>],
) -> Result<String, AllocError> {
    let line = std::str::from_utf8(written).unwrap_or("");
    let told = told_of_crews(alloc, crews)?;
    format!(in alloc; "{status} {line}{}", told.as_str())
}

/// What was written to the connection of each crew that is back, each in a line.
fn told_of_crews(alloc: Global, crews: &[Option<OneLink>]) -> Result<String, AllocError> {
    let mut text = String::new(alloc);
    for back in crews {
        if let Some(crew) = back {
            text.push_str(told(alloc, &crew.listener)?.as_str())?;
            text.push_str("\n")?;
        }
    }
    Ok(text)
}

/// What a server of one worker writes where nothing fails.
fn answer_of_one() -> &'static str {
    concat!(
        "0 listening 8983\n",
        "HTTP/1.1 200 OK\r\nContent-Type: application/json;charset=utf-8\r\nContent-Length: 67\r\n\r\n",
        r#"{"adds":["abc",1048576000],"responseHeader":{"QTime":0,"status":0}} 0:0+ 0:1+"#,
        "\n",
    )
}

/// What a server of two workers writes where the second answers first.
fn answers_of_two() -> &'static str {
    concat!(
        "0 listening 8983\n",
        "HTTP/1.1 200 OK\r\nContent-Type: application/json;charset=utf-8\r\nContent-Length: 67\r\n\r\n",
        r#"{"adds":["abc",1048576001],"responseHeader":{"QTime":0,"status":0}} 0:2+ 0:3+"#,
        "\n",
        "HTTP/1.1 200 OK\r\nContent-Type: application/json;charset=utf-8\r\nContent-Length: 67\r\n\r\n",
        r#"{"adds":["abc",1048576000],"responseHeader":{"QTime":0,"status":0}} 0:0+ 0:1+"#,
        "\n",
    )
}

// The body of the first connection comes after the second was answered. So both end after their answer, as is wanted of each, only where
// the second worker serves while the first does. Both write the same id: the journal has the second's write and that it was settled at its
// first two places, and then the first's, of the next version.
#[test]
fn two_workers_serve_beside_each_other(rt: HostRuntime) -> Result<(), Fail> {
    let alloc = rt.alloc();
    let crews = slow_and_quick(alloc)?;
    let served = served(&rt, alloc, 2, crews, List::new(alloc), List::new(alloc))?;
    assert_text(&rt, served.as_str(), answers_of_two());
    Ok(())
}

/// Two crews. The connection of the first waits for the answer to that of the second.
fn slow_and_quick(alloc: Global) -> Result<Vec<OneLink>, AllocError> {
    let second = new_mark(alloc)?;
    let waits_for = Arc::try_clone(&second)?;
    let slow = slow_crew(alloc, waits_for)?;
    match crew_that_posts(alloc, r#"[{"id":"abc","t_s":"y"}]"#, None, second) {
        Ok(quick) => Ok(Vec::from_array(alloc, [slow, quick])?),
        Err(refused) => {
            drop(slow);
            Err(refused)
        }
    }
}

/// The first of the two.
fn slow_crew(alloc: Global, waits_for: Arc<AtomicBool, Global>) -> Result<OneLink, AllocError> {
    let first = new_mark(alloc)?;
    crew_that_posts(alloc, r#"[{"id":"abc","t_s":"x"}]"#, Some(waits_for), first)
}

/// A crew to which a connection comes that posts this body.
fn crew_that_posts(
    alloc: Global,
    body: &str,
    waits_for: Option<Arc<AtomicBool, Global>>,
    sets: Arc<AtomicBool, Global>,
) -> Result<OneLink, AllocError> {
    let link = link_of(alloc, body, waits_for, sets)?;
    crew_of(alloc, link)
}

/// A mark that is not set.
fn new_mark(alloc: Global) -> Result<Arc<AtomicBool, Global>, AllocError> {
    Ok(Arc::new(alloc, AtomicBool::new(false))?)
}

/// The crew of a server of one worker.
fn only_crew(alloc: Global) -> Result<Vec<OneLink>, AllocError> {
    let mark = new_mark(alloc)?;
    let crew = crew_that_posts(alloc, r#"[{"id":"abc","t_s":"x"}]"#, None, mark)?;
    Ok(Vec::from_array(alloc, [crew])?)
}

/// What a server of one worker comes to, where opening the port or writing of it fails at these calls.
fn served_by_one<R: Threads + Wait + Sync>(
    rt: &R,
    alloc: Global,
    opens: List<u64>,
    lines: List<u64>,
) -> Result<String, AllocError> {
    let crews = only_crew(alloc)?;
    served(rt, alloc, 1, crews, opens, lines)
}

#[test]
fn a_status_says_what_failed(rt: HostRuntime) -> Result<(), Fail> {
    let alloc = rt.alloc();
    let first = || -> Result<List<u64>, AllocError> {
        Ok(List::from_vec(Vec::from_array(alloc, [0])?))
    };
    assert_comes_to(&rt, alloc, first()?, List::new(alloc), "7 ")?;
    assert_comes_to(&rt, alloc, List::new(alloc), first()?, "5 \n")?;
    assert_comes_to(
        &rt,
        alloc,
        List::new(alloc),
        List::new(alloc),
        answer_of_one(),
    )?;
    Ok(())
}

/// A server of one worker, where these calls fail, comes to this.
fn assert_comes_to<R: Threads + Wait + Sync + Abort>(
    rt: &R,
    alloc: Global,
    opens: List<u64>,
    lines: List<u64>,
    wanted: &str,
) -> Result<(), AllocError> {
    let found = served_by_one(rt, alloc, opens, lines)?;
    assert_text(rt, found.as_str(), wanted);
    Ok(())
}
