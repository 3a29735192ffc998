//! `solr_split`: one SolrCloud collection behind HTTP, in one process.
//!
//! `run` is all that the program does, and its contract is what it promises: which bytes it reads and writes, and its status. `script`
//! serves one connection over standard input and output, `serve` those to a port, by several workers at once, and `demo` makes a workload
//! by several workers beside a split, and tells what came of it. `main` hands it the machine's streams and its station, and says to a person what a status other than 0 means. It depends on `sc_arguments`, which reads its
//! arguments; for `serve` on `sc_server`, whose `run_server` it calls; for `demo` on `sc_demo`, whose `run_demo` it calls; for `script` on `sc_session`, whose `serve` it calls, on
//! `sc_collection`, whose `Alone` keeps the collection, and on `sc_cores`, which names and starts the cores of its first map; and on
//! `sc_sockets` for the station.
//!
//! Proved: `run`, for all arguments and faults. Of `script` the status, and the bytes if source and sink report theirs, by the promise of
//! `sc_session`; that the cores of the first map are started before, if the hosts report theirs, and that those which are started in the
//! end are those of the board's map, if stopping one never failed; that no split runs in the end, so that each bucket is then as the
//! board says; that crew 0 of the station is all that it takes, and is given back; and that it returns, if the threads of its searches run (`run_script`). Of `serve` what
//! `sc_server` promises, and of `demo` what `sc_demo` does. The texts of the usage and of the line for each status (`meaning`). `proofs/UsageExamples` has what the usage's
//! examples ask for.
//!
//! Tested alone: that `run` does not say "out of memory" while there is memory, and the shipped program's own bytes and status: by the
//! stored run of `script`, which sends a document of over 200,000 bytes through standard input and output and ends with status 3.
//!
//! Neither: that these lines reach standard error, that `main` hands over standard input and output and the machine's clock, folders
//! and port, and that `serve` ends.
#![tactic(auto)]

ghost use Rattle.std.specs.Prelude.{◌≡◌};
ghost use Rattle.solr_split.specs.Usage.{meaning_of};

// All that the arguments can ask for, and one connection.
mod run;
mod script;

pub use run::run;
use sc_io::{StdSink, StdSource};
use sc_sockets::TcpStation;
use std::alloc::AllocError;
use std::process::ExitCode;
use std::{env, io};

/// The usage: each command, each option with its range and its default, and an example of each command.
const USAGE: &str = "usage: solr_split script|serve|demo [OPTION VALUE | OPTION=VALUE]...
script serves one connection over standard input and output, serve those to a port,
and demo makes a workload by several workers while the shard is split, and tells what came of it. Options of script and serve:
  --nodes            1 to 16 nodes (1)
  --shards           1 to 64 shards (1)
  --replicas         1 to 4 replicas of each shard (1)
  --buckets          a power of two from 1 to 256 (64)
  --log-limit        16 to 16777216 entries in the journal of a bucket (1048576);
                     with R replicas of each of S shards at least 16 + S * (R - 1)
  --clock            a timestamp from 0 to 18446744073709551615, in milliseconds, at which the clock stands still (the machine's clock)
Options of serve:
  --port             1 to 65535, the port (8983)
  --workers          1 to 64 workers (4)
  --max-connections  1 to 4294967295 connections that each worker serves (4294967295)
Options of demo:
  --seed             0 to 18446744073709551615, which documents the orders begin with (1)
  --count            1 to 100000 orders (1000)
  --workers          1 to 64 workers (4)
as in: solr_split script --buckets=1 --clock 1000 < requests
       solr_split serve --port 8984 --workers=8
       solr_split demo --count 100000 --workers 8";

fn main(rt: HostRuntime) -> ExitCode {
    let mut input = StdSource::new(rt.stdin());
    let mut output = StdSink::new(rt.stdout());
    let mut station = TcpStation::new(rt.alloc(), rt);
    let status = match arguments_of(&rt) {
        Ok(arguments) => run(
            &rt,
            rt.alloc(),
            arguments.as_slice(),
            &mut input,
            &mut output,
            &mut station,
        ),
        Err(error) if error.kind() == io::ErrorKind::InvalidData => 2,
        Err(_) => 6,
    };
    if status != 0 {
        let _ = eprintln!(rt; "solr_split: {}", meaning(status));
    }
    ExitCode::from(status)
}

/// The arguments after the program's name. One that is invalid UTF-8 is an error of the kind `InvalidData`.
fn arguments_of(rt: &HostRuntime) -> io::Result<Vec<String>> {
    let mut arguments = Vec::new(rt.alloc());
    for argument in env::args(rt)?.skip(1) {
        arguments.push(argument).map_err(AllocError::from)?;
    }
    Ok(arguments)
}

/// What a status other than 0 means.
fn meaning(status: u8) -> &'static str
    ensures { result.now ≡ meaning_of status }
{
    match status {
        2 => USAGE,
        3 => "the input ended inside a request, or was no request that can be read",
        4 => "reading from standard input failed",
        5 => "writing to standard output failed",
        7 => "opening the port or accepting a connection failed",
        8 => "starting a core of the collection failed",
        _ => "out of memory",
    }
}
