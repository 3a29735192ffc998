ghost use Rattle.std.specs.Prelude.{◌≡◌, map, string_bytes, if◌then◌else◌, Some, None, IfOk, IfSome};
ghost use Rattle.sc_collection.specs.Shapes.{IsShape, is_shape};
ghost use Rattle.sc_arguments.specs.Options.{settings};
ghost use Rattle.sc_arguments.specs.Found.{settings_found, HaveValues};
ghost use Rattle.sc_arguments.specs.Arguments as asked;

use crate::command::Command;
use crate::options::{number_given, number_or, options_of};
use crate::ranges::{shape_of, within};
use clap::ArgMatches;
use sc_collection::Shape;
use std::alloc::{AllocError, Global};

/// The greatest port.
const GREATEST_PORT: u32 = 65_535;

/// The most workers of a server or of a demonstration.
const MOST_WORKERS: u32 = 64;

/// The most connections that each worker of a server serves.
const MOST_CONNECTIONS: u32 = 4_294_967_295;

/// The most orders of a demonstration.
const MOST_ORDERS: u32 = 100_000;

/// The port of a server, where none is given.
const DEFAULT_PORT: u64 = 8983;

/// How many workers a server or a demonstration has, where no number is given.
const DEFAULT_WORKERS: u64 = 4;

/// How many connections each worker of a server serves, where no number is given.
const DEFAULT_CONNECTIONS: u64 = 4_294_967_295;

/// The seed of a workload, where none is given.
const DEFAULT_SEED: u64 = 1;

/// How many orders a workload has, where no number is given.
const DEFAULT_COUNT: u64 = 1000;

/// What the arguments ask for.
#[derive(Clone, Copy, Debug)]
pub enum Asked {
    /// To serve one connection over standard input and output.
    Script(Script),
    /// To listen at a port.
    Serve(Server),
    /// To make a workload.
    Demo(Demo),
}

/// How one connection is served.
#[derive(Clone, Copy, Debug)]
pub struct Script {
    /// How the collection is laid out.
    pub shape: Shape,
    /// The timestamp, in milliseconds, at which the clock stands still; the machine's clock where there is none.
    pub clock: Option<u64>,
}

/// How the connections to a port are served.
#[derive(Clone, Copy, Debug)]
pub struct Server {
    /// How the collection is laid out.
    pub shape: Shape,
    /// The timestamp, in milliseconds, at which the clock stands still; the machine's clock where there is none.
    pub clock: Option<u64>,
    /// The port at which the server listens, from 1.
    pub port: u16,
    /// How many workers serve connections, from 1.
    pub workers: u32,
    /// How many connections each worker serves, from 1.
    pub max_connections: u32,
}

/// A workload that several workers make beside a split.
#[derive(Clone, Copy, Debug)]
pub struct Demo {
    /// The seed of the workload.
    pub seed: u64,
    /// How many orders it has, from 1.
    pub count: u32,
    /// How many workers make it, from 1.
    pub workers: u32,
}

/// What the program's arguments ask for; nothing where they are no line of its usage.
pub fn asked_of(alloc: Global, arguments: &[String]) -> Result<Option<Asked>, AllocError>
    ensures asked { IfOk result (λ found. found ≡ asked.asked_of (map string_bytes arguments.now)) }
    ensures shape { IfOk result (λ found. IfSome found (λ one. IsShape (asked.shape_asked one))) }
    ensures range { IfOk result (λ found. IfSome found (λ one. asked.IsAsked one)) }
{
    let Some((command, options)) = arguments.split_first() else {
        return Ok(None);
    };
    match command.as_str() {
        "script" => match script_of(alloc, options)? {
            Some(script) => Ok(Some(Asked::Script(script))),
            None => Ok(None),
        },
        "serve" => match server_of(alloc, options)? {
            Some(server) => Ok(Some(Asked::Serve(server))),
            None => Ok(None),
        },
        "demo" => match demo_of(alloc, options)? {
            Some(demo) => Ok(Some(Asked::Demo(demo))),
            None => Ok(None),
        },
        _ => Ok(None),
    }
}

/// The script that words ask for.
fn script_of(alloc: Global, words: &[String]) -> Result<Option<Script>, AllocError>
    ensures asked { IfOk result (λ script. script ≡ asked.script_by (settings (map string_bytes words.now))) }
    ensures shape { IfOk result (λ script. IfSome script (λ one. IsShape one.shape)) }
{
    match options_of(alloc, Command::Script, words)? {
        Some(found) => {
            let script = script_in(&found);
            drop(found);
            Ok(script)
        }
        None => Ok(None),
    }
}

/// The script of these options, where its numbers are in their ranges.
fn script_in(found: &ArgMatches<'_>) -> Option<Script>
    requires values { HaveValues found.now }
    ensures asked { result ≡ (if is_shape (asked.shape_of (settings_found found.now)) then Some (asked.script_of (settings_found found.now)) else None) }
    ensures shape { IfSome result (λ script. IsShape script.shape) }
{
    Some(Script {
        shape: shape_of(found)?,
        clock: number_given(found, "clock"),
    })
}

/// The server that words ask for.
fn server_of(alloc: Global, words: &[String]) -> Result<Option<Server>, AllocError>
    ensures asked { IfOk result (λ server. server ≡ asked.server_by (settings (map string_bytes words.now))) }
    ensures range { IfOk result (λ server. IfSome server (λ one. asked.IsServer one)) }
{
    match options_of(alloc, Command::Serve, words)? {
        Some(found) => {
            let server = server_in(&found);
            drop(found);
            Ok(server)
        }
        None => Ok(None),
    }
}

/// The server of these options, where its numbers are in their ranges.
fn server_in(found: &ArgMatches<'_>) -> Option<Server>
    requires values { HaveValues found.now }
    ensures asked { result ≡ (if asked.is_server (asked.server_of (settings_found found.now)) then Some (asked.server_of (settings_found found.now)) else None) }
    ensures range { IfSome result (λ server. asked.IsServer server) }
{
    Some(Server {
        shape: shape_of(found)?,
        clock: number_given(found, "clock"),
        port: within(number_or(DEFAULT_PORT, found, "port"), 1, GREATEST_PORT)? as u16,
        workers: within(
            number_or(DEFAULT_WORKERS, found, "workers"),
            1,
            MOST_WORKERS,
        )?,
        max_connections: within(
            number_or(DEFAULT_CONNECTIONS, found, "max-connections"),
            1,
            MOST_CONNECTIONS,
        )?,
    })
}

/// The workload that words ask for.
fn demo_of(alloc: Global, words: &[String]) -> Result<Option<Demo>, AllocError>
    ensures asked { IfOk result (λ demo. demo ≡ asked.demo_by (settings (map string_bytes words.now))) }
    ensures range { IfOk result (λ demo. IfSome demo (λ one. asked.IsDemo one)) }
{
    match options_of(alloc, Command::Demo, words)? {
        Some(found) => {
            let demo = demo_in(&found);
            drop(found);
            Ok(demo)
        }
        None => Ok(None),
    }
}

/// The workload of these options, where its numbers are in their ranges.
fn demo_in(found: &ArgMatches<'_>) -> Option<Demo>
    requires values { HaveValues found.now }
    ensures asked { result ≡ (if asked.is_demo (asked.demo_of (settings_found found.now)) then Some (asked.demo_of (settings_found found.now)) else None) }
    ensures range { IfSome result (λ demo. asked.IsDemo demo) }
{
    Some(Demo {
        seed: number_or(DEFAULT_SEED, found, "seed"),
        count: within(number_or(DEFAULT_COUNT, found, "count"), 1, MOST_ORDERS)?,
        workers: within(
            number_or(DEFAULT_WORKERS, found, "workers"),
            1,
            MOST_WORKERS,
        )?,
    })
}
