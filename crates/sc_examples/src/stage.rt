ghost use Rattle.std.specs.Prelude.{◌≡◌, None, IfOk};
ghost use Rattle.sc_bucket.specs.Sound.{IsSound};

use crate::bucket::{come, new_bucket, read};
use crate::connection::{Collection, exchange, new_collection, set_fails, set_stop, show_cores};
use crate::event::event_of;
use crate::state::state_of;
use crate::words::{number, word};
use sc_bucket::Bucket;
use sc_hash::murmur3;
use std::alloc::{AllocError, Global};
use std::mem::replace;
use std::thread::Threads;

/// What the lines are about.
#[derive(Drop)]
pub struct Stage {
    pub bucket: Bucket,
    pub collection: Collection,
    /// The timestamp of requests, in milliseconds.
    pub now: u64,
}

impl Stage {
    pub fn new(alloc: Global) -> Result<Stage, AllocError>
        ensures sound { IfOk result (λ stage. IsSound stage.bucket) }
        ensures out { IfOk result (λ stage. stage.collection.desk.out ≡ None) }
        ensures board_out { IfOk result (λ stage. stage.collection.desk.board_out ≡ None) }
    {
        let bucket = new_bucket(alloc, &[])?;
        match new_collection(alloc, &[]) {
            Ok(collection) => Ok(Stage {
                bucket,
                collection,
                now: 1000,
            }),
            Err(fault) => {
                // By a call, as the program's stage.
                drop(bucket);
                Err(fault)
            }
        }
    }
}

/// What is written for a line of a scenario.
pub fn answer<R: Threads + Sync>(
    rt: &R,
    alloc: Global,
    stage: &mut Stage,
    line: &str,
) -> Result<String, AllocError>
    requires sound { IsSound stage.old.bucket }
    requires out { stage.old.collection.desk.out ≡ None }
    requires board_out { stage.old.collection.desk.board_out ≡ None }
    ensures sound { IsSound stage.new.bucket }
    ensures out { stage.new.collection.desk.out ≡ None }
    ensures board_out { stage.new.collection.desk.board_out ≡ None }
{
    let words = line.split(' ').collect::<Vec<&str>>(alloc)?;
    match word(&words, 0) {
        "GET" | "POST" | "DELETE" => exchange(rt, alloc, &mut stage.collection, stage.now, line),
        "cores" => show_cores(alloc, &stage.collection.hosts),
        "bucket" | "collection" | "fails" | "stops" | "pieces" | "reads" | "writes" | "clock" => {
            set(alloc, stage, &words)?;
            String::from_str(alloc, "done")
        }
        _ => about_bucket(alloc, &mut stage.bucket, &words),
    }
}

/// Does what a line asks for that is answered `done`.
fn set(alloc: Global, stage: &mut Stage, words: &[&str]) -> Result<(), AllocError>
    requires sound { IsSound stage.old.bucket }
    requires out { stage.old.collection.desk.out ≡ None }
    requires board_out { stage.old.collection.desk.board_out ≡ None }
    ensures sound { IsSound stage.new.bucket }
    ensures out { stage.new.collection.desk.out ≡ None }
    ensures board_out { stage.new.collection.desk.board_out ≡ None }
{
    match word(words, 0) {
        "bucket" => set_bucket(alloc, &mut stage.bucket, words),
        "clock" => {
            stage.now = number(words, 1);
            Ok(())
        }
        _ => set_in_collection(alloc, &mut stage.collection, words),
    }
}

/// Puts a new bucket in the old one's place, which is dropped by a call, as the program's stage.
fn set_bucket(alloc: Global, bucket: &mut Bucket, words: &[&str]) -> Result<(), AllocError>
    requires { IsSound bucket.old }
    ensures { IsSound bucket.new }
{
    drop(replace(bucket, new_bucket(alloc, words)?));
    Ok(())
}

/// Puts a new collection in the old one's place, or sets what its hosts, its pace or its wire are to refuse.
fn set_in_collection(
    alloc: Global,
    collection: &mut Collection,
    words: &[&str],
) -> Result<(), AllocError>
    requires out { collection.old.desk.out ≡ None }
    requires board_out { collection.old.desk.board_out ≡ None }
    ensures out { collection.new.desk.out ≡ None }
    ensures board_out { collection.new.desk.board_out ≡ None }
{
    match word(words, 0) {
        "collection" => set_collection(alloc, collection, words),
        "fails" => set_fails(alloc, &mut collection.hosts, words),
        "stops" => {
            set_stop(&mut collection.pace, words);
            Ok(())
        }
        _ => collection.wire.set(alloc, words),
    }
}

/// Puts a new collection in the old one's place, which is dropped so too.
fn set_collection(
    alloc: Global,
    collection: &mut Collection,
    words: &[&str],
) -> Result<(), AllocError>
    requires out { collection.old.desk.out ≡ None }
    requires board_out { collection.old.desk.board_out ≡ None }
    ensures out { collection.new.desk.out ≡ None }
    ensures board_out { collection.new.desk.board_out ≡ None }
{
    drop(replace(collection, new_collection(alloc, words)?));
    Ok(())
}

/// What is written for a line about the bucket: what an event answers, or by `read ID` the id's version, by `show` all that the bucket shows,
/// and by `sum` a checksum of that.
fn about_bucket(alloc: Global, bucket: &mut Bucket, words: &[&str]) -> Result<String, AllocError>
    requires { IsSound bucket.old }
    ensures { IsSound bucket.new }
{
    match word(words, 0) {
        "read" => read(alloc, bucket, words),
        "show" => state_of(alloc, bucket),
        "sum" => {
            let state = state_of(alloc, bucket)?;
            format!(in alloc; "{:08x}", checksum(state.as_str()))
        }
        _ => match event_of(alloc, bucket, words)? {
            Some(event) => come(alloc, bucket, event),
            None => String::from_str(alloc, "no such line"),
        },
    }
}

/// The hash of a state; 0 for one too long to have any.
fn checksum(state: &str) -> u32 {
    let bytes = state.as_bytes();
    if bytes.len() < 4_294_967_296 {
        murmur3(bytes, 0)
    } else {
        0
    }
}
