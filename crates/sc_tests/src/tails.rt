//! `sc_files`, `sc_tail` and `sc_frames`: a new file's bytes, an append of which one call fails, and what a crash amid it leaves.

ghost use Rattle.std.specs.Prelude.{◌≡◌, None, IfOk};
ghost use Rattle.sc_files.specs.Memory.{memory_state};
ghost use Rattle.sc_tail.specs.Tails.{IsTail, IsReading};

use crate::frames::new_head;
use crate::support::assert_same;
use http_server::Log;
use sc_files::{Call, MemFile};
use sc_frames::head_body;
use sc_record::List;
use sc_tail::{Reading, Tail, begin_anew};
use std::alloc::{AllocError, Global};
use std::test::Fail;

// The number of the first call of an append to a file with one frame, and how many calls an append makes: two writes and one of a closed
// mark, a sync, the mark, a sync.
const FIRST: u64 = 10;

const CALLS: u64 = 6;

// The body of a second frame: an entry that settles the write at the place 0.
fn settled() -> &'static [u8] {
    b"\x03\0\0\0\0\0\0\0\0"
}

// How much of a call a crash leaves.
#[derive(Clone, Copy)]
enum Torn {
    Whole,
    // Its first so many bytes.
    Front(usize),
    // Where its bytes were to be, others: all ones, or what looks like frames that are open and have no body.
    Ones,
    Frames,
}

// In how many ways a call may be torn, by their numbers.
const WAYS: usize = 12;

fn torn_in(way: usize) -> Torn {
    match way {
        0 => Torn::Whole,
        1 => Torn::Ones,
        2 => Torn::Frames,
        other => Torn::Front(other.saturating_sub(3)),
    }
}

// What stands at a place of what was to be written there, if it was reached.
fn torn_byte(how: Torn, index: usize, byte: u8) -> Option<u8> {
    match how {
        Torn::Whole => Some(byte),
        Torn::Front(count) if count <= index => None,
        Torn::Front(_) => Some(byte),
        Torn::Ones => Some(255),
        Torn::Frames if index % 9 == 0 => Some(1),
        Torn::Frames => Some(0),
    }
}

fn write_torn(image: &mut Vec<u8>, at: usize, bytes: &[u8], how: Torn) -> Result<(), AllocError> {
    for (index, byte) in bytes.iter().enumerate() {
        let Some(byte) = torn_byte(how, index, *byte) else {
            return Ok(());
        };
        let place = at.saturating_add(index);
        if place < image.len() {
            image[place] = byte;
        } else if place == image.len() {
            image.push(byte)?;
        }
    }
    Ok(())
}

// What a crash leaves of a file, and whether a sync that is done now may keep it.
#[derive(Drop)]
struct Image {
    bytes: Vec<u8>,
    is_kept: bool,
}

// Takes the image over a call of which this is left. It is false where that can't be: a sync that was done says that more is there.
fn go_on(image: &mut Image, call: &Call, how: Torn) -> Result<bool, AllocError> {
    let is_whole = matches!(how, Torn::Whole);
    match call {
        Call::Write { at, bytes, done } => {
            let is_done = is_whole && *at <= image.bytes.len();
            image.is_kept = image.is_kept && (is_done || !*done);
            write_torn(&mut image.bytes, *at, bytes.as_slice(), how)?;
        }
        Call::Cut { len, done } => {
            image.is_kept = image.is_kept && (is_whole || !*done);
            if is_whole {
                image.bytes.truncate(*len);
            }
        }
        Call::Sync { done: true } => return Ok(image.is_kept),
        Call::Sync { done: false } => image.is_kept = true,
    }
    Ok(true)
}

// A crash after so many calls, of which the one of this number is torn so, and each later one is.
#[derive(Clone, Copy)]
struct Crash {
    calls: usize,
    torn: usize,
    how: Torn,
    later: Torn,
}

// The bytes that the crash leaves, if it can be.
fn left_by(alloc: Global, file: &MemFile, crash: Crash) -> Result<Option<Vec<u8>>, AllocError> {
    let mut image = Image {
        bytes: file.first.as_slice().to_vec(alloc)?,
        is_kept: true,
    };
    for (index, call) in file.history.as_slice().iter().enumerate() {
        if index >= crash.calls {
            break;
        }
        let how = if index < crash.torn {
            Torn::Whole
        } else if index == crash.torn {
            crash.how
        } else {
            crash.later
        };
        if !go_on(&mut image, call, how)? {
            return Ok(None);
        }
    }
    Ok(Some(image.bytes))
}

// How many images are opened so: with the head alone, with the write after it, and otherwise.
#[derive(Clone, Copy)]
struct Tally {
    before: u64,
    after: u64,
    other: u64,
}

impl Tally {
    fn note(&mut self, bodies: &[Option<List<u8>>; 3]) {
        let head = head_body(new_head());
        match bodies {
            [Some(one), None, None] if one.as_slice() == head.as_slice() => {
                self.before = self.before.saturating_add(1);
            }
            [Some(one), Some(two), None]
                if one.as_slice() == head.as_slice() && two.as_slice() == settled() => {
                self.after = self.after.saturating_add(1);
            }
            _ => self.other = self.other.saturating_add(1),
        }
    }
}

// The first three bodies that reading finds in a file of these bytes.
fn opened(alloc: Global, bytes: Vec<u8>) -> Result<[Option<List<u8>>; 3], Fail> {
    let mut file = MemFile::new(alloc, List::from_vec(bytes), List::new(alloc))?;
    let mut reading = Reading::begin(&mut file).ok().ok_or("a reading begins")?;
    let one = next(alloc, &mut reading, &mut file)?;
    let two = next(alloc, &mut reading, &mut file)?;
    let three = next(alloc, &mut reading, &mut file)?;
    Ok([one, two, three])
}

// The body of the next frame, if one is open.
fn next(alloc: Global, reading: &mut Reading, file: &mut MemFile) -> Result<Option<List<u8>>, Fail>
    requires { IsReading (memory_state file.old) reading.old }
    ensures { IsReading (memory_state file.new) reading.new }
{
    let body = reading.next(alloc, file).ok().ok_or("a frame is read")?;
    Ok(body)
}

// Counts the images of crashes after so many calls at least, of which one of these, or none, is torn: those from a number on.
fn count_images(alloc: Global, file: &MemFile, least: usize, from: usize) -> Result<Tally, Fail> {
    let mut tally = Tally {
        before: 0,
        after: 0,
        other: 0,
    };
    for calls in least..=file.history.len() {
        for torn in from..=calls {
            count_torn(alloc, file, calls, torn, &mut tally)?;
        }
    }
    Ok(tally)
}

// Counts those of crashes after so many calls, of which this one is torn, and those after it are whole or were not begun.
fn count_torn(
    alloc: Global,
    file: &MemFile,
    calls: usize,
    torn: usize,
    tally: &mut Tally,
) -> Result<(), Fail> {
    for way in 0..WAYS {
        let how = torn_in(way);
        for later in [Torn::Whole, Torn::Front(0)] {
            let crash = Crash {
                calls,
                torn,
                how,
                later,
            };
            if let Some(bytes) = left_by(alloc, file, crash)? {
                tally.note(&opened(alloc, bytes)?);
            }
        }
    }
    Ok(())
}

// A new file with its head, of which the call of this number fails.
fn begun(alloc: Global, fail: u64) -> Result<Tail<MemFile>, Fail>
    ensures sound { IfOk result (λ tail. IsTail memory_state tail) }
    ensures whole { IfOk result (λ tail. tail.half ≡ None) }
{
    let mut fails = List::new(alloc);
    fails.push(fail)?;
    let mut file = MemFile::new(alloc, List::new(alloc), fails)?;
    begin_anew(&mut file).ok().ok_or("a file is begun anew")?;
    let mut tail = Tail::new(file, 0, Log::new());
    let head = List::from_vec(head_body(new_head()).to_vec(alloc)?);
    tail.append(&head).ok().ok_or("the head is appended")?;
    Ok(tail)
}

// Appends the body again, or what is left to do of it.
fn append_again(tail: &mut Tail<MemFile>, body: &List<u8>) -> Result<(), Fail>
    requires { IsTail memory_state tail.old }
{
    if tail.half.is_some() {
        tail.finish().ok().ok_or("a mark is written")?;
    } else {
        tail.append(body).ok().ok_or("a frame is appended")?;
    }
    Ok(())
}

#[test]
fn a_new_file_has_its_bytes(rt: HostRuntime) -> Result<(), Fail> {
    let tail = begun(rt.alloc(), u64::MAX)?;
    assert_eq!(rt;
        tail.file.bytes.as_slice(),
        b"\x01\x1a\0\0\0\0\0\0\0\0\x01\0\0\0\x01\0\0\0\x01\x01\0\0\0\0\0\x10\0\0\0\0\0\0\0\0\0\0".as_slice()
    );
    assert_same(&rt, tail.file.bytes.len(), 36);
    Ok(())
}

#[test]
fn an_append_that_a_crash_cuts_short_is_done_or_not(rt: HostRuntime) -> Result<(), Fail> {
    let alloc = rt.alloc();
    let body = List::from_vec(settled().to_vec(alloc)?);
    for fail in FIRST..=FIRST + CALLS {
        let mut tail = begun(alloc, fail)?;
        let from = tail.file.history.len();
        let is_done = tail.append(&body).is_ok();
        assert_same(&rt, is_done, fail == FIRST + CALLS);
        assert_same(&rt, tail.half.is_some(), !is_done && FIRST + 4 <= fail);
        let first = count_images(alloc, &tail.file, from, from)?;
        assert!(rt; first.before > 0);
        assert_same(&rt, (first.after > 0, first.other), (FIRST + 4 <= fail, 0));
        if !is_done {
            let again = tail.file.history.len();
            append_again(&mut tail, &body)?;
            let second = count_images(alloc, &tail.file, again, from)?;
            assert!(rt; second.before > 0 && second.after > 0);
            assert_same(&rt, second.other, 0);
        }
        let now = tail.file.history.len();
        let last = count_images(alloc, &tail.file, now, from)?;
        assert!(rt; last.after > 0);
        assert_same(&rt, (last.before, last.other), (0, 0));
    }
    Ok(())
}
