use sc_io::Faults;
use sc_record::List;
use std::alloc::{AllocError, Global};

/// A call on a file in memory that may have changed what is on the disk. `done` is false where the call failed.
#[derive(Drop)]
pub enum Call {
    /// These bytes were written from a place on.
    Write {
        at: usize,
        bytes: List<u8>,
        done: bool,
    },
    /// The file was cut to a length.
    Cut {
        len: usize,
        done: bool,
    },
    /// What was written was to be on the disk.
    Sync {
        done: bool,
    },
}

/// A file in memory. `bytes` is what a read gives, `first` what was on the disk when it was opened, `history` the calls since then that
/// may have changed that. The calls of all kinds whose numbers, counted from 0, are in `fails` fail, and so does one that finds no
/// memory; a call that failed changed no byte of `bytes`. `calls` is the number of the next call; at 2^64 - 1 it stands still, and each
/// call from there on has that number.
#[derive(Drop)]
pub struct MemFile {
    pub bytes: List<u8>,
    pub first: List<u8>,
    pub history: List<Call>,
    pub fails: List<u64>,
    pub calls: u64,
    pub faults: Faults,
    pub(crate) alloc: Global,
}

impl MemFile {
    ghost use Rattle.std.specs.Prelude.{◌≡◌, [], IfOk};
    ghost use Rattle.sc_files.specs.States.{IsFresh, IsDurable};
    ghost use Rattle.sc_files.specs.Memory.{memory_state};

    /// A file that has these bytes, all of them on the disk. An error means out of memory.
    pub fn new(alloc: Global, bytes: List<u8>, fails: List<u64>) -> Result<MemFile, AllocError>
        ensures bytes { IfOk result (λ file. file.bytes ≡ bytes) }
        ensures first { IfOk result (λ file. file.first ≡ bytes) }
        ensures history { IfOk result (λ file. file.history ≡ []) }
        ensures fails { IfOk result (λ file. file.fails ≡ fails) }
        ensures calls { IfOk result (λ file. file.calls ≡ 0) }
        ensures faults { IfOk result (λ file. file.faults ≡ 0) }
        ensures fresh { IfOk result (λ file. IsFresh (memory_state file)) }
        ensures durable { IfOk result (λ file. IsDurable (memory_state file)) }
    {
        let first = List::from_vec(bytes.as_slice().to_vec(alloc)?);
        Ok(MemFile {
            bytes,
            first,
            history: List::new(alloc),
            fails,
            calls: 0,
            faults: Faults::none(),
            alloc,
        })
    }
}
