ghost use Rattle.std.specs.Prelude.{◌≡◌, ◌<◌, ◌≤◌, length};

use crate::fault::Faults;
use sc_record::List;

/// A source of these bytes. `at` is the place of the next one, `most` how many a read gives at most.
/// The reads whose numbers, counted from 0, are in `fails` fail. `calls` is the number of the next
/// read; at 2^64 - 1 it stands still, and each read from there on has that number.
#[derive(Debug, Drop)]
pub struct MemSource {
    pub bytes: List<u8>,
    pub at: usize,
    pub most: usize,
    pub fails: List<u64>,
    pub calls: u64,
    pub faults: Faults,
    pub ghost within: { at ≤ length bytes },
    pub ghost gives_some: { 0 < most },
}

impl MemSource {
    /// A source of which nothing was read yet.
    pub fn new(bytes: List<u8>, most: usize, fails: List<u64>) -> MemSource
        requires { 0 < most }
        ensures bytes { result.bytes ≡ bytes }
        ensures at { result.at ≡ 0 }
        ensures most { result.most ≡ most }
        ensures fails { result.fails ≡ fails }
        ensures calls { result.calls ≡ 0 }
        ensures faults { result.faults ≡ 0 }
    {
        MemSource {
            bytes,
            at: 0,
            most,
            fails,
            calls: 0,
            faults: Faults::none(),
        }
    }
}
