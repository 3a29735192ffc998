ghost use Rattle.std.specs.Prelude.{◌≡◌};

use crate::words::number;
use sc_io::{MemSink, MemSource};
use sc_record::List;
use std::alloc::{AllocError, Global};

/// What the bytes of each connection go through.
#[derive(Drop)]
pub struct Wire {
    /// How many bytes a read gives at most; 0 counts as 1.
    most: usize,
    /// The reads and the writes that fail, by their numbers, counted from 0 in each connection.
    reads: Vec<u64>,
    writes: Vec<u64>,
}

impl Wire {
    /// A read gives at most seven bytes, and nothing fails.
    pub fn new(alloc: Global) -> Wire {
        Wire {
            most: 7,
            reads: Vec::new(alloc),
            writes: Vec::new(alloc),
        }
    }

    /// Changes what one of the lines `pieces N`, `reads N..` and `writes N..` sets.
    pub fn set(&mut self, alloc: Global, words: &[&str]) -> Result<(), AllocError> {
        let mut numbers = Vec::new(alloc);
        for at in 1..words.len() {
            numbers.push(number(words, at))?;
        }
        match words.first().copied() {
            Some("reads") => self.reads = numbers,
            Some("writes") => self.writes = numbers,
            _ => self.most = numbers.first().copied().unwrap_or(7) as usize,
        }
        Ok(())
    }

    /// The source of a connection that sends these bytes.
    pub fn source(&self, alloc: Global, bytes: Vec<u8>) -> Result<MemSource, AllocError> {
        let fails = Vec::from_slice(alloc, self.reads.as_slice())?;
        Ok(MemSource::new(
            List::from_vec(bytes),
            self.most.max(1),
            List::from_vec(fails),
        ))
    }

    /// The sink of a connection.
    pub fn sink(&self, alloc: Global) -> Result<MemSink, AllocError> {
        let fails = Vec::from_slice(alloc, self.writes.as_slice())?;
        Ok(MemSink::new(alloc, List::from_vec(fails)))
    }
}
