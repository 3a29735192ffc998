use std::alloc::{AllocError, Global};
use std::fmt;

/// A line that is written piece by piece, and is none once memory ran out for a piece.
#[derive(Drop)]
pub struct Line {
    alloc: Global,
    text: String,
    lost: bool,
}

impl Line {
    pub fn new(alloc: Global) -> Line {
        Line {
            alloc,
            text: String::new(alloc),
            lost: false,
        }
    }

    /// Puts a text at the end.
    pub fn push(&mut self, text: &str) {
        if self.text.push_str(text).is_err() {
            self.lost = true;
        }
    }

    /// Puts a text at the end, and then a value.
    pub fn put<T: fmt::Display>(&mut self, before: &str, value: &T) {
        self.add(format!(in self.alloc; "{before}{value}"));
    }

    /// Puts a text at the end, and then a value as programmers see it.
    pub fn debug<T: fmt::Debug>(&mut self, before: &str, value: &T) {
        self.add(format!(in self.alloc; "{before}{value:?}"));
    }

    /// Puts a text at the end that was made for it, if memory did not run out.
    pub fn add(&mut self, made: Result<String, AllocError>) {
        match made {
            Ok(text) => self.push(text.as_str()),
            Err(_) => self.lost = true,
        }
    }

    /// The whole line.
    pub fn end(self) -> Result<String, AllocError> {
        let Line { text, lost, .. } = self;
        if lost { Err(AllocError) } else { Ok(text) }
    }
}

/// Two values as a text, with this one between them.
pub fn joined<A: fmt::Display, B: fmt::Display>(
    alloc: Global,
    left: &A,
    between: &str,
    right: &B,
) -> Result<String, AllocError> {
    format!(in alloc; "{left}{between}{right}")
}
