ghost use Rattle.std.specs.Prelude.{◌≡◌};

use sc_record::{List, Text};
use std::marker::Model;

/// Bytes, as those of a body.
#[derive(Debug, Drop)]
pub struct Bytes {
    bytes: Vec<u8>,
}

impl Model for Bytes {
    ghost use Rattle.std.specs.Prelude.{List, ℕ};

    ghost Value = { List ℕ };

    ghost view = { λ a. a.bytes.items };
}

impl Bytes {
    /// These bytes, with no copy.
    pub fn from_vec(bytes: Vec<u8>) -> Bytes
        ensures { result ≡ bytes.items }
    {
        Bytes { bytes }
    }

    /// The bytes, with no copy.
    pub fn into_vec(self) -> Vec<u8>
        ensures { result.items ≡ self }
    {
        let Bytes { bytes } = self;
        bytes
    }

    pub fn as_slice(&self) -> &[u8]
        ensures { result.now ≡ self.now }
    {
        self.bytes.as_slice()
    }
}

/// The method of a request (RFC 9110, section 9), as far as it is distinguished.
#[derive(Clone, Copy, Debug, PartialEq, Eq)]
pub enum Method {
    Get,
    Post,
    Other,
}

/// A parameter of a request, decoded.
#[derive(Debug, Drop)]
pub struct Param {
    pub name: Text,
    pub value: Text,
}

/// A request as it came.
#[derive(Debug, Drop)]
pub struct Incoming {
    pub method: Method,
    /// The target up to its first `?`, not decoded.
    pub path: Text,
    /// The parameters of the target, in order.
    pub params: List<Param>,
    pub body: Bytes,
    /// Whether a `Content-Encoding` header names a coding other than `identity`.
    pub encoded: bool,
    /// Whether the head states neither a length nor a coding of a body.
    pub lengthless: bool,
    /// Whether the connection is to be closed after the answer.
    pub close: bool,
}
