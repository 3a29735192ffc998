//! `sc_hash`: `hash.murmur3 SEED TEXT`, `hash.murmur3-bytes SEED HEX`, `hash.range MIN MAX` and `hash.read TEXT`.

use crate::line::joined;
use crate::words::word_and;
use sc_hash::{Range, murmur3, parse_range, range_text};
use std::alloc::{AllocError, Global};

pub fn answer(alloc: Global, question: &str, text: &str) -> Result<String, AllocError> {
    let (first, rest) = word_and(text);
    match question {
        "murmur3" => hash(alloc, first, rest.as_bytes()),
        "murmur3-bytes" => hash(alloc, first, bytes_of(alloc, rest)?.as_slice()),
        "range" => written(alloc, first, rest),
        _ => read(alloc, text),
    }
}

/// The bytes that pairs of hexadecimal digits write, with a space between them.
pub fn bytes_of(alloc: Global, digits: &str) -> Result<Vec<u8>, AllocError> {
    let mut bytes = Vec::new(alloc);
    for pair in digits.split_whitespace() {
        bytes.push(u8::from_str_radix(pair, 16).unwrap_or(0))?;
    }
    Ok(bytes)
}

/// The hash in eight hexadecimal digits, by a seed of such digits.
fn hash(alloc: Global, seed: &str, bytes: &[u8]) -> Result<String, AllocError> {
    let seed = u32::from_str_radix(seed, 16).unwrap_or(0);
    if bytes.len() > 1000 {
        return Err(AllocError);
    }
    format!(in alloc; "{:08x}", murmur3(bytes, seed))
}

/// The range as a text, of two numbers in decimal digits.
fn written(alloc: Global, min: &str, max: &str) -> Result<String, AllocError> {
    match Range::new(min.parse().unwrap_or(0), max.parse().unwrap_or(0)) {
        Some(range) => range_text(alloc, &range),
        None => String::from_str(alloc, "no range"),
    }
}

/// The ends of the range that the text is.
fn read(alloc: Global, text: &str) -> Result<String, AllocError> {
    match parse_range(text) {
        Some(range) => joined(alloc, &range.min, " ", &range.max),
        None => String::from_str(alloc, "no range"),
    }
}
