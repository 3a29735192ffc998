//! `sc_cluster`: `cluster.cut COUNT RANGE`, `cluster.core REPLICA SLICE`, `cluster.leads HASH`, `cluster.named NAME`,
//! `cluster.slices` and `cluster.nodes REPLICA`, the last four in a collection of four slices with two replicas on three nodes.

use crate::line::Line;
use crate::splits;
use crate::words::word_and;
use sc_cluster::{ClusterMap, Slice, core_name, cut};
use sc_hash::{Range, parse_range, range_text};
use std::alloc::{AllocError, Global};

pub fn answer(alloc: Global, question: &str, text: &str) -> Result<String, AllocError> {
    match question {
        "cut" => parts(alloc, text),
        "core" => core(alloc, text),
        "after" | "during" => splits::answer(alloc, question, text),
        _ => {
            let map = ClusterMap::new(alloc, 4, 2, 3)?;
            in_map(alloc, &map, question, text)
        }
    }
}

/// The parts of a range.
fn parts(alloc: Global, text: &str) -> Result<String, AllocError> {
    let (count, range) = word_and(text);
    let count = count.parse::<u32>().unwrap_or(0);
    if count < 1 || 256 < count {
        return Err(AllocError);
    }
    let Some(range) = parse_range(range) else {
        return Err(AllocError);
    };
    match cut(alloc, &range, count) {
        Ok(parts) => ranges(alloc, parts.as_slice()),
        Err(fault) => fault.to_string(alloc),
    }
}

/// The ranges, each before a space.
fn ranges(alloc: Global, parts: &[Range]) -> Result<String, AllocError> {
    let mut line = Line::new(alloc);
    for part in parts {
        line.add(range_text(alloc, part));
        line.push(" ");
    }
    line.end()
}

fn core(alloc: Global, text: &str) -> Result<String, AllocError> {
    let (replica, slice) = word_and(text);
    let name = core_name(alloc, slice, replica.parse().unwrap_or(0))?;
    String::from_str(alloc, name.as_str())
}

fn in_map(
    alloc: Global,
    map: &ClusterMap,
    question: &str,
    text: &str,
) -> Result<String, AllocError> {
    match question {
        "slices" => slices(alloc, map),
        "leads" => {
            let hash = u32::from_str_radix(text, 16).unwrap_or(0);
            map.leads(hash.cast_signed()).0.to_string(alloc)
        }
        "named" => named(alloc, map, text),
        _ => nodes(alloc, map, text),
    }
}

/// Each slice: its id, name, range, state, replicas and node.
pub fn slices(alloc: Global, map: &ClusterMap) -> Result<String, AllocError> {
    let mut line = Line::new(alloc);
    for at in 0..map.len() {
        if let Some(slice) = map.get(at) {
            put_slice(alloc, &mut line, slice);
        }
    }
    line.end()
}

fn put_slice(alloc: Global, line: &mut Line, slice: &Slice) {
    line.put("", &slice.id.0);
    line.push(" ");
    line.push(slice.name.as_str());
    line.push(" ");
    line.add(range_text(alloc, &slice.range));
    line.debug(" ", &slice.state);
    line.put(" ", &slice.replicas);
    line.put(" ", &slice.node);
    line.push(";");
}

/// The id of the slice of this name.
fn named(alloc: Global, map: &ClusterMap, name: &str) -> Result<String, AllocError> {
    match map.by_name(name) {
        Some(id) => id.0.to_string(alloc),
        None => String::from_str(alloc, "none"),
    }
}

/// The node of a replica of the second slice.
fn nodes(alloc: Global, map: &ClusterMap, text: &str) -> Result<String, AllocError> {
    let replica = text.parse::<u8>().unwrap_or(0);
    match map.get(1) {
        Some(slice) if replica > 0 => slice.node_of(replica, 3).to_string(alloc),
        _ => Err(AllocError),
    }
}
