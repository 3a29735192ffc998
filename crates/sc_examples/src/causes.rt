//! The causes of `sc_reply`, by their names.

use crate::line::joined;
use crate::words::word_and;
use sc_reply::Cause;
use std::alloc::{AllocError, Global};

/// The status and the message of the cause of this name, with the name or the number that it may have.
pub fn cause_line(alloc: Global, text: &str) -> Result<String, AllocError> {
    let (name, given) = word_and(text);
    let cause = cause_of(name, given);
    let message = cause.message(alloc)?;
    joined(alloc, &cause.status(), " ", &message.as_str())
}

fn cause_of<'a>(name: &str, given: &'a str) -> Cause<'a> {
    match name {
        "NotFound" => Cause::NotFound,
        "MethodNotAllowed" => Cause::MethodNotAllowed,
        "EncodedBody" => Cause::EncodedBody,
        "NoLength" => Cause::NoLength,
        "BadJson" => Cause::BadJson,
        "TooMany" => Cause::TooMany,
        _ => other_cause(name, given),
    }
}

fn other_cause<'a>(name: &str, given: &'a str) -> Cause<'a> {
    match name {
        "NoId" => Cause::NoId,
        "IdTooLong" => Cause::IdTooLong,
        "LogFull" => Cause::LogFull,
        "UnknownShard" => Cause::UnknownShard,
        "RangeTooSmall" => Cause::RangeTooSmall,
        "BadRanges" => Cause::BadRanges,
        "TooManySlices" => Cause::TooManySlices,
        "Stopped" => Cause::Stopped,
        _ => cause_with(name, given),
    }
}

/// A cause with a name or a number.
fn cause_with<'a>(cause: &str, name: &'a str) -> Cause<'a> {
    match cause {
        "UnknownField" => Cause::UnknownField { name },
        "WrongValue" => Cause::WrongValue { name },
        "Partial" => Cause::Partial { name },
        "BadParam" => Cause::BadParam { name },
        "Running" => Cause::Running { shard: name },
        "ShardState" => Cause::ShardState { state: name },
        "HostFault" => Cause::HostFault { core: name },
        _ => last_cause(cause, name),
    }
}

fn last_cause<'a>(cause: &str, given: &'a str) -> Cause<'a> {
    match cause {
        "Conflict" => Cause::Conflict {
            id: given,
            expected: 5,
            actual: -1,
        },
        "BadShape" => Cause::BadShape {
            at: given.parse().unwrap_or(0),
        },
        "BadQuery" => Cause::BadQuery {
            at: given.parse().unwrap_or(0),
        },
        _ => Cause::Memory,
    }
}
