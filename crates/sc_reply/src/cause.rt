ghost use Rattle.std.specs.Prelude.{◌≡◌, ◌++◌, IfOk, codes, decimal};
ghost use Rattle.std.specs.Fmt.{signed_decimal};
ghost use Rattle.sc_reply.specs.Refusals.{refusal_status, message_of};
ghost use Rattle.sc_reply.specs.Causes.{refusal_of};

use sc_cluster::MOST_SLICES;
use sc_record::{MAX_ID_LENGTH, MAX_ORDERS, Text};
use std::alloc::{AllocError, Global};

/// Why a request is refused.
#[derive(Debug, Drop)]
pub enum Cause<'a> {
    /// No such path.
    NotFound,
    /// Neither GET nor POST.
    MethodNotAllowed,
    /// A body with a content coding (RFC 9110, section 8.4).
    EncodedBody,
    /// A POST of an update that states no length.
    NoLength,
    /// The body is no JSON text.
    BadJson,
    /// The body asks for none of what may be asked for. `at` orders come before that.
    BadShape {
        at: u32,
    },
    /// More orders than an update may have.
    TooMany,
    /// A document without an id, or with one that is null or empty.
    NoId,
    /// An id that is too long.
    IdTooLong,
    /// A field of which no kind is known.
    UnknownField {
        name: &'a str,
    },
    /// A value or a change that the field does not take.
    WrongValue {
        name: &'a str,
    },
    /// A change that the values of the field as they stand do not take.
    Partial {
        name: &'a str,
    },
    /// The condition of an order was not met by the version that was found, as it is shown.
    Conflict {
        id: &'a str,
        expected: i64,
        actual: i64,
    },
    /// A journal has no room.
    LogFull,
    /// What stands in the journals was not written to the update log on disk.
    LogFailed,
    /// A query that can't be read, from this byte of its text on.
    BadQuery {
        at: u32,
    },
    /// A deletion by query, of more documents than one may delete.
    TooManyMatches,
    /// A parameter that has no such value.
    BadParam {
        name: &'a str,
    },
    /// No slice of the name.
    UnknownShard,
    /// A split of the slice goes on.
    Running {
        shard: &'a str,
    },
    /// The slice is in a state that does not take the command.
    ShardState {
        state: &'a str,
    },
    /// The slice's range has fewer hashes than parts were asked for.
    RangeTooSmall,
    /// The ranges that were asked for are not the parts of the slice's.
    BadRanges,
    /// More than 256 slices.
    TooManySlices,
    /// A host did not start or stop the core.
    HostFault {
        core: &'a str,
    },
    /// The split was stopped before its end.
    Stopped,
    /// No core of the name.
    UnknownCore,
    /// The core leads its slice.
    CoreIsLeader,
    /// None of the slice's followers is on a node that answers.
    NoCandidate,
    /// The follower that would lead is down in this bucket.
    Behind {
        bucket: u32,
    },
    /// Memory ran out.
    Memory,
}

impl<'a> Cause<'a> {
    /// The status of the refusal (RFC 9110, section 15).
    pub fn status(&self) -> u16
        ensures { result ≡ refusal_status (refusal_of self.now) }
    {
        match self {
            Cause::BadJson
            | Cause::BadShape { .. }
            | Cause::TooMany
            | Cause::NoId
            | Cause::IdTooLong
            | Cause::UnknownField { .. }
            | Cause::WrongValue { .. }
            | Cause::Partial { .. }
            | Cause::BadQuery { .. }
            | Cause::TooManyMatches
            | Cause::BadParam { .. }
            | Cause::UnknownShard
            | Cause::ShardState { .. }
            | Cause::RangeTooSmall
            | Cause::BadRanges
            | Cause::TooManySlices
            | Cause::UnknownCore
            | Cause::CoreIsLeader
            | Cause::NoCandidate => 400,
            Cause::NotFound => 404,
            Cause::MethodNotAllowed => 405,
            Cause::EncodedBody => 415,
            Cause::NoLength => 411,
            Cause::Conflict { .. } | Cause::Running { .. } | Cause::Behind { .. } => 409,
            Cause::HostFault { .. } | Cause::Stopped | Cause::LogFailed => 500,
            Cause::Memory => 503,
            Cause::LogFull => 507,
        }
    }

    /// The message of the refusal, in the words of Solr where Solr has them.
    pub fn message(&self, alloc: Global) -> Result<Text, AllocError>
        ensures { IfOk result (λ text. text ≡ message_of (refusal_of self.now)) }
    {
        match self {
            Cause::NotFound => Text::new(alloc, "not found"),
            Cause::MethodNotAllowed => Text::new(alloc, "method not allowed"),
            Cause::EncodedBody => Text::new(alloc, "encoded bodies are not read"),
            Cause::NoLength => Text::new(alloc, "length required"),
            Cause::BadJson => Text::new(alloc, "invalid JSON"),
            Cause::BadShape { at } => numbered(alloc, "unexpected content at command ", *at),
            Cause::TooMany => limited(alloc, "more than ", MAX_ORDERS, " commands"),
            Cause::NoId => Text::new(alloc, "Document is missing mandatory uniqueKey field: id"),
            Cause::IdTooLong => limited(alloc, "id is longer than ", MAX_ID_LENGTH, " bytes"),
            Cause::UnknownField { name } => quoted(alloc, "unknown field '", name, "'"),
            Cause::WrongValue { name } => quoted(alloc, "wrong value for field '", name, "'"),
            Cause::Partial { name } => quoted(alloc, "field '", name, "' can't take this change"),
            Cause::Conflict {
                id,
                expected,
                actual,
            } => conflict(alloc, id, *expected, *actual),
            Cause::LogFull => Text::new(alloc, "update log is full"),
            Cause::LogFailed => Text::new(alloc, "update log failed"),
            Cause::BadQuery { at } => numbered(alloc, "bad query at ", *at),
            Cause::TooManyMatches => limited(
                alloc,
                "query matches more than ",
                MAX_ORDERS,
                " documents",
            ),
            Cause::BadParam { name } => quoted(alloc, "bad parameter '", name, "'"),
            Cause::UnknownShard => Text::new(alloc, "unknown shard"),
            Cause::Running { shard } => quoted(alloc, "split of ", shard, " is running"),
            Cause::ShardState { state } => ending(alloc, "shard is ", state),
            Cause::RangeTooSmall => Text::new(alloc, "range of shard is too small"),
            Cause::BadRanges => Text::new(alloc, "ranges do not cover the shard"),
            Cause::TooManySlices => limited(alloc, "more than ", MOST_SLICES, " shards"),
            Cause::HostFault { core } => ending(alloc, "host failed on core ", core),
            Cause::Stopped => Text::new(alloc, "split was stopped"),
            Cause::UnknownCore => Text::new(alloc, "unknown core"),
            Cause::CoreIsLeader => Text::new(alloc, "core is a leader"),
            Cause::NoCandidate => Text::new(alloc, "no replica can lead"),
            Cause::Behind { bucket } => numbered(alloc, "replica is behind in bucket ", *bucket),
            Cause::Memory => Text::new(alloc, "out of memory"),
        }
    }
}

/// The words and a number after them.
fn numbered(alloc: Global, before: &str, n: u32) -> Result<Text, AllocError>
    ensures { IfOk result (λ text. text ≡ before.now ++ decimal n) }
{
    Ok(Text::from_string(alloc, format!(in alloc; "{before}{n}")?)?)
}

/// A limit between words.
fn limited(alloc: Global, before: &str, limit: usize, after: &str) -> Result<Text, AllocError>
    ensures { IfOk result (λ text. text ≡ before.now ++ decimal limit ++ after.now) }
{
    Ok(Text::from_string(alloc, format!(in alloc; "{before}{limit}{after}")?)?)
}

/// The words and a name after them.
fn ending(alloc: Global, before: &str, name: &str) -> Result<Text, AllocError>
    ensures { IfOk result (λ text. text ≡ before.now ++ name.now) }
{
    Ok(Text::from_string(alloc, format!(in alloc; "{before}{name}")?)?)
}

/// A name between words.
fn quoted(alloc: Global, before: &str, name: &str, after: &str) -> Result<Text, AllocError>
    ensures { IfOk result (λ text. text ≡ before.now ++ name.now ++ after.now) }
{
    Ok(Text::from_string(alloc, format!(in alloc; "{before}{name}{after}")?)?)
}

/// The message of a conflict.
fn conflict(alloc: Global, id: &str, expected: i64, actual: i64) -> Result<Text, AllocError>
    ensures { IfOk result (λ text. text ≡ codes "version conflict for " ++ (id.now
        ++ (codes " expected=" ++ (signed_decimal expected ++ (codes " actual=" ++ signed_decimal actual))))) }
{
    let message = format!(in alloc;
        "version conflict for {id} expected={expected} actual={actual}"
    )?;
    Ok(Text::from_string(alloc, message)?)
}
