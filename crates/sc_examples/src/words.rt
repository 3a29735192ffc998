ghost use Rattle.std.specs.Prelude.{◌≤◌, ◌+◌, ◌-◌, ◌*◌, ◌^◌};

use sc_record::{CoreId, SliceId};

/// The word at this place of a line; empty where there is none.
pub fn word<'a>(words: &[&'a str], at: usize) -> &'a str {
    words.get(at).copied().unwrap_or("")
}

/// The first word, and what follows the space behind it; all of a text without a space, and nothing.
pub fn word_and(text: &str) -> (&str, &str) {
    text.split_once(' ').unwrap_or((text, ""))
}

/// The number at this place of a line; 0 where there is none.
pub fn number(words: &[&str], at: usize) -> u64 {
    word(words, at).parse().unwrap_or(0)
}

/// The number with a sign at this place of a line; 0 where there is none.
pub fn signed(words: &[&str], at: usize) -> i64 {
    word(words, at).parse().unwrap_or(0)
}

/// The core whose slice and replica the first words after the event's name are.
pub fn core(words: &[&str]) -> CoreId {
    CoreId {
        slice: SliceId(word(words, 1).parse().unwrap_or(0)),
        replica: word(words, 2).parse().unwrap_or(1).max(1),
    }
}

/// How many entries a journal may have, at this place of a line: at least 16 and one for each replica of a shard above the first.
pub fn log_limit(words: &[&str], at: usize, shards: u32, replicas: u8) -> u64
    requires shards { shards ≤ 256 }
    requires replicas { 1 ≤ replicas }
    ensures least { 16 + shards * (replicas - 1) ≤ result }
    ensures most { result ≤ 2 ^ 24 }
{
    let least = 16 + u64::from(shards) * u64::from(replicas - 1);
    number(words, at).clamp(least, 16_777_216)
}
