//! The six lines of a demonstration.
ghost use Rattle.std.specs.Prelude.{◌≡◌, string_bytes, Some, IfOk};
ghost use Rattle.sc_demo.specs.Lines.{found_lines, lines, made_lines, split_word};

use crate::counting::Found;
use sc_admin::state_name;
use sc_record::Text;
use sc_reply::Cause;
use sc_split::SplitEnd;
use std::alloc::{AllocError, Global};

/// The lines: how many orders were made and how many of them accepted, what the split came to, and how many documents are found. An error
/// means out of memory.
pub fn lines_of(
    alloc: Global,
    orders: u32,
    accepted: u32,
    split: &str,
    found: Found,
) -> Result<String, AllocError>
    ensures { IfOk result (λ text. string_bytes text
        ≡ lines (record { orders = orders; accepted = accepted; split = split.now; found = found })) }
{
    let made = made_lines(alloc, orders, accepted, split)?;
    let found = found_lines(alloc, found)?;
    let made = made.as_str();
    let found = found.as_str();
    format!(in alloc; "{made}{found}")
}

/// The three lines on what was made.
fn made_lines(alloc: Global, orders: u32, accepted: u32, split: &str) -> Result<String, AllocError>
    ensures { IfOk result (λ text. string_bytes text ≡ made_lines orders accepted split.now) }
{
    format!(in alloc; "orders {orders}\naccepted {accepted}\nsplit {split}\n")
}

/// The three lines on what is found.
fn found_lines(alloc: Global, found: Found) -> Result<String, AllocError>
    ensures { IfOk result (λ text. string_bytes text ≡ found_lines found) }
{
    let Found { all, a, b } = found;
    format!(in alloc; "found {all}\ng_s:a {a}\ng_s:b {b}\n")
}

/// What the line on the split says: `done`, or why it was refused. An error means out of memory.
pub fn split_text(alloc: Global, end: &SplitEnd) -> Result<Text, AllocError>
    ensures { IfOk result (λ text. split_word end.now ≡ Some text) }
{
    match end {
        SplitEnd::Done { .. } => Text::new(alloc, "done"),
        SplitEnd::UnknownShard => Cause::UnknownShard.message(alloc),
        SplitEnd::Running { shard } => Cause::Running {
            shard: shard.as_str(),
        }
        .message(alloc),
        SplitEnd::NotActive { state } => Cause::ShardState {
            state: state_name(*state),
        }
        .message(alloc),
        SplitEnd::RangeTooSmall => Cause::RangeTooSmall.message(alloc),
        SplitEnd::BadRanges => Cause::BadRanges.message(alloc),
        SplitEnd::TooManySlices => Cause::TooManySlices.message(alloc),
        SplitEnd::LogFull => Cause::LogFull.message(alloc),
        SplitEnd::HostFault { core } => Cause::HostFault {
            core: core.as_str(),
        }
        .message(alloc),
        SplitEnd::Stopped => Cause::Stopped.message(alloc),
        SplitEnd::Memory => Err(AllocError),
    }
}
