use crate::line::joined;
use crate::words::{core, number, signed, word};
use sc_bucket::Bucket;
use sc_cluster::{Slice, SplitPlan};
use sc_hash::Range;
use sc_record::{Change, Doc, Id, List, Order, SliceId, SubSlice, Text};
use sc_world::Event;
use std::alloc::{AllocError, Global};

/// The event that a line says; none where it says no event.
///
///     add ID CONDITION NOW           an empty document, under a condition on its version, at a timestamp
///     delete ID CONDITION NOW
///     nth K                          the message at place K of the flight is delivered
///     deliver PLACE                  the first message of the write at this place
///     settle PLACE
///     commit
///     detach SLICE REPLICA           the core is marked as down
///     rejoin SLICE REPLICA           the core that is down takes part again, as a new one
///     lead SLICE REPLICA             the core takes the lead of its slice
///     begin SLICE LAST FIRST         a split in two: to this hash, and from that one
///     feed SLICE REPLICA             the core is fed a piece
///     start SLICE REPLICA            it begins to replay
///     replay SLICE REPLICA
///     ready
///     grow SLICE REPLICA
///     switch
///     abort
///     drop SLICE
pub fn event_of(
    alloc: Global,
    bucket: &Bucket,
    words: &[&str],
) -> Result<Option<Event>, AllocError> {
    Ok(match word(words, 0) {
        "add" | "delete" => Some(Event::Accept {
            order: order_of(alloc, words)?,
            now: number(words, 3),
        }),
        "begin" => Some(Event::Begin {
            plan: plan_of(alloc, bucket, words)?,
        }),
        _ => other_event(words),
    })
}

/// What else a line says but an order and a split that begins.
fn other_event(words: &[&str]) -> Option<Event> {
    let place = number(words, 1);
    match word(words, 0) {
        "nth" => Some(Event::DeliverNth { k: place as usize }),
        "deliver" => Some(Event::Deliver { place }),
        "settle" => Some(Event::Settle { place }),
        "commit" => Some(Event::Commit),
        "detach" => Some(Event::Detach { core: core(words) }),
        "rejoin" => Some(Event::Rejoin { core: core(words) }),
        "lead" => Some(Event::Lead { core: core(words) }),
        _ => step_of(words),
    }
}

/// The step of an open split that a line says, or the dropping of its parent.
fn step_of(words: &[&str]) -> Option<Event> {
    let core = core(words);
    match word(words, 0) {
        "feed" => Some(Event::Feed { core }),
        "start" => Some(Event::StartReplay { core }),
        "replay" => Some(Event::Replay { core }),
        "ready" => Some(Event::Ready),
        "grow" => Some(Event::Grow { core }),
        "switch" => Some(Event::Switch),
        "abort" => Some(Event::Abort),
        "drop" => Some(Event::Drop { slice: core.slice }),
        _ => None,
    }
}

fn order_of(alloc: Global, words: &[&str]) -> Result<Order, AllocError> {
    let Ok(id) = Id::new(alloc, word(words, 1)) else {
        return Err(AllocError);
    };
    let change = if word(words, 0) == "add" {
        Change::Whole(Doc::new(alloc, &[])?)
    } else {
        Change::Delete
    };
    Ok(Order {
        id,
        condition: signed(words, 2),
        change,
    })
}

/// The plan of a split in two, as Solr names the subs. It has no subs where there is no such slice, or one of them would have no hash.
fn plan_of(alloc: Global, bucket: &Bucket, words: &[&str]) -> Result<SplitPlan, AllocError> {
    let parent = core(words).slice;
    let mut subs = Vec::new(alloc);
    if let Some(slice) = bucket.map.by_id(parent) {
        let first = bucket.map.greatest_id().wrapping_add(1);
        if let Some((lower, upper)) = ranges_of(&slice.range, words) {
            subs.push(sub_of(alloc, slice, first, 0, lower)?)?;
            subs.push(sub_of(alloc, slice, first.wrapping_add(1), 1, upper)?)?;
        }
    }
    Ok(SplitPlan {
        parent,
        subs: List::from_vec(subs),
    })
}

/// The ranges of the two subs; none where one of them would have no hash.
fn ranges_of(parent: &Range, words: &[&str]) -> Option<(Range, Range)> {
    let lower = Range::new(parent.min, word(words, 2).parse().unwrap_or(0))?;
    let upper = Range::new(word(words, 3).parse().unwrap_or(0), parent.max)?;
    Some((lower, upper))
}

/// A sub of the slice with this id, number and range.
fn sub_of(
    alloc: Global,
    parent: &Slice,
    id: u32,
    number: u32,
    range: Range,
) -> Result<SubSlice, AllocError> {
    let name = parent.name.as_str();
    Ok(SubSlice {
        id: SliceId(id),
        name: Text::from_string(alloc, joined(alloc, &name, "_", &number)?)?,
        min: range.min,
        max: range.max,
        replicas: parent.replicas,
        node: parent.node,
    })
}
