//! The orders of the demonstration's workers, and how many a batch has.

use crate::support::{assert_same, assert_text};
use sc_commands::Batch;
use sc_record::{Change, List};
use sc_workload::orders;
use std::alloc::{AllocError, Global};
use std::test::Fail;

// The numbers of the ids, with `-` before those of deletions.
fn shown(alloc: Global, batches: &List<Batch>) -> Result<String, AllocError> {
    let mut text = String::new(alloc);
    for batch in batches {
        for order in &batch.orders {
            let mark = if matches!(order.change, Change::Delete) {
                "-"
            } else {
                ""
            };
            let id = order.id.as_str();
            text.push_str(format!(in alloc; "{mark}{id} ")?.as_str())?;
        }
        text.push_str("/ ")?;
    }
    Ok(text)
}

#[test]
fn two_workers_have_ten_orders(rt: HostRuntime) -> Result<(), Fail> {
    let alloc = rt.alloc();
    let first = orders(alloc, 1, 10, 0, 2)?;
    assert_text(
        &rt,
        shown(alloc, &first)?.as_str(),
        "w0 w2 -w4 w0 w2 -w4 / ",
    );
    let second = orders(alloc, 1, 10, 1, 2)?;
    assert_text(&rt, shown(alloc, &second)?.as_str(), "w1 w3 w1 w3 / ");
    Ok(())
}

#[test]
fn batches_have_at_most_100_orders(rt: HostRuntime) -> Result<(), Fail> {
    let alloc = rt.alloc();
    let mut lengths = Vec::new(alloc);
    for batch in &orders(alloc, u64::MAX, 250, 0, 1)? {
        lengths.push(batch.orders.len())?;
    }
    assert_same(&rt, lengths.as_slice(), &[100, 100, 50]);
    Ok(())
}
