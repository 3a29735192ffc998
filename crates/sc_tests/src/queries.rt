//! `sc_query`: trees of any depth are dropped.

use sc_query::{Query, and};
use std::alloc::{AllocError, Global};
use std::test::Fail;

// How many operators stand below one another in a tree that is dropped.
const DEEP: u32 = 3_000_000;

fn deep_to_the_left(alloc: Global) -> Result<Query, AllocError> {
    let mut query = Query::All;
    for _ in 0..DEEP {
        query = and(alloc, query, Query::All)?;
    }
    Ok(query)
}

fn deep_to_the_right(alloc: Global) -> Result<Query, AllocError> {
    let mut query = Query::All;
    for _ in 0..DEEP {
        query = and(alloc, Query::All, query)?;
    }
    Ok(query)
}

// A NOT over every AND, whose sides take turns.
fn deep_in_turns(alloc: Global) -> Result<Query, AllocError> {
    let mut query = Query::All;
    for _ in 0..DEEP / 4 {
        query = Query::Not(Box::new(alloc, query)?);
        query = and(alloc, Query::All, query)?;
        query = Query::Not(Box::new(alloc, query)?);
        query = and(alloc, query, Query::All)?;
    }
    Ok(query)
}

#[test]
fn no_depth_takes_stack(rt: HostRuntime) -> Result<(), Fail> {
    drop(deep_to_the_left(rt.alloc())?);
    drop(deep_to_the_right(rt.alloc())?);
    drop(deep_in_turns(rt.alloc())?);
    Ok(())
}
