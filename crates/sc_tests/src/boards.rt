//! `sc_board`: who leads each slice, and of which slice another leader may be noted.

ghost use Rattle.sc_board.specs.Boards.{IsSoundBoard};
ghost use Rattle.sc_collection.specs.Shapes.{IsShape};

use crate::support::{assert_same, assert_text};
use sc_board::{Board, LeadFault};
use sc_collection::{Alone, Desk, Shape};
use std::alloc::{AllocError, Global};
use std::test::Fail;

/// Two shards with two replicas each.
fn two_shards() -> Shape
    ensures { IsShape result }
{
    Shape {
        nodes: 2,
        shards: 2,
        replicas: 2,
        buckets: 1,
        log_limit: 1_024,
    }
}

// What the board says of a shard: that another leader of it may be noted, that there is none of the name, or another refusal.
fn said_of(alloc: Global, board: &mut Board<()>, shard: &str) -> &'static str
    requires { IsSoundBoard board.old }
    ensures { IsSoundBoard board.new }
{
    match board.check_lead(alloc, shard) {
        Ok(_) => "allowed",
        Err(LeadFault::UnknownShard) => "unknown",
        Err(_) => "refused",
    }
}

// The leaders, one after another.
fn leaders_of(alloc: Global, board: &Board<()>) -> Result<String, AllocError>
    requires { IsSoundBoard board.now }
{
    let mut text = String::new(alloc);
    for leader in board.leaders() {
        text.push_str(format!(in alloc; "{leader};")?.as_str())?;
    }
    Ok(text)
}

#[test]
fn the_first_replica_of_each_shard_leads_until_another_is_noted(
    rt: HostRuntime,
) -> Result<(), Fail> {
    let alloc = rt.alloc();
    let shape = two_shards();
    let mut desk = Alone::new(alloc, &shape)?;
    let mut board = desk.hold_board();
    assert_text(&rt, leaders_of(alloc, &board)?.as_str(), "1;1;");
    assert_text(&rt, said_of(alloc, &mut board, "shard2"), "allowed");
    assert_text(&rt, said_of(alloc, &mut board, "shard3"), "unknown");
    assert_same(&rt, board.journal.len(), 0);
    drop(board);
    drop(desk);
    Ok(())
}
