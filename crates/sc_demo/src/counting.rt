//! What is found on the collection after its makers.
ghost use Rattle.std.specs.Prelude.{◌≡◌, ◌≤◌, ◌∷◌, [], IfOk, OnOk};
ghost use Rattle.sc_eval.specs.Criteria.{criterion_of};
ghost use Rattle.sc_session.specs.Queries.{HaveCriterion};
ghost use Rattle.sc_router.specs.Route.{most_buckets};
ghost use Rattle.sc_collection.specs.Desks.{IsDeskAtRest};
ghost use Rattle.sc_demo.specs.Finding.{AreCommitted, CommitsAndFinds, FindsBy};

use sc_bucket::CommitFault;
use sc_collection::{Desk, Trail, commit_all};
use sc_eval::{Bound, bind};
use sc_fanout::{Ask, search};
use sc_query::parse;
use std::alloc::{AllocError, Global};
use std::thread::Threads;

/// How many documents are found by `*:*`, by `g_s:a` and by `g_s:b`.
#[derive(Clone, Copy, Debug, PartialEq, Eq)]
pub struct Found {
    pub all: u64,
    pub a: u64,
    pub b: u64,
}

/// Commits every bucket of a desk, and then makes three searches, each with an empty trail. An error means out of memory.
pub fn count_on<R: Threads + Sync, D: Desk>(
    rt: &R,
    alloc: Global,
    desk: &mut D,
    trail: &mut Trail,
) -> Result<Found, AllocError>
    requires buckets { (D.layout desk.old).buckets ≤ most_buckets }
    requires rest { IsDeskAtRest (D.layout desk.old) (D.out desk.old) (D.seen desk.old) }
    ensures found { IfOk result (CommitsAndFinds (D.layout desk.old) (D.seen desk.old) (D.seen desk.new)) }
    ensures layout { D.layout desk.new ≡ D.layout desk.old }
    ensures rest { IsDeskAtRest (D.layout desk.new) (D.out desk.new) (D.seen desk.new) }
{
    commit(alloc, desk, trail)?;
    let all = found_by(rt, alloc, desk, trail, "*:*")?;
    let a = found_by(rt, alloc, desk, trail, "g_s:a")?;
    let b = found_by(rt, alloc, desk, trail, "g_s:b")?;
    Ok(Found { all, a, b })
}

/// Commits every bucket, with an empty trail. One whose journal has no room for that is passed over. An error means out of memory.
fn commit<D: Desk>(alloc: Global, desk: &mut D, trail: &mut Trail) -> Result<(), AllocError>
    requires buckets { (D.layout desk.old).buckets ≤ most_buckets }
    requires rest { IsDeskAtRest (D.layout desk.old) (D.out desk.old) (D.seen desk.old) }
    ensures committed { OnOk result (AreCommitted (D.layout desk.old) (D.seen desk.old) (D.seen desk.new)) }
    ensures layout { D.layout desk.new ≡ D.layout desk.old }
    ensures rest { IsDeskAtRest (D.layout desk.new) (D.out desk.new) (D.seen desk.new) }
{
    trail.clear();
    match commit_all(alloc, desk, trail) {
        None => Ok(()),
        Some(CommitFault::LogFull) => Ok(()),
        Some(CommitFault::Memory) => Err(AllocError),
    }
}

/// How many documents a query finds, by a search with an empty trail. An error means out of memory, or that the text is no query.
fn found_by<R: Threads + Sync, D: Desk>(
    rt: &R,
    alloc: Global,
    desk: &mut D,
    trail: &mut Trail,
    query: &str,
) -> Result<u64, AllocError>
    requires buckets { (D.layout desk.old).buckets ≤ most_buckets }
    requires rest { IsDeskAtRest (D.layout desk.old) (D.out desk.old) (D.seen desk.old) }
    ensures found { IfOk result (FindsBy (D.layout desk.old) (D.seen desk.old) (D.seen desk.new) query.now) }
    ensures layout { D.layout desk.new ≡ D.layout desk.old }
    ensures rest { IsDeskAtRest (D.layout desk.new) (D.out desk.new) (D.seen desk.new) }
{
    let ask = Ask {
        query: bound(alloc, query)?,
        route: None,
        start: 0,
        rows: 0,
    };
    trail.clear();
    let page = search(rt, alloc, desk, trail, &ask)?;
    Ok(page.found)
}

/// The criterion of a text. An error means out of memory, or that the text is no query.
fn bound(alloc: Global, text: &str) -> Result<Bound, AllocError>
    ensures { IfOk result (λ found. HaveCriterion (text.now ∷ []) (criterion_of found)) }
{
    let query = match parse(alloc, text) {
        Ok(query) => query,
        Err(_) => return Err(AllocError),
    };
    match bind(alloc, &query) {
        Ok(bound) => Ok(bound),
        Err(_) => Err(AllocError),
    }
}
