ghost use Rattle.std.specs.Prelude.{◌≡◌, ◌+◌, ◌<◌, ◌≤◌, length};
ghost use Rattle.sc_collection.specs.Desks.{nothing_out, IsDeskAtRest};
ghost use Rattle.sc_collection.specs.Kept.{trail_room};
ghost use Rattle.sc_seen.specs.Moments.{view_of};
ghost use Rattle.sc_seen.specs.Commits.{worse};
ghost use Rattle.sc_collection.specs.Committing.{CommitsAll, CommitsOne, commit_outcome};

use crate::desk::Desk;
use crate::trail::Trail;
use sc_bucket::CommitFault;
use sc_seen::Stop;
use std::alloc::Global;

/// What the commits of all buckets came to together.
#[derive(Debug, Clone, Copy, PartialEq, Eq)]
pub enum Commits {
    /// Each bucket was committed.
    All,
    /// Some bucket's journal had no room for it, and memory ran out in none.
    LogFull,
    /// Memory ran out in some bucket.
    Memory,
}

impl From<Option<CommitFault>> for Commits {
    ghost use Rattle.std.specs.Prelude.{◌≡◌};
    ghost use Rattle.sc_collection.specs.Committing.{commit_outcome, commits_told};

    ghost from_gives = { λ fault commits. commits ≡ commits_told (commit_outcome fault) };

    fn from(fault: Option<CommitFault>) -> Commits {
        match fault {
            None => Commits::All,
            Some(CommitFault::LogFull) => Commits::LogFull,
            Some(CommitFault::Memory) => Commits::Memory,
        }
    }
}

/// Commits every bucket in turn, each in one hold, and keeps a stop for each. Reports the worst that came of it: want of memory counts
/// before a full log. A bucket whose commit is refused is as it was, and the next ones are committed all the same.
pub fn commit_all<D: Desk>(alloc: Global, desk: &mut D, trail: &mut Trail) -> Option<CommitFault>
    requires nothing_out { D.out desk.old ≡ nothing_out }
    requires room { length trail.old.stops + (D.layout desk.old).buckets ≤ trail_room }
    ensures committed { CommitsAll (D.layout desk.old) (D.layout desk.old).buckets
        (view_of (D.seen desk.old) trail.old.stops) (view_of (D.seen desk.new) trail.new.stops) result }
    ensures layout { D.layout desk.new ≡ D.layout desk.old }
    ensures rest { IsDeskAtRest (D.layout desk.new) (D.out desk.new) (D.seen desk.new) }
    ensures requests { trail.new.requests ≡ trail.old.requests }
{
    let mut worst = None;
    for b in 0..desk.buckets() {
        worst = worse(worst, commit_at(alloc, desk, trail, b));
    }
    worst
}

/// Commits one bucket in one hold, and keeps that stop.
fn commit_at<D: Desk>(alloc: Global, desk: &mut D, trail: &mut Trail, b: u32) -> Option<CommitFault>
    requires nothing_out { D.out desk.old ≡ nothing_out }
    requires within { b < (D.layout desk.old).buckets }
    requires room { length trail.old.stops < trail_room }
    ensures committed { CommitsOne (D.layout desk.old) (view_of (D.seen desk.old) trail.old.stops) (view_of (D.seen desk.new) trail.new.stops) b result }
    ensures layout { D.layout desk.new ≡ D.layout desk.old }
    ensures rest { IsDeskAtRest (D.layout desk.new) (D.out desk.new) (D.seen desk.new) }
    ensures stops { length trail.new.stops ≡ length trail.old.stops + 1 }
    ensures requests { trail.new.requests ≡ trail.old.requests }
{
    let mut bucket = desk.hold(b);
    let place = bucket.entries();
    let answer = bucket.commit(alloc);
    desk.give(b, bucket);
    trail.keep(Stop {
        lock: b,
        place,
        made: answer.is_ok(),
    });
    answer.err()
}

/// The worse of two: that memory ran out counts before a full log.
fn worse(one: Option<CommitFault>, other: Option<CommitFault>) -> Option<CommitFault>
    ensures { commit_outcome result ≡ worse (commit_outcome one) (commit_outcome other) }
{
    match (one, other) {
        (None, other) => other,
        (Some(fault), None) => Some(fault),
        (Some(CommitFault::LogFull), Some(fault)) => Some(fault),
        (Some(CommitFault::Memory), Some(_)) => Some(CommitFault::Memory),
    }
}
