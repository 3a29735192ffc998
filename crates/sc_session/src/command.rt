//! Replies to commands to the collection itself.

ghost use Rattle.std.specs.Prelude.{◌≡◌, ◌<◌, length, IsSome, IfOk};
ghost use Rattle.sc_model.specs.Replies as replies;
ghost use Rattle.sc_admin.specs.Commands as commands;
ghost use Rattle.sc_collection.specs.Kept.{trail_room};
ghost use Rattle.sc_collection.specs.Desks.{IsDeskAtRest};
ghost use Rattle.sc_seen.specs.Moments.{view_of};
ghost use Rattle.sc_session.specs.Answers.{split_answer, delete_answer, replied};
ghost use Rattle.sc_session.specs.Requests as asking;
ghost use Rattle.sc_session.specs.Answering.{ShowsStatus, IsAnswerOf, answer_of};

use crate::reply::Reply;
use sc_admin::{DeleteEnd, split_body, state_name, status_body};
use sc_collection::{Desk, Stop, Trail};
use sc_reply::{Cause, ok_body};
use sc_split::SplitEnd;
use std::alloc::{AllocError, Global};

/// The slices as an administrator sees them. The board is held while they are printed, so that its map isn't copied; its stop is kept.
pub(crate) fn status<D: Desk>(
    alloc: Global,
    desk: &mut D,
    trail: &mut Trail,
) -> Result<Reply, AllocError>
    requires rest { IsDeskAtRest (D.layout desk.old) (D.out desk.old) (D.seen desk.old) }
    requires room { length trail.old.stops < trail_room }
    ensures shows { ShowsStatus (D.layout desk.old) (view_of (D.seen desk.old) trail.old.stops) (view_of (D.seen desk.new) trail.new.stops) (answer_of result) }
    ensures status { IfOk result (λ reply. IsSome (replies.reason_of reply.status)) }
    ensures rest { IsDeskAtRest (D.layout desk.new) (D.out desk.new) (D.seen desk.new) }
    ensures layout { D.layout desk.new ≡ D.layout desk.old }
    ensures requests { trail.new.requests ≡ trail.old.requests }
{
    let nodes = desk.nodes();
    let board = desk.hold_board();
    let place = board.entries();
    let body = status_body(alloc, board.map(), nodes);
    desk.give_board(board);
    trail.keep(Stop {
        lock: desk.buckets(),
        place,
        made: false,
    });
    Ok(Reply::made(200, body?))
}

/// The reply to a split that came to this. An error means out of memory.
pub(crate) fn split_reply(alloc: Global, end: &SplitEnd) -> Result<Reply, AllocError>
    ensures reply { IsAnswerOf (split_answer end.now) (answer_of result) }
    ensures status { IfOk result (λ reply. IsSome (replies.reason_of reply.status)) }
{
    match end {
        SplitEnd::Done { subs, committed } => Ok(Reply::made(
            200,
            split_body(alloc, subs, *committed)?,
        )),
        SplitEnd::UnknownShard => Reply::refusal(alloc, &Cause::UnknownShard),
        SplitEnd::Running { shard } => Reply::refusal(
            alloc,
            &Cause::Running {
                shard: shard.as_str(),
            },
        ),
        SplitEnd::NotActive { state } => Reply::refusal(
            alloc,
            &Cause::ShardState {
                state: state_name(*state),
            },
        ),
        SplitEnd::RangeTooSmall => Reply::refusal(alloc, &Cause::RangeTooSmall),
        SplitEnd::BadRanges => Reply::refusal(alloc, &Cause::BadRanges),
        SplitEnd::TooManySlices => Reply::refusal(alloc, &Cause::TooManySlices),
        SplitEnd::LogFull => Reply::refusal(alloc, &Cause::LogFull),
        SplitEnd::HostFault { core } => Reply::refusal(
            alloc,
            &Cause::HostFault {
                core: core.as_str(),
            },
        ),
        SplitEnd::Stopped => Reply::refusal(alloc, &Cause::Stopped),
        SplitEnd::Memory => Err(AllocError),
    }
}

/// The reply to a deletion that came to this. An error means out of memory.
pub(crate) fn delete_reply(alloc: Global, end: &DeleteEnd) -> Result<Reply, AllocError>
    ensures reply { IsAnswerOf (delete_answer end.now) (answer_of result) }
    ensures status { IfOk result (λ reply. IsSome (replies.reason_of reply.status)) }
{
    match end {
        DeleteEnd::Done => Ok(Reply::fixed(200, ok_body())),
        DeleteEnd::UnknownShard => Reply::refusal(alloc, &Cause::UnknownShard),
        DeleteEnd::Running { shard } => Reply::refusal(
            alloc,
            &Cause::Running {
                shard: shard.as_str(),
            },
        ),
        DeleteEnd::NotInactive { state } => Reply::refusal(
            alloc,
            &Cause::ShardState {
                state: state_name(*state),
            },
        ),
        DeleteEnd::HostFault { core } => Reply::refusal(
            alloc,
            &Cause::HostFault {
                core: core.as_str(),
            },
        ),
        DeleteEnd::Memory => Err(AllocError),
    }
}
