//! How many entries the journals of a collection had when it was opened.
ghost use Rattle.std.specs.Prelude.{◌≡◌};
ghost use Rattle.sc_seen.specs.Seen.{nothing_opened};
ghost use Rattle.sc_collection.specs.Opening.{opened_with};

use http_server::Log;
use sc_board::Board;
use sc_bucket::Bucket;
use std::marker::Model;

/// How many entries the board and each bucket had when the collection was opened: those are nobody's own. Only proofs read it. It takes no
/// memory.
#[derive(Drop)]
pub struct OpenedWith {
    /// How many the board had, then how many each bucket had, in order; nothing where the collection is new.
    counts: Log<(), u64>,
}

impl Model for OpenedWith {
    ghost use Rattle.sc_seen.specs.Seen.{Opened};
    ghost use Rattle.sc_collection.specs.Opening.{opened_by};

    ghost Value = { Opened };

    ghost view = { λ a. opened_by a.counts.items };
}

impl OpenedWith {
    /// That of a new collection: no journal had an entry.
    pub fn nothing() -> OpenedWith
        ensures { result ≡ nothing_opened }
    {
        OpenedWith { counts: Log::new() }
    }

    /// That of a collection which is opened with these buckets and this board.
    pub fn of(buckets: &[Bucket], board: &Board<()>) -> OpenedWith
        ensures { result ≡ opened_with buckets.now board.now.journal.entries }
    {
        let mut counts = Log::new().and(&(), &board.entries());
        for bucket in buckets {
            counts = counts.and(&(), &bucket.entries());
        }
        OpenedWith { counts }
    }
}
