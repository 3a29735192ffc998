ghost use Rattle.std.specs.Prelude.{◌≡◌, ◌+◌, ◌≤◌, true, false, []};
ghost use Rattle.sc_session.specs.Stations.{SetsAt};
ghost use Rattle.sc_sockets.specs.Moves.{was_given};

use http_server::Log;
use std::marker::Model;

/// How many links a listener gave that are not back. Contracts alone read it, and it takes no memory.
#[derive(Drop)]
pub struct LinksOut {
    given: Log<(), ()>,
    back: Log<(), ()>,
}

impl Model for LinksOut {
    ghost use Rattle.std.specs.Prelude.{ℕ, ◌-◌, ◌≤◌, length};

    ghost Value = { ℕ };

    ghost view = { λ o. length o.given.items - length o.back.items };

    ghost invariant = { λ o. length o.back.items ≤ length o.given.items };
}

impl LinksOut {
    pub fn none() -> LinksOut
        ensures { result ≡ 0 }
    {
        LinksOut {
            given: Log::new(),
            back: Log::new(),
        }
    }

    /// One more is given.
    pub fn rise(&mut self)
        ensures { self.new ≡ self.old + 1 }
    {
        self.given = self.given.and(&(), &());
    }

    /// One of them is back.
    pub fn fall(&mut self)
        requires { 1 ≤ self.old }
        ensures { self.new + 1 ≡ self.old }
    {
        self.back = self.back.and(&(), &());
    }
}

/// Of which workers a station has given the crew that isn't back. Contracts alone read it, and it takes no memory.
#[derive(Drop)]
pub struct CrewsOut {
    pub moves: Log<u32, bool>,
}

impl CrewsOut {
    pub fn none() -> CrewsOut
        ensures { result.moves.items ≡ [] }
    {
        CrewsOut { moves: Log::new() }
    }

    /// The crew of this worker is given.
    #[tactic(auto, using(crate::proofs::MovesLemmas::sets_at_move))]
    pub fn give(&mut self, worker: u32)
        ensures { SetsAt worker true (was_given self.old.moves.items) (was_given self.new.moves.items) }
    {
        self.moves = self.moves.and(&worker, &true);
    }

    /// The crew of this worker is back.
    #[tactic(auto, using(crate::proofs::MovesLemmas::sets_at_move))]
    pub fn take(&mut self, worker: u32)
        ensures { SetsAt worker false (was_given self.old.moves.items) (was_given self.new.moves.items) }
    {
        self.moves = self.moves.and(&worker, &false);
    }
}
