ghost use Rattle.std.specs.Prelude.{◌≡◌, ◌+◌, ◌^◌, ◌<◌};
ghost use Rattle.std.specs.Ordering.{MatchOrdering};

use crate::steps::Steps;
use std::cmp::Ordering;
use std::marker::Model;
use std::sync::ledger::Ledger;

/// The head of a key, which contracts see as a number. What it is can be learnt only by comparing it, at the cost of a step: it has no
/// other comparison, and nothing gives its number back. Lists of heads are built, carried and merged by copying, which compares nothing.
#[derive(Clone, Copy)]
pub struct Head {
    number: u64,
}

impl Model for Head {
    ghost use Rattle.std.specs.Prelude.{ℕ};

    ghost Value = { ℕ };

    ghost view = { λ a. a.number };

    ghost inverse = { λ number. record { number = number } };
}

impl Head {
    /// This number as a head.
    #[inline(always)]
    pub fn new(number: u64) -> Head
        ensures { result ≡ number }
    {
        Head { number }
    }

    /// Compares two heads. It takes a step where they differ, so where their keys need not be compared. Where they are the same nothing is
    /// learnt of the order of their keys, which are compared next, and that is the step.
    #[inline(always)]
    pub fn compare<L: Ledger>(&self, other: &Head, steps: &mut Steps<L>) -> Ordering
        ensures answer { MatchOrdering result (self.now < other.now) (self.now ≡ other.now) (other.now < self.now) }
        ensures fits { (self.now < 2 ^ 64) × (other.now < 2 ^ 64) }
        ensures counted { MatchOrdering result (steps.new ≡ steps.old + 1) (steps.new ≡ steps.old) (steps.new ≡ steps.old + 1) }
    {
        if self.number == other.number {
            Ordering::Equal
        } else {
            steps.tick();
            if self.number < other.number {
                Ordering::Less
            } else {
                Ordering::Greater
            }
        }
    }
}
