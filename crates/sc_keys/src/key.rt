ghost use Rattle.std.specs.Prelude.{◌≡◌, ◌+◌, ◌<◌, ◌^◌, ℕ, IfOk};
ghost use Rattle.std.specs.declared.cmp.Ordering.{Ordering};
ghost use Rattle.std.specs.declared.cmp.Ordering.TheVariants.{Less, Equal};
ghost use Rattle.std.specs.Cmp.{IsTotalOrder};

use crate::heads::Head;
use crate::steps::Steps;
use std::alloc::AllocError;
use std::cmp::Ordering;
use std::sync::ledger::Ledger;

/// What rows are found by. What is learnt of the order of two keys costs a step, be it by comparing them or their heads.
pub trait Key: Sized {
    ghost order: { Self → Self → Ordering };

    ghost heading: { Self → ℕ };

    /// Compares by the key's total order. An implementation calls `Steps::tick` once.
    fn compare<L: Ledger>(&self, other: &Self, steps: &mut Steps<L>) -> Ordering
        ensures answer { result ≡ order self.now other.now }
        ensures counted { steps.new ≡ steps.old + 1 };

    /// The key's head: a number that goes with the order, by which keys are compared where their heads differ.
    fn head(&self) -> Head
        ensures { result ≡ heading self.now };

    /// One more key that compares equal. An error means out of memory.
    fn share(&self) -> Result<Self, AllocError>
        ensures { IfOk result (λ shared. order self.now shared ≡ Equal) };

    /// A number by which a builder sorts keys before it compares them. Nothing but time depends on it: the more often of two keys the
    /// lesser one has the lesser number, the fewer keys are compared.
    fn rank(&self) -> u128 {
        0
    }

    ghost total: { IsTotalOrder order };

    // Of two keys the one with the lesser head is the lesser one.
    ghost goes_with: { (x y : Self) → heading y < 2 ^ 64 → heading x < heading y → order x y ≡ Less };
}
