//! Laws of the changes, above their definitions, and the limit of slices.

ghost use Rattle.std.specs.Prelude.{◌≡◌};
ghost use Rattle.sc_cluster.specs.Limits.{most_slices};
ghost use Rattle.sc_cluster.specs.declared.allow.TheConstants.{MOST_SLICES};
ghost use Rattle.sc_cluster.specs.Histories.{KeepsAMap, OpensOneSplit, HasOneParent, UsesNoIdAgain, CountsIdsUp, UndoesAFailedSplit, MayLeaveRecoveryOut};

/// Whatever changes come one after another, each where it is allowed.
pub fn changes_keep_a_map()
    ensures map { KeepsAMap }
    ensures one_split { OpensOneSplit }
    ensures one_parent { HasOneParent }
    ensures ids { UsesNoIdAgain }
    ensures greatest_id { CountsIdsUp }
    ensures failed { UndoesAFailedSplit }
    ensures recovery { MayLeaveRecoveryOut }
{}

/// The limit that a user meets is the number of the definitions.
pub fn limits_are_as_defined()
    ensures slices { MOST_SLICES ≡ most_slices }
{}
