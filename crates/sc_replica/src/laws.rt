//! Laws of cores, above their definitions.

ghost use Rattle.sc_replica.specs.Laws.{PutsOneCellInOrder, KeepsTheGreatest, Converge, ReplaysWhatItBuffered};
ghost use Rattle.sc_replica.specs.Laws.{LosesNothing, LeadsAsItIsFed, DropsTheOlder, KeepsACore};

/// Whatever writes come to a core, and in whatever order.
pub fn cores_keep_the_greatest()
    ensures puts { PutsOneCellInOrder }
    ensures greatest { KeepsTheGreatest }
    ensures same { Converge }
    ensures replays { ReplaysWhatItBuffered }
    ensures nothing_lost { LosesNothing }
    ensures leads { LeadsAsItIsFed }
    ensures older { DropsTheOlder }
    ensures core { KeepsACore }
{}
