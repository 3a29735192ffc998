//! Laws of opened journals, above their definitions.

ghost use Rattle.sc_opening.specs.Laws.{ChangesCanBeDone, LongestIsOfFirst, LongestCanBeDone, ClosedKeepsTheJournal, ClosedIsLegal, ClosedHasTheChanges, ClosedHasTheMap, ClosedIsAtRest, ClosedOwesNoOther, OpeningTwice, ClosedAnswersAlike, ClosedLeavesCores, TestsDecide, BoardsGoWithClosed, ClosingTakesRoom, BoardTakesRoom};

/// What the journals of a collection's buckets say was done of it.
pub fn journals_have_changes()
    ensures can { ChangesCanBeDone }
    ensures longest { LongestIsOfFirst }
    ensures longest_can { LongestCanBeDone }
    ensures decides { TestsDecide }
{}

/// A journal that is closed is legal, and goes on from what it was.
pub fn closed_is_legal()
    ensures legal { ClosedIsLegal }
    ensures keeps { ClosedKeepsTheJournal }
{}

/// A journal that is closed says that all was done which was done of the collection, and nothing else; its slices are those of that.
pub fn closed_has_the_changes()
    ensures changes { ClosedHasTheChanges }
    ensures map { ClosedHasTheMap }
{}

/// A closed journal has no open split and no write that is not settled.
pub fn closed_is_at_rest()
    ensures rest { ClosedIsAtRest }
    ensures owes { ClosedOwesNoOther }
{}

/// To close a closed journal adds nothing.
pub fn opening_twice()
    ensures { OpeningTwice }
{}

/// A closed journal answers what it answered before.
pub fn closed_answers_alike()
    ensures answers { ClosedAnswersAlike }
    ensures cores { ClosedLeavesCores }
{}

/// The board of what was done goes with each closed journal.
pub fn boards_go_with_closed()
    ensures { BoardsGoWithClosed }
{}

/// How much room a journal needs to be closed, and the board of what was done.
pub fn closing_takes_room()
    ensures journal { ClosingTakesRoom }
    ensures board { BoardTakesRoom }
{}
