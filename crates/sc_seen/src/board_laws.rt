//! Laws of the board's journals, above their definitions.

ghost use Rattle.sc_seen.specs.BoardLaws.{BoardGrowsByWhatMayCome, HasLegalBoardPrefixes, BoardsKeepAMap, BoardsRunOneSplit, BoardsGoOn, BoardsCountIdsUp, FailedLeavesTheMap, BoardsOweEntries};

/// Whatever the board's journal gets, each entry where it may come.
pub fn boards_stay_legal()
    ensures grows { BoardGrowsByWhatMayCome }
    ensures prefixes { HasLegalBoardPrefixes }
    ensures goes_on { BoardsGoOn }
{}

/// What a legal journal of the board makes of the slices.
pub fn boards_keep_a_map()
    ensures map { BoardsKeepAMap }
    ensures one_split { BoardsRunOneSplit }
    ensures ids { BoardsCountIdsUp }
    ensures failed { FailedLeavesTheMap }
{}

/// How many entries a legal journal of the board has still to get.
pub fn boards_owe_entries()
    ensures { BoardsOweEntries }
{}
