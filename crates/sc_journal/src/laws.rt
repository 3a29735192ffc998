//! Laws of journals, above their definitions.

ghost use Rattle.sc_journal.specs.Laws.{GrowsByWhatMayFollow, HasLegalPrefixes, AscendsInVersions, OwesOneForAWrite, OwesOneLessSettled, OwesForASplit, OwesLessFailed, OwesLessSwitched, OwesOneLessDropped, OwesOneLessDown, OwesOneForUp, OwesNothingAtRest, ComesToRest, JournalsKeepAMap, DownAreFollowers, SeatsAreExchanged, SeatsBeginInOrder, ComesUpByAnEntry, CoresChangeNoAnswer};

/// Whatever a bucket's journal gets, each entry where it may follow.
pub fn journals_stay_legal()
    ensures grows { GrowsByWhatMayFollow }
    ensures prefixes { HasLegalPrefixes }
    ensures versions { AscendsInVersions }
{}

/// How many entries a legal journal has still to get.
pub fn journals_owe_entries()
    ensures write { OwesOneForAWrite }
    ensures settled { OwesOneLessSettled }
    ensures begun { OwesForASplit }
    ensures failed { OwesLessFailed }
    ensures switched { OwesLessSwitched }
    ensures dropped { OwesOneLessDropped }
    ensures down { OwesOneLessDown }
    ensures up { OwesOneForUp }
{}

/// What the entries are for that a legal journal has still to get.
pub fn journals_come_to_rest()
    ensures nothing_owed { OwesNothingAtRest }
    ensures comes { ComesToRest }
{}

/// What a legal journal makes of the slices.
pub fn journals_keep_a_map()
    ensures { JournalsKeepAMap }
{}

/// What a legal journal says of a slice's cores.
pub fn journals_seat_cores()
    ensures down { DownAreFollowers }
    ensures seats { SeatsAreExchanged }
    ensures begin { SeatsBeginInOrder }
    ensures up { ComesUpByAnEntry }
{}

/// Which cores went down, came up or led is nothing to what a journal answers.
pub fn cores_change_no_answer()
    ensures { CoresChangeNoAnswer }
{}
