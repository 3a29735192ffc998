//! Laws of a bucket's part, above its definitions.

ghost use Rattle.sc_keeper.specs.Laws.{PassesKeepTheParts, RefusalsKeepTheParts, DeliveriesKeepTheParts, PassesAddNoKeeperEntry, KeepersAddNoPassEntry, NoneCameOfTheKeeper};
ghost use Rattle.sc_keeper.specs.Laws.{EventsComeByThePart, EventsChangeThePart};

/// What leaves a bucket's part as it was: its own events, refusals, and deliveries.
pub fn passes_keep_the_parts()
    ensures passes { PassesKeepTheParts }
    ensures refusals { RefusalsKeepTheParts }
    ensures deliveries { DeliveriesKeepTheParts }
{}

/// Which entries of a journal are made by the bucket's keeper alone.
pub fn journals_tell_the_keepers_entries()
    ensures passes { PassesAddNoKeeperEntry }
    ensures keepers { KeepersAddNoPassEntry }
    ensures between { NoneCameOfTheKeeper }
{}

/// When each of the keeper's events may come to a bucket, by its part, and by whether the core is down that rejoins or takes the lead.
pub fn parts_tell_when_events_may_come()
    ensures { EventsComeByThePart }
{}

/// What each of the keeper's events makes of a bucket's part.
pub fn events_change_the_parts()
    ensures { EventsChangeThePart }
{}
