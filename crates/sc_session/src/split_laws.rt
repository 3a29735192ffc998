//! Laws of splits, in an administrator's words, above their definitions.

ghost use Rattle.sc_session.specs.SplitLaws.{SearchesAreOfTheirJournals, SearchesAreOfTheirCommits, DoneSplitsSwitch, GetsStay, BeginningsCommit, SearchesStay, FindingsStay, RoutesFollowTheSubs, ConnectionsSplit, LooksAreAround};
ghost use Rattle.sc_session.specs.SplitRefusalLaws.{RefusedSplitsLeaveNothing};

use sc_io::Clock;

/// What a search shows depends on the buckets' journals at its stops, and without a route on what was committed of them.
pub fn searches_are_of_their_journals()
    ensures journals { SearchesAreOfTheirJournals }
    ensures commits { SearchesAreOfTheirCommits }
{}

/// A get of every id and a search of every query answer the same before a split began and after it was done, but for what others wrote
/// between.
pub fn done_splits_keep_the_answers()
    ensures switches { DoneSplitsSwitch }
    ensures gets { GetsStay }
    ensures commits { BeginningsCommit }
    ensures searches { SearchesStay }
    ensures findings { FindingsStay }
{}

/// With a route a search finds after a split what lies in the slices that meet the route: the subs in place of their parent.
pub fn routes_follow_the_subs()
    ensures { RoutesFollowTheSubs }
{}

/// The status and every answer are as if a split that was refused had not come, but for the commit that a begin makes.
pub fn refused_splits_leave_nothing()
    ensures { RefusedSplitsLeaveNothing }
{}

/// The laws apply to each split of a connection, and to its looks at journals before and after.
pub fn connections_split<C: Clock>()
    ensures splits { ConnectionsSplit C.gives }
    ensures looks { LooksAreAround C.gives }
{}
