//! Laws of pages and of searches, above their definitions.

ghost use Rattle.sc_fanout.specs.Laws.{PageIsDetermined, PagesFollowOn, PagesAreTheWhole};
ghost use Rattle.sc_fanout.specs.SearchLaws.{RoutesFindNoMore, CommitsShowAll, OthersChangeNothing, SearchIsDetermined};

/// Whatever is found, where no two documents have one id.
pub fn pages_are_determined()
    ensures determined { PageIsDetermined }
    ensures follow_on { PagesFollowOn }
    ensures whole { PagesAreTheWhole }
{}

/// Whatever the journal, the route and the query.
pub fn searches_find_what_was_committed()
    ensures routed { RoutesFindNoMore }
    ensures committed { CommitsShowAll }
    ensures not_yet { OthersChangeNothing }
{}

/// Whatever was seen at the stops of a search.
pub fn searches_are_determined()
    ensures { SearchIsDetermined }
{}
