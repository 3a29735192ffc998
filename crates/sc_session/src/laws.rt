//! Laws of the exchanges of a connection, above their definitions, and its limits.

ghost use Rattle.std.specs.Prelude.{◌≡◌, ◌+◌, ◌*◌, ◌≤◌};
ghost use Rattle.sc_record.specs.Orders.{order_limit};
ghost use Rattle.sc_router.specs.Route.{most_buckets};
ghost use Rattle.sc_collection.specs.Kept.{stops_of_request};
ghost use Rattle.sc_session.specs.Requests.{most_ids, most_rows, last_row};
ghost use Rattle.sc_session.specs.declared.asked.TheConstants.{MOST_IDS};
ghost use Rattle.sc_session.specs.declared.select.TheConstants.{MOST_ROWS, LAST_ROW};
ghost use Rattle.sc_session.specs.Laws.{GetsShowOwnWrites, GetsOfIdsShowOwnWrites, HoldsOfExchanges, HoldsOfConnections};

use sc_io::Clock;

/// Whatever other connections do in between.
pub fn gets_show_own_writes<C: Clock>()
    ensures exchanges { HoldsOfExchanges GetsShowOwnWrites }
    ensures connections { HoldsOfConnections C.gives GetsShowOwnWrites }
{}

/// Of each of the ids, whatever other connections do in between.
pub fn gets_of_ids_show_own_writes<C: Clock>()
    ensures exchanges { HoldsOfExchanges GetsOfIdsShowOwnWrites }
    ensures connections { HoldsOfConnections C.gives GetsOfIdsShowOwnWrites }
{}

/// The limits that a user meets are the numbers of the definitions, and a trail has room for the stops of any one request: five for
/// each order of an update and one for each bucket, or one for each id of a get, or two for each bucket and one of the board.
pub fn limits_are_as_defined()
    ensures ids { MOST_IDS ≡ most_ids }
    ensures rows { MOST_ROWS ≡ most_rows }
    ensures last_row { LAST_ROW ≡ last_row }
    ensures stops_of_an_update { 5 * order_limit + most_buckets ≤ stops_of_request }
    ensures stops_of_a_get { most_ids ≤ stops_of_request }
    ensures stops_of_all_buckets { 1 + 2 * most_buckets ≤ stops_of_request }
{}
