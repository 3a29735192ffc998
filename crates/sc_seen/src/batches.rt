//! A law of the orders of one request, above their definitions.

ghost use Rattle.sc_seen.specs.BatchLaws.{LastStopsSettle};

/// Whatever was seen.
pub fn last_stops_settle()
    ensures { LastStopsSettle }
{}
