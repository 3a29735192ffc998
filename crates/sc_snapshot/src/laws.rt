//! A law of snapshots, above their definition.

ghost use Rattle.sc_snapshot.specs.Laws.{AreEachOfOneId};

/// Whatever the rows of a snapshot are.
pub fn rows_are_each_of_one_id()
    ensures { AreEachOfOneId }
{}
