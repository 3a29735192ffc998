//! Laws of queries and criteria, above their definitions.

ghost use Rattle.sc_eval.specs.Laws.{NotNotIsNothing, NotTurnsAndToOr, AndFindsWhatBothFind, FindsMoreInMore, FindsTheLive};
ghost use Rattle.sc_eval.specs.Laws.{NamesTheFirstFault};

/// Whatever the criteria, the ranges and the writes.
pub fn queries_find_as_logic_says()
    ensures not_not { NotNotIsNothing }
    ensures not_and { NotTurnsAndToOr }
    ensures and { AndFindsWhatBothFind }
    ensures more { FindsMoreInMore }
    ensures live { FindsTheLive }
{}

/// Whatever the query.
pub fn queries_are_bound_or_at_fault()
    ensures { NamesTheFirstFault }
{}
