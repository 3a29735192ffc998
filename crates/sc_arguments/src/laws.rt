ghost use Rattle.sc_arguments.specs.Laws.{AreTakenOnce, AskTheSameInBothForms, AskTheSameInAnyOrder};

/// Options are taken exactly where each has a name of the command's and a number, and none is given twice.
pub fn options_are_taken_once()
    ensures { AreTakenOnce }
{}

/// Whatever follows them, also where it is refused: `--name value` and `--name=value` are one.
pub fn options_have_two_forms()
    ensures { AskTheSameInBothForms }
{}

/// Whatever the command and its options, also those that are refused: their order doesn't matter.
pub fn options_come_in_any_order()
    ensures { AskTheSameInAnyOrder }
{}
