//! A law above the definitions, and the limit of a document that is read as it comes.

ghost use Rattle.std.specs.Prelude.{◌≡◌};
ghost use Rattle.sc_json.specs.Flat.{most_flat_fields};
ghost use Rattle.sc_json.specs.Laws.{ReadsBack};
ghost use Rattle.sc_json.specs.declared.flat.TheConstants.{MOST_MEMBERS};

/// A document that is shown, sent back as it is, makes the same document.
pub fn shown_document()
    ensures { ReadsBack }
{}

/// The limit that a user meets is the number of the definitions.
pub fn limits_are_as_defined()
    ensures fields { MOST_MEMBERS ≡ most_flat_fields }
{}
