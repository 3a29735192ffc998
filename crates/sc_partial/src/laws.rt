//! Laws of atomic updates, above their definitions.

ghost use Rattle.sc_partial.specs.Laws.{KeepsLastSet, AddsDistinctOnce, RemovesWhatIsAdded, SumsIncrements, SumsWithinRange};
ghost use Rattle.sc_partial.specs.Laws.{SetsAWhole, MakesOneDocument, MakesADocument};
ghost use Rattle.sc_partial.specs.Laws.{TellsValuesApart, AddsWhatIsMissing, AddsNoneTwice, RemovesAll};

/// What one change after another is.
pub fn changes_in_turn()
    ensures set { KeepsLastSet }
    ensures add_distinct { AddsDistinctOnce }
    ensures remove { RemovesWhatIsAdded }
    ensures inc { SumsIncrements }
    ensures in_range { SumsWithinRange }
{}

/// A document as a whole is one that is set field by field.
pub fn whole_document()
    ensures { SetsAWhole }
{}

/// Changes that no field refuses make one document, and no two.
pub fn one_document()
    ensures at_most { MakesOneDocument }
    ensures at_least { MakesADocument }
{}

/// Values are compared by what they are; which of them stand after some are added or removed.
pub fn values_among()
    ensures apart { TellsValuesApart }
    ensures added { AddsWhatIsMissing }
    ensures once { AddsNoneTwice }
    ensures removed { RemovesAll }
{}
