ghost use Rattle.std.specs.Prelude.{◌≡◌, List, ℕ};
ghost use Rattle.sc_values.specs.declared.field.Field.{Field};
ghost use Rattle.sc_record.specs.declared.term.Term.{Term};
ghost use Rattle.sc_schema.specs.Terms.{AreTerms};
ghost use Rattle.sc_frames.specs.Stored.{Stored};
ghost use Rattle.sc_frames.specs.Entries.{AreEntries};

/// Bytes are one list of entries at most, since no spelling of an entry begins another.
pub fn one_reading()
    ensures { (body : List ℕ) (a b : List Stored) → AreEntries body a → AreEntries body b → a ≡ b }
{}

/// The terms of a document are determined: they ascend, each once, and have the same members. So entries are determined by
/// what is stored of them and is computed of that.
pub fn terms_are_determined()
    ensures { (id : List ℕ) (fields : List Field) (a b : List Term) → AreTerms id fields a → AreTerms id fields b → a ≡ b }
{}
