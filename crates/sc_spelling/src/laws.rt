ghost use Rattle.std.specs.Prelude.{◌≡◌, ◌++◌, List, ℕ};
ghost use Rattle.sc_values.specs.declared.field.Field.{Field};
ghost use Rattle.sc_values.specs.Fields.{IsDocument};
ghost use Rattle.sc_spelling.specs.Spellings.{spelling};

/// No spelling of a document begins another: bytes spell one document at most, and say where it ends. So what was pushed is
/// what is read, whatever follows it.
pub fn one_reading()
    ensures { (a b : List Field) (x y : List ℕ) → IsDocument a → IsDocument b → spelling a ++ x ≡ spelling b ++ y → (a ≡ b) × (x ≡ y) }
{}
