ghost use Rattle.std.specs.Prelude.{◌≡◌, if◌then◌else◌, None, Some, IsSome, OnOk, OnErr};
ghost use Rattle.std.specs.Option.{option_map};
ghost use Rattle.sc_record.specs.TermRuns.{run_at, terms_of_run};
ghost use Rattle.sc_record.specs.TermsStates.{begun, no_terms, with_id, with_key};

use crate::document::Doc;
use crate::id::Id;
use crate::term_push::{Placed, push_term};
use crate::term_run::{ID, TermRun};
use sc_spelling::FieldRef;
use std::alloc::{AllocError, Global};
use std::marker::Model;

/// Builds the terms of a document, which contracts see as its id, its fields, the field of the next key and the terms so far. After
/// an error it is as it was.
#[derive(Drop)]
pub struct TermsBuilder<'a> {
    id: &'a Id,
    doc: &'a Doc,
    field: &'a str,
    // Where the field's name may stand in the document, with its length before it.
    place: usize,
    // Whether the last term is of the field.
    has_begun: bool,
    run: TermRun,
}

impl<'a> Model for TermsBuilder<'a> {
    ghost use Rattle.sc_record.specs.TermRuns.{terms_of_run};
    ghost use Rattle.sc_record.specs.TermsStates.{TermsState, AreTermsOf};

    ghost Value = { TermsState };

    ghost view = { λ a. record { id = a.id.now; fields = a.doc.now; field = a.field.now; terms = terms_of_run a.id.now a.doc.now a.run } };

    ghost invariant = { λ a. AreTermsOf a.id.now a.doc.now a.field.now a.has_begun a.run };
}

impl<'a> TermsBuilder<'a> {
    /// No terms yet.
    pub fn new(alloc: Global, id: &'a Id, doc: &'a Doc) -> TermsBuilder<'a>
        ensures { result ≡ no_terms id.entry.now doc.entry.now }
    {
        TermsBuilder {
            id,
            doc,
            field: "",
            place: 0,
            has_begun: false,
            run: TermRun {
                count: 0,
                bytes: Vec::new(alloc),
            },
        }
    }

    /// Makes room for so many more bytes at once.
    pub fn reserve(&mut self, bytes: usize) -> Result<(), AllocError>
        ensures { self.new ≡ self.old }
    {
        self.run.bytes.reserve_exact(bytes)
    }

    /// Puts the term of the id at the end.
    pub fn push_id(&mut self) -> Result<(), AllocError>
        ensures ok { OnOk result (self.new ≡ with_id self.old) }
        ensures err { OnErr result (self.new ≡ self.old) }
    {
        let Some(count) = self.run.count.checked_add(1) else {
            return Err(AllocError);
        };
        self.run.bytes.push(ID)?;
        self.run.count = count;
        self.has_begun = false;
        Ok(())
    }

    /// The next keys are of this field.
    pub fn begin(&mut self, field: &FieldRef<'a>)
        ensures { self.new ≡ begun field.now.name.now self.old }
    {
        let values = self.place_of(field.values.bytes_left());
        self.field = field.name;
        self.place = values.saturating_sub(field.name.len() + 6);
        self.has_begun = false;
    }

    /// Puts a key of the field at the end. Where the key is a value of the document, `bytes_left` is what the values told before they
    /// lent it, so that the text is kept once; else it may be any number.
    pub fn push(&mut self, key: &str, bytes_left: usize) -> Result<(), AllocError>
        ensures ok { OnOk result (self.new ≡ with_key key.now self.old) }
        ensures err { OnErr result (self.new ≡ self.old) }
    {
        let Some(count) = self.run.count.checked_add(1) else {
            return Err(AllocError);
        };
        let key = Placed {
            text: key,
            place: self.place_of(bytes_left),
        };
        let name = Placed {
            text: self.field,
            place: self.place,
        };
        let name = name_unless(self.has_begun, name);
        push_term(&mut self.run.bytes, self.doc.bytes(), name, key)?;
        self.run.count = count;
        self.has_begun = true;
        Ok(())
    }

    // Where a text stands in the document, by what was left before it was lent; a number above all places where more was left than it has.
    #[inline(always)]
    fn place_of(&self, bytes_left: usize) -> usize {
        let length = self.doc.bytes().len();
        if bytes_left > length {
            return usize::MAX;
        }
        length - bytes_left
    }

    /// The terms as bytes.
    pub fn finish(self) -> TermRun
        ensures terms { terms_of_run self.entry.id self.entry.fields result ≡ self.entry.terms }
        ensures run { IsSome (run_at self.entry.id self.entry.fields result) }
    {
        let TermsBuilder { run, .. } = self;
        run
    }
}

// The name of the field, unless it has begun.
#[inline(always)]
fn name_unless(has_begun: bool, name: Placed<'_>) -> Option<Placed<'_>>
    ensures { option_map (λ name. name.text.now) result ≡ (if has_begun then None else Some name.entry.text.now) }
{
    if has_begun { None } else { Some(name) }
}
