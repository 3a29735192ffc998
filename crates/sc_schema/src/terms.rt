ghost use Rattle.std.specs.Prelude.{◌≡◌, ◌∷◌, [], ◌++◌, List, map, flat_map, length, IfOk, OnOk, IsSome, true, false, IsAscii};
ghost use Rattle.std.specs.List.{list_all};
ghost use Rattle.unicode_segmentation.specs.Word.{words};
ghost use Rattle.std.specs.Cmp.Lexicographic.{slice_cmp};
ghost use Rattle.std.specs.Ordering.{nat_cmp};
ghost use Rattle.sc_values.specs.Fields.{kind_of};
ghost use Rattle.sc_values.specs.declared.field.Field.{Field};
ghost use Rattle.sc_spelling.specs.Lent.{field_of, value_of};
ghost use Rattle.sc_record.specs.TermRuns.{run_at, terms_of_run};
ghost use Rattle.sc_schema.specs.Terms.{by_words, folded, keys_of, AreTerms};
ghost use Rattle.sc_schema.specs.Runs.{is_plain, runs};
ghost use Rattle.sc_record.specs.TermsStates.{TermsState};
ghost use Rattle.sc_schema.specs.Keys.{found_in_field, with_keys, AreKeys, Builds, BuildsSoFar, PutsKeys};

use crate::value::decimal;
use crate::word::{has_capital, in_small_letters, is_plain, push_words, runs_of};
use sc_record::{Doc, Id, Kind, TermRun, TermsBuilder, Text, kind_of};
use sc_spelling::{FieldRef, ValueRef, Values};
use std::alloc::{AllocError, Global};
use std::cmp::Ordering;

/// How many bytes are left where a key stands that is no value of the document: more than there are.
const NOWHERE: usize = usize::MAX;

/// For so many keys of a field there is room at once.
const LIKELY_KEYS: usize = 16;

/// The terms by which a document of this id is found, as a run that is read beside both. A field of words is found by each of its
/// words, whatever their case, and any other one by its whole values.
pub fn terms_of(alloc: Global, id: &Id, doc: &Doc) -> Result<TermRun, AllocError>
    ensures terms { IfOk result (λ run. AreTerms id.now doc.now (terms_of_run id.now doc.now run)) }
    ensures run { IfOk result (λ run. IsSome (run_at id.now doc.now run)) }
{
    let mut terms = TermsBuilder::new(alloc, id, doc);
    terms.reserve(doc.bytes().len())?;
    let mut has_id = false;
    for field in doc.fields() {
        has_id = push_next(alloc, &mut terms, has_id, field)?;
    }
    if !has_id {
        terms.push_id()?;
    }
    Ok(terms.finish())
}

/// Puts the terms of the next field at the end, and before them that of the id, where its place is there. It tells whether that has come.
fn push_next<'a>(
    alloc: Global,
    terms: &mut TermsBuilder<'a>,
    has_id: bool,
    field: FieldRef<'a>,
) -> Result<bool, AllocError>
    ensures { IfOk result (λ has. (all left : List Field) (start : TermsState) → BuildsSoFar all (field_of field.entry ∷ left) has_id start terms.old
        → BuildsSoFar all left has start terms.new) }
{
    if has_id {
        push_field(alloc, terms, field)?;
        return Ok(true);
    }
    if field.name.cmp("id").is_lt() {
        push_field(alloc, terms, field)?;
        return Ok(false);
    }
    terms.push_id()?;
    push_field(alloc, terms, field)?;
    Ok(true)
}

/// Puts the terms of a field at the end.
fn push_field<'a>(
    alloc: Global,
    terms: &mut TermsBuilder<'a>,
    field: FieldRef<'a>,
) -> Result<(), AllocError>
    ensures { OnOk result (Builds (found_in_field (field_of field.entry) ∷ []) terms.old terms.new) }
{
    terms.begin(&field);
    let FieldRef { name, values } = field;
    let split = is_found_by_words(name);
    if values.len() != 1 {
        let keys = keys_of(alloc, split, values)?;
        return push_keys(terms, keys.as_slice());
    }
    if split {
        return push_only_words(alloc, terms, values);
    }
    push_only(alloc, terms, values)
}

/// Whether the field of this name is found word by word.
fn is_found_by_words(name: &str) -> bool
    ensures { result ≡ by_words (kind_of name.now) }
{
    matches!(kind_of(name), Some((Kind::Words, _)))
}

/// Puts the key of the only value, which is found whole, at the end.
fn push_only(
    alloc: Global,
    terms: &mut TermsBuilder<'_>,
    values: Values<'_>,
) -> Result<(), AllocError>
    requires { length values ≡ 1 }
    ensures { OnOk result (terms.new ≡ with_keys (flat_map (keys_of false) values.entry) terms.old) }
{
    let mut values = values;
    let left = values.bytes_left();
    match values.next() {
        Some(ValueRef::Text(text)) => terms.push(text, left),
        Some(value) => {
            let key = whole_key(alloc, &value)?;
            terms.push(key.as_str(), NOWHERE)
        }
        None => Ok(()),
    }
}

/// Puts the words of the only value at the end, which ascend, each once.
fn push_only_words(
    alloc: Global,
    terms: &mut TermsBuilder<'_>,
    values: Values<'_>,
) -> Result<(), AllocError>
    requires { length values ≡ 1 }
    ensures { OnOk result (PutsKeys (flat_map (keys_of true) values.entry) terms.old terms.new) }
{
    let mut values = values;
    match values.next() {
        Some(ValueRef::Text(text)) if is_plain(text) => push_plain_words(alloc, terms, text),
        Some(value) => push_words_of(alloc, terms, &value),
        None => Ok(()),
    }
}

/// Puts the words of a value at the end, which ascend, each once.
fn push_words_of(
    alloc: Global,
    terms: &mut TermsBuilder<'_>,
    value: &ValueRef<'_>,
) -> Result<(), AllocError>
    ensures { OnOk result (PutsKeys (keys_of true (value_of value.now)) terms.old terms.new) }
{
    let mut keys = Vec::with_capacity(alloc, LIKELY_KEYS)?;
    push_value(alloc, &mut keys, true, value)?;
    let keys = in_order(keys);
    push_keys(terms, keys.as_slice())
}

/// Puts the words of a plain text at the end, which ascend, each once.
fn push_plain_words(
    alloc: Global,
    terms: &mut TermsBuilder<'_>,
    text: &str,
) -> Result<(), AllocError>
    requires { list_all is_plain text.now ≡ true }
    ensures { OnOk result (PutsKeys (map folded (words text.now)) terms.old terms.new) }
{
    if has_capital(text) {
        let lower = in_small_letters(alloc, text)?;
        return push_runs(alloc, terms, lower.as_str());
    }
    push_runs(alloc, terms, text)
}

/// Puts the runs of letters and digits of an ASCII text at the end, which ascend, each once.
fn push_runs(alloc: Global, terms: &mut TermsBuilder<'_>, text: &str) -> Result<(), AllocError>
    requires { IsAscii text.now }
    ensures { OnOk result (PutsKeys (runs text.now) terms.old terms.new) }
{
    let mut words = runs_of(alloc, text)?;
    words.sort_unstable_by(|left, right| key_cmp(left, right));
    words.dedup();
    push_lent_keys(terms, words.as_slice())
}

/// The keys of values of one field, which ascend, each once.
fn keys_of(alloc: Global, split: bool, values: Values<'_>) -> Result<Vec<Text>, AllocError>
    ensures { IfOk result (λ keys. AreKeys (flat_map (keys_of split) values.entry) keys.items) }
{
    let keys = found_keys(alloc, split, values)?;
    Ok(in_order(keys))
}

/// Keys that were found, which then ascend, each once.
fn in_order(found: Vec<Text>) -> Vec<Text>
    ensures { AreKeys found.items result.items }
{
    let mut keys = found;
    keys.sort_unstable_by(|left, right| key_cmp(left.as_str(), right.as_str()));
    keys.dedup();
    keys
}

/// The same as they are found.
fn found_keys(alloc: Global, split: bool, values: Values<'_>) -> Result<Vec<Text>, AllocError>
    ensures { IfOk result (λ keys. keys.items ≡ flat_map (keys_of split) values.entry) }
{
    let mut keys = Vec::with_capacity(alloc, values.len().max(LIKELY_KEYS))?;
    for value in values {
        push_value(alloc, &mut keys, split, &value)?;
    }
    Ok(keys)
}

/// The order of two keys, of which most differ in their first bytes.
fn key_cmp(left: &str, right: &str) -> Ordering
    ensures { result ≡ slice_cmp nat_cmp left.now right.now }
{
    match (left.as_bytes(), right.as_bytes()) {
        ([first, ..], [other, ..]) if *first != *other => first.cmp(other),
        _ => left.cmp(right),
    }
}

/// Puts the keys of a value at the end.
fn push_value(
    alloc: Global,
    keys: &mut Vec<Text>,
    split: bool,
    value: &ValueRef<'_>,
) -> Result<(), AllocError>
    ensures { OnOk result (keys.new.items ≡ keys.old.items ++ keys_of split (value_of value.now)) }
{
    match value {
        ValueRef::Text(text) if split => push_words(alloc, keys, text),
        _ => Ok(keys.push(whole_key(alloc, value)?)?),
    }
}

/// The key of a value that is found whole.
fn whole_key(alloc: Global, value: &ValueRef<'_>) -> Result<Text, AllocError>
    ensures { IfOk result (λ key. keys_of false (value_of value.now) ≡ key ∷ []) }
{
    match value {
        ValueRef::Text(text) => Text::new(alloc, text),
        ValueRef::Int(number) => decimal(alloc, i64::from(*number)),
        ValueRef::Long(number) => decimal(alloc, *number),
        ValueRef::Flag(flag) => {
            let name = if *flag { "true" } else { "false" };
            Text::new(alloc, name)
        }
    }
}

/// Puts these keys of the builder's field at the end.
fn push_keys(terms: &mut TermsBuilder<'_>, keys: &[Text]) -> Result<(), AllocError>
    ensures { OnOk result (terms.new ≡ with_keys keys.now terms.old) }
{
    for key in keys {
        terms.push(key.as_str(), NOWHERE)?;
    }
    Ok(())
}

/// The same of keys that are lent.
fn push_lent_keys(terms: &mut TermsBuilder<'_>, keys: &[&str]) -> Result<(), AllocError>
    ensures { OnOk result (terms.new ≡ with_keys (map (λ key. key.now) keys.now) terms.old) }
{
    for key in keys {
        terms.push(key, NOWHERE)?;
    }
    Ok(())
}
