//! Which journals are of one collection, by what they say was done.

ghost use Rattle.std.specs.Prelude.{◌≡◌, ◌↔◌, IsTrue, All, MatchOption};
ghost use mathlib.Core.List.{IsPrefix};
ghost use Rattle.sc_opening.specs.declared.change.Change.{Change};
ghost use Rattle.sc_opening.specs.Collections.{longest, IsFirstApart};

use crate::change::Change;
use crate::same::is_same_change;
use sc_record::List;

/// The longest of several lists of changes, the first of those that are as long; none where there is no list.
pub fn longest(said: &[List<Change>]) -> &[Change]
    ensures { result.now ≡ longest said.now }
{
    let mut best: &[Change] = &[];
    for list in said {
        if best.len() < list.len() {
            best = list.as_slice();
        }
    }
    best
}

/// The list is a beginning of what was done.
pub fn is_beginning(list: &[Change], done: &[Change]) -> bool
    ensures { IsTrue result ↔ IsPrefix list.now done.now }
{
    if done.len() < list.len() {
        return false;
    }
    for (i, change) in list.iter().enumerate() {
        if !is_same_change(change, &done[i]) {
            return false;
        }
    }
    true
}

/// The number of the first list that is no beginning of what was done; none where each one is.
pub fn first_apart(said: &[List<Change>], done: &[Change]) -> Option<usize>
    ensures { MatchOption result (All (λ (one : List Change). IsPrefix one done.now) said.now)
        (λ number. IsFirstApart done.now said.now number) }
{
    for (i, list) in said.iter().enumerate() {
        if !is_beginning(list.as_slice(), done) {
            return Some(i);
        }
    }
    None
}
