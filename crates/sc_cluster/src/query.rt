//! What is asked of a list of slices.

ghost use Rattle.std.specs.Prelude.{◌≡◌, ◌≢◌, ◌==◌, ◌↔◌, [], IsTrue, All, Contains, MatchOption, find};
ghost use Rattle.std.specs.Option.{option_copied};
ghost use Rattle.sc_cluster.specs.declared.slice.Slice.{Slice};
ghost use Rattle.sc_cluster.specs.Slices.{forming, greatest_id};

use crate::slice::Slice;
use sc_record::SliceId;

/// The greatest id of the slices, 0 where there is none.
pub(crate) fn greatest_id(slices: &[Slice]) -> u32
    ensures { result ≡ greatest_id slices.now }
{
    let mut greatest = 0;
    for slice in slices {
        greatest = greatest.max(slice.id.0);
    }
    greatest
}

/// No slice is being made by a split.
pub(crate) fn is_idle(slices: &[Slice]) -> bool
    ensures { IsTrue result ↔ (forming slices.now ≡ []) }
{
    for slice in slices {
        if slice.state.is_forming() {
            return false;
        }
    }
    true
}

// The slice has this id.
fn has_id(slice: &Slice, id: SliceId) -> bool
    ensures { result ≡ (slice.now.id.0 == id.0) }
{
    slice.id == id
}

// The first slice with this id, by the search for it.
fn find(slices: &[Slice], id: SliceId) -> Option<&Slice>
    ensures { option_copied result ≡ find (λ (slice : Slice). slice.id.0 == id.0) slices.now }
{
    slices.iter().find(|slice| has_id(slice, id))
}

/// The slice with this id.
pub(crate) fn slice_of(slices: &[Slice], id: SliceId) -> Option<&Slice>
    ensures { MatchOption result (All (λ (slice : Slice). slice.id ≢ id) slices.now)
        (λ slice. Contains slices.now slice.now × (slice.now.id ≡ id)) }
{
    find(slices, id)
}
