ghost use Rattle.std.specs.Prelude.{◌≡◌, ◌+◌, ◌<◌, ◌≤◌, slice_get, true, Some};
ghost use Rattle.sc_rows.specs.Moving.{AllStay};

/// Which keys of an index stay, and where the rows of each key end. Only the keys before a place count, and nothing is known of one past
/// the end of the first list.
#[derive(Clone, Copy)]
pub struct Runs<'a> {
    pub stays: &'a [bool],
    pub ends: &'a [u32],
    pub before: usize,
}

/// The last of the keys that are told to stay, one after another, from this one on, before another place.
pub(crate) fn last_staying(stays: &[bool], at: usize, before: usize) -> usize
    requires stays { slice_get stays.now at ≡ Some true }
    requires within { at < before }
    ensures rises { at ≤ result }
    ensures within { result < before }
    ensures stay { AllStay stays.now at (result + 1) }
{
    let end = before.min(stays.len());
    for next in at + 1..end {
        if !stays[next] {
            return next - 1;
        }
    }
    end - 1
}
