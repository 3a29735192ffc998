ghost use Rattle.std.specs.Prelude.{◌≡◌, ◌≤◌, ◌-◌, drop, filter, length};
ghost use Rattle.sc_bucket.specs.Entries.{is_write, is_settling, is_other};

use crate::entries::Mark;

/// The last n of the items.
pub(crate) fn last_of<T>(items: &[T], n: usize) -> &[T]
    requires { n ≤ length items.now }
    ensures { result.now ≡ drop (length items.now - n) items.now }
{
    &items[items.len() - n..]
}

/// How many of these marks are of writes.
pub(crate) fn writes_among(marks: &[Mark]) -> usize
    ensures { result ≡ length (filter is_write marks.now) }
{
    marks.iter().filter(|mark| is_write(*mark)).count()
}

/// How many of them are of entries that settle a write.
pub(crate) fn settlings_among(marks: &[Mark]) -> usize
    ensures { result ≡ length (filter is_settling marks.now) }
{
    marks.iter().filter(|mark| is_settling(*mark)).count()
}

/// How many of them are of entries of a split or of a core.
pub(crate) fn others_among(marks: &[Mark]) -> usize
    ensures { result ≡ length (filter is_other marks.now) }
{
    marks.iter().filter(|mark| is_other(*mark)).count()
}

fn is_write(mark: &Mark) -> bool
    ensures { result ≡ is_write mark.now }
{
    matches!(mark, Mark::Write)
}

fn is_settling(mark: &Mark) -> bool
    ensures { result ≡ is_settling mark.now }
{
    matches!(mark, Mark::Settled)
}

fn is_other(mark: &Mark) -> bool
    ensures { result ≡ is_other mark.now }
{
    matches!(mark, Mark::Other)
}
