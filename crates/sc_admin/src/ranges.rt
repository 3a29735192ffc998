//! The ranges that a text lists.

ghost use Rattle.std.specs.Prelude.{◌≡◌, ◌≤◌, IfOk, IfSome, map, length};
ghost use Rattle.std.specs.Option.{option_map};
ghost use Rattle.sc_hash.specs.Bounds.{bounds};
ghost use Rattle.sc_board.specs.Splits.{least_parts, most_parts};
ghost use Rattle.sc_admin.specs.Ranges.{range_of, ranges_of};

use sc_hash::{Range, parse_range};
use sc_record::List;
use std::alloc::{AllocError, Global};

/// The least ranges of a cut.
pub(crate) const LEAST_PARTS: usize = 2;

/// The most ranges of a cut.
pub(crate) const MOST_PARTS: usize = 8;

/// The range that the text stands for.
fn range_of(text: &str) -> Option<Range>
    ensures { option_map bounds result ≡ range_of text.now }
{
    parse_range(text)
}

/// The ranges between the commas of a text. None where one is no range, or where there are fewer or more than a cut
/// may have.
pub(crate) fn ranges_of(alloc: Global, text: &str) -> Result<Option<List<Range>>, AllocError>
    ensures ranges { IfOk result (λ list. option_map (map bounds) list ≡ ranges_of text.now) }
    ensures number { IfOk result (λ found. IfSome found (λ list. (least_parts ≤ length list) × (length list ≤ most_parts))) }
{
    let mut ranges = List::new(alloc);
    for part in text.split(',') {
        if ranges.len() == MOST_PARTS {
            return Ok(None);
        }
        let Some(range) = range_of(part) else {
            return Ok(None);
        };
        ranges.push(range)?;
    }
    if ranges.len() < LEAST_PARTS {
        return Ok(None);
    }
    Ok(Some(ranges))
}
