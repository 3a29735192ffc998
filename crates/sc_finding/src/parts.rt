ghost use Rattle.std.specs.Prelude.{◌≡◌, ℕ, ◌<◌, ◌≤◌, length, map, All, IfOk, Result, slice_index_or};
ghost use Rattle.std.specs.Fork.{slice_chunk};
ghost use Rattle.std.specs.declared.alloc.AllocError.{AllocError};
ghost use Rattle.sc_eval.specs.Criteria.{criterion_of};
ghost use Rattle.sc_keys.specs.Fresh.{IsFresh};
ghost use Rattle.sc_finding.specs.Hits.{HasFound};
ghost use Rattle.sc_finding.specs.SearcherRows.{HaveTerms};
ghost use Rattle.sc_finding.specs.declared.hits.Found.{Found};

use crate::finding::find_all;
use crate::hits::Found;
use sc_eval::Bound;
use sc_keys::Steps;
use sc_replicas::Searcher;
use std::alloc::{AllocError, Global};
use std::marker::Brand;
use std::sync::ledger::{Blank, Ledger};
use std::thread;
use std::thread::Threads;

/// So many parts of a search run at once, at most.
const MOST_PARTS: u64 = 8;

/// A part that looks at fewer rows than these costs more to start and to join than it saves.
const ROWS_OF_A_PART: u64 = 1 << 20;

/// Into how many parts a search over so many rows is cut: one for each 2^20 of them, at least one and at most eight. To look up a term
/// among a million rows takes about half a millisecond, and to start and join two parts some 30 microseconds, or eight some 240.
pub fn parts_for(rows: u64) -> usize
    ensures some { 1 ≤ result }
    ensures few { result ≤ 8 }
{
    (rows / ROWS_OF_A_PART).clamp(1, MOST_PARTS) as usize
}

/// What the query finds with these searchers, cut into so many parts of consecutive ones. Each part is searched in a thread of its own,
/// or by this one where none can be started, and what they find is put together in their order. The only error is that memory was
/// refused.
pub fn find_in_parts<'a, R: Threads + Sync>(
    rt: &R,
    alloc: Global,
    query: &Bound,
    searchers: &'a [Searcher],
    most: usize,
    parts: usize,
) -> Result<Found<'a>, AllocError>
    requires parts { 1 ≤ parts }
    requires terms { All HaveTerms searchers.now }
    requires few { length searchers.now ≤ 65536 }
    ensures { IfOk result (HasFound (criterion_of query.now) most searchers.now) }
{
    if parts == 1 {
        return find_part(alloc, query, searchers, most);
    }
    let size = searchers.len().div_ceil(parts);
    let mut all = Found {
        count: 0,
        hits: Vec::with_capacity(alloc, searchers.len())?,
    };
    let each = find_each(rt, alloc, query, searchers, most, size, parts)?;
    for part in each {
        let mut part = part?;
        all.count += part.count;
        all.hits.append(&mut part.hits)?;
    }
    Ok(all)
}

// What the query finds with each of the first parts, all at once.
fn find_each<'a, R: Threads + Sync>(
    rt: &R,
    alloc: Global,
    query: &Bound,
    searchers: &'a [Searcher],
    most: usize,
    size: usize,
    parts: usize,
) -> Result<Vec<Result<Found<'a>, AllocError>>, AllocError>
    requires terms { All HaveTerms searchers.now }
    requires few { length searchers.now ≤ 65536 }
    ensures count { IfOk result (λ found. length found.items ≡ parts) }
    ensures each { IfOk result (λ found. (n : ℕ) (default : Result Found AllocError) → n < parts
        → IfOk (slice_index_or found.items n default) (HasFound (criterion_of query.now) most (slice_chunk searchers.now size n))) }
{
    thread::map_indices(
        rt,
        alloc,
        parts,
        &|n: usize| -> Result<Found, AllocError>
            requires { All HaveTerms searchers.now × (length searchers.now ≤ 65536) }
            ensures { IfOk result (HasFound (criterion_of query.entry.now) most (slice_chunk searchers.entry.now size n)) }
        { find_part(alloc, query, part_of(searchers, size, n), most) },
    )
}

// What the query finds with the searchers of one part, by a count of steps of its own, which is for proofs alone.
fn find_part<'a>(
    alloc: Global,
    query: &Bound,
    searchers: &'a [Searcher],
    most: usize,
) -> Result<Found<'a>, AllocError>
    requires terms { All HaveTerms searchers.now }
    requires few { length searchers.now ≤ 65536 }
    ensures { IfOk result (HasFound (criterion_of query.now) most searchers.now) }
{
    find_counted::<Brand>(alloc, query, searchers, most, Blank::new(1))
}

// The same, by a count that begins here. No step is taken but those of `find_all`, whose bound it is.
fn find_counted<'a, L: Ledger>(
    alloc: Global,
    query: &Bound,
    searchers: &'a [Searcher],
    most: usize,
    blank: Blank,
) -> Result<Found<'a>, AllocError>
    requires terms { All HaveTerms searchers.now }
    requires few { length searchers.now ≤ 65536 }
    requires fresh { IsFresh blank L.name L.parts }
    ensures { IfOk result (HasFound (criterion_of query.now) most searchers.now) }
{
    let mut steps = Steps::<L>::new(blank);
    find_all(alloc, query, searchers, most, &mut steps)
}

// The part of this number, counted from 0, where each part has so many searchers, and the last ones fewer or none.
fn part_of(searchers: &[Searcher], size: usize, n: usize) -> &[Searcher]
    ensures part { result.now ≡ slice_chunk searchers.now size n }
    ensures terms { All HaveTerms searchers.now → All HaveTerms result.now }
    ensures few { length result.now ≤ length searchers.now }
{
    let from = n.saturating_mul(size).min(searchers.len());
    let to = from.saturating_add(size).min(searchers.len());
    &searchers[from..to]
}
