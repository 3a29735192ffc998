ghost use Rattle.std.specs.Prelude.{◌≡◌, ◌<◌, ◌≤◌, ◌+◌, ◌-◌, ◌++◌, ◌∷◌, [], map, filter, length, slice_get, Some, None, IfOk, OnOk, if◌then◌else◌};
ghost use Rattle.std.specs.Option.{option_map};
ghost use Rattle.std.specs.Arc.{arc_value};
ghost use Rattle.sc_record.specs.Writes.{Write};
ghost use Rattle.sc_keys.specs.Fresh.{IsFresh};
ghost use Rattle.sc_snapshot.specs.Rows.{AreRows, is_within};
ghost use Rattle.sc_bucket.specs.Pending.{left_of, new_feed};

use sc_hash::Range;
use sc_keys::Steps;
use sc_record::{Cell, CoreId};
use sc_snapshot::Rows;
use std::alloc::{AllocError, Global};
use std::collections::VecDeque;
use std::marker::{Brand, Model};
use std::sync::Arc;
use std::sync::ledger::{Blank, Ledger};

/// A snapshot from which a core is fed the rows of its range, a piece at a time, which contracts see as a `FeedState`. It has its own
/// share of each row that it has still to feed, so that feeding takes no memory.
#[derive(Drop)]
pub struct Feed {
    core: CoreId,
    range: Range,
    snapshot: Arc<Rows>,
    // the next row to look at
    next: u32,
    // the rows from there on that are in the range, in order
    shares: VecDeque<Cell>,
}

impl Model for Feed {
    ghost use Rattle.std.specs.Prelude.{◌≡◌, ◌≤◌, length, map, filter, drop};
    ghost use Rattle.std.specs.Arc.{arc_value};
    ghost use Rattle.sc_snapshot.specs.Rows.{AreRows, is_within};
    ghost use Rattle.sc_bucket.specs.Kept.{FeedState};

    ghost Value = { FeedState };

    ghost view = { λ a. record {
      core = a.core;
      range = a.range;
      place = (arc_value a.snapshot).place;
      rows = (arc_value a.snapshot).rows;
      next = a.next;
    } };

    ghost invariant = { λ a. (map arc_value a.shares.items ≡ filter (is_within a.range) (drop a.next (arc_value a.snapshot).rows))
        × (a.next ≤ length (arc_value a.snapshot).rows) × AreRows (arc_value a.snapshot).rows };
}

impl Feed {
    /// A feed of the core, whose range this is, from the first row of the snapshot on. The only error is that memory was refused.
    pub fn new(
        alloc: Global,
        core: CoreId,
        range: Range,
        snapshot: Arc<Rows>,
    ) -> Result<Feed, AllocError>
        ensures { IfOk result (λ feed. feed ≡ new_feed core range (arc_value snapshot)) }
    {
        let shares = shares_of::<Brand>(alloc, &range, &snapshot, Blank::new(1))?;
        Ok(Feed {
            core,
            range,
            snapshot,
            next: 0,
            shares,
        })
    }

    /// The core that it feeds.
    pub fn core(&self) -> CoreId
        ensures { result ≡ self.now.core }
    {
        self.core
    }

    /// How many rows it has not looked at.
    pub fn rows_left(&self) -> u32
        ensures { result ≡ length self.now.rows - self.now.next }
    {
        self.snapshot.rows() - self.next
    }

    /// How many writes it has still to feed.
    pub fn pending(&self) -> usize
        ensures { result ≡ length (left_of self.now) }
    {
        self.shares.len()
    }

    /// Looks at the next row: the write to feed, or None where its hash is not in the core's range. It takes no memory.
    pub fn look(&mut self) -> Option<Cell>
        requires { self.old.next < length self.old.rows }
        ensures next { self.new ≡ record self.old { next = self.old.next + 1 } }
        ensures row { (row : Write) → slice_get self.old.rows self.old.next ≡ Some row
            → option_map arc_value result ≡ (if is_within self.old.range row then Some row else None) }
    {
        let is_within = is_within_at::<Brand>(
            &self.range,
            &self.snapshot,
            self.next,
            Blank::new(1),
        );
        self.next += 1;
        if is_within {
            self.shares.pop_front()
        } else {
            None
        }
    }
}

/// The row's hash is in the range.
pub(crate) fn is_within(range: &Range, row: &Cell) -> bool
    ensures { result ≡ is_within range.now (arc_value row.now) }
{
    range.contains(row.hash())
}

// Shares of the rows whose hashes are in the range, in order. Each row is read, by a count of steps of its own, which is for proofs alone.
fn shares_of<L: Ledger>(
    alloc: Global,
    range: &Range,
    snapshot: &Rows,
    blank: Blank,
) -> Result<VecDeque<Cell>, AllocError>
    requires { IsFresh blank L.name L.parts }
    ensures shares { IfOk result (λ shares. map arc_value shares.items ≡ filter (is_within range.now) snapshot.now.rows) }
    ensures rows { AreRows snapshot.now.rows }
{
    let mut steps = Steps::<L>::new(blank);
    let mut shares = VecDeque::new(alloc);
    for at in 0..snapshot.rows() {
        push_share(&mut shares, range, snapshot.row(at, &mut steps).unwrap())?;
    }
    Ok(shares)
}

// Whether the hash of this row is in the range. It is read, by a count of steps of its own.
fn is_within_at<L: Ledger>(range: &Range, snapshot: &Rows, at: u32, blank: Blank) -> bool
    requires within { at < length snapshot.now.rows }
    requires fresh { IsFresh blank L.name L.parts }
    ensures { (row : Write) → slice_get snapshot.now.rows at ≡ Some row → result ≡ is_within range.now row }
{
    let mut steps = Steps::<L>::new(blank);
    is_within(range, snapshot.row(at, &mut steps).unwrap())
}

// Puts a share of the row at the end where its hash is in the range.
fn push_share(shares: &mut VecDeque<Cell>, range: &Range, row: &Cell) -> Result<(), AllocError>
    ensures { OnOk result (map arc_value shares.new.items
        ≡ map arc_value shares.old.items ++ filter (is_within range.now) (arc_value row.now ∷ [])) }
{
    if is_within(range, row) {
        shares.push_back(Arc::try_clone(row)?)?;
    }
    Ok(())
}
