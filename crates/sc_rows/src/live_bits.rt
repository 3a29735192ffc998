ghost use Rattle.std.specs.Prelude.{◌≡◌, ℕ, ◌<◌, ◌≤◌, ◌↔◌, IsTrue, length, true, false, replicate, slice_get, slice_set, Some, IfOk};

use std::alloc::{AllocError, Global};
use std::marker::Model;

/// Which rows are live, a bit for each row.
#[derive(Drop)]
pub struct LiveBits {
    words: Vec<u64>,
    rows: u32,
}

impl Model for LiveBits {
    ghost use Rattle.std.specs.Prelude.{◌*◌, ◌≤◌, vec_len, List, Bool};
    ghost use Rattle.sc_rows.specs.Live.{live_rows};

    ghost Value = { List Bool };

    ghost view = { λ a. live_rows a.rows a.words.items };

    ghost invariant = { λ a. a.rows ≤ 64 * vec_len a.words };
}

impl LiveBits {
    /// All rows live. An error means out of memory.
    pub fn new(alloc: Global, rows: u32) -> Result<Self, AllocError>
        ensures { IfOk result (λ live. live ≡ replicate rows true) }
    {
        let count = (rows as usize).div_ceil(64);
        let words = vec![in alloc; u64::MAX; count]?;
        Ok(LiveBits { words, rows })
    }

    /// Marks the row as deleted.
    pub fn clear(&mut self, row: u32)
        requires { row < length self.old }
        ensures { self.new ≡ slice_set self.old row false }
    {
        let place = row as usize / 64;
        let word = self.words[place];
        self.words[place] = word & !(1 << (row % 64));
    }

    pub fn is_live(&self, row: u32) -> bool
        requires { row < length self.now }
        ensures { slice_get self.now row ≡ Some result }
    {
        let word = self.words[row as usize / 64];
        (word >> (row % 64)) & 1 == 1
    }

    /// Whether all rows from this one up to another are live. Where it can it looks at 64 rows at once.
    pub fn are_live(&self, from: u32, to: u32) -> bool
        requires order { from ≤ to }
        requires within { to ≤ length self.now }
        ensures { IsTrue result ↔ ((row : ℕ) → from ≤ row → row < to → slice_get self.now row ≡ Some true) }
    {
        let words = self.words.as_slice();
        let mut row = from;
        'looking: while row < to {
            if row % 64 == 0 && 64 <= to - row {
                if words[row as usize / 64] != u64::MAX {
                    return false;
                }
                row += 64;
            } else {
                if !self.is_live(row) {
                    return false;
                }
                row += 1;
            }
        }
        true
    }
}
