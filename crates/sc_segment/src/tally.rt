ghost use Rattle.std.specs.Prelude.{◌≡◌, IfOk, OnErr};
ghost use Rattle.sc_segment.specs.Filing.{Counts};

use std::alloc::AllocError;

/// What a builder keeps of a key: the key's number, how many rows it has, and the last of them.
#[derive(Clone, Copy)]
pub(crate) struct Tally {
    pub(crate) number: u32,
    pub(crate) count: u32,
    pub(crate) last: u32,
}

/// A row of the key with this number.
#[derive(Clone, Copy)]
pub(crate) struct Posting {
    pub(crate) number: u32,
    pub(crate) row: u32,
}

impl Tally {
    /// Counts a row, unless it is the last one already. Gives the key's number, or None where the row counts no more. An error means that
    /// the key has 2^32 - 1 rows.
    pub(crate) fn add(&mut self, row: u32) -> Result<Option<u32>, AllocError>
        ensures ok { IfOk result (λ number. Counts row self.old self.new number) }
        ensures err { OnErr result (self.new ≡ self.old) }
    {
        if self.last == row {
            return Ok(None);
        }
        let count = self.count.checked_add(1).ok_or(AllocError)?;
        *self = Tally {
            number: self.number,
            count,
            last: row,
        };
        Ok(Some(self.number))
    }
}
