ghost use Rattle.std.specs.Prelude.{◌≡◌, ◌+◌};
ghost use Rattle.sc_keys.specs.Fresh.{IsFresh};

use std::marker::Model;
use std::sync::ledger::{Blank, Book, Ledger, Share};

/// How many steps were taken: a number for proofs alone, which takes no bytes and which only `tick` changes.
///
/// What a step stands for is said by those that tick: for a `Key` it is one comparison. A function with a
/// bound takes `&mut Steps<L>` for any ledger `L`, last.
#[derive(Drop)]
pub struct Steps<L: Ledger> {
    book: Book<L>,
    share: Share<L>,
}

impl<L: Ledger> Model for Steps<L> {
    ghost use Rattle.std.specs.Prelude.{ℕ, ◌<◌};

    ghost Value = { ℕ };

    ghost view = { λ s. s.book.total };

    ghost invariant = { λ s. 0 < s.share.parts };
}

impl<L: Ledger> Steps<L> {
    /// A count at 0 on a blank ledger, which the caller makes by `Blank::new(1)` and names by its call at
    /// `std::marker::Brand`.
    pub fn new(blank: Blank) -> Self
        requires { IsFresh blank L.name L.parts }
        ensures { result ≡ 0 }
    {
        let (book, share) = blank.open();
        Steps { book, share }
    }

    /// Counts one step more. It does nothing at run time.
    pub fn tick(&mut self)
        ensures { self.new ≡ self.old + 1 }
    {
        self.book.add(&mut self.share, 1);
    }
}
