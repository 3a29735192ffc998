//! Orders in batches.
ghost use Rattle.std.specs.Prelude.{◌≡◌, ◌<◌, [], ◌∷◌, ◌++◌, length, IfOk, OnOk};
ghost use Rattle.sc_schema.specs.Documents.{content_of};
ghost use Rattle.sc_workload.specs.Batches.{AreSmall, IsFilling, contents, filled_orders, no_flags};

use sc_commands::{Batch, Flags};
use sc_record::{List, Order};
use std::alloc::{AllocError, Global};
use std::mem;

/// The most orders of a batch.
const MAX_BATCH: usize = 100;

/// Batches that are being filled, in order.
#[derive(Drop)]
pub(crate) struct Batches {
    /// Those that are full.
    pub(crate) full: List<Batch>,
    /// The orders after them, which make the last one.
    pub(crate) last: List<Order>,
}

impl Batches {
    pub(crate) fn new(alloc: Global) -> Batches
        ensures none { filled_orders result ≡ [] }
        ensures filling { IsFilling result }
    {
        Batches {
            full: List::new(alloc),
            last: List::new(alloc),
        }
    }

    /// Puts the order at the end. After an error nothing is said of the batches.
    pub(crate) fn push(&mut self, alloc: Global, order: Order) -> Result<(), AllocError>
        requires { IsFilling self.old }
        ensures pushed { OnOk result (filled_orders self.new ≡ filled_orders self.old ++ content_of order ∷ []) }
        ensures filling { OnOk result (IsFilling self.new) }
    {
        self.make_room(alloc)?;
        self.last.push(order)?;
        Ok(())
    }

    /// Puts the last batch among those that are full, where it is.
    fn make_room(&mut self, alloc: Global) -> Result<(), AllocError>
        requires { IsFilling self.old }
        ensures same { OnOk result (filled_orders self.new ≡ filled_orders self.old) }
        ensures full { OnOk result (AreSmall self.new.full) }
        ensures room { OnOk result (length self.new.last < 100) }
    {
        if self.last.len() < MAX_BATCH {
            return Ok(());
        }
        let full = mem::replace(&mut self.last, List::new(alloc));
        self.full.push(batch_of(full))?;
        Ok(())
    }

    /// All batches.
    pub(crate) fn into_list(self) -> Result<List<Batch>, AllocError>
        requires { IsFilling self }
        ensures orders { IfOk result (λ batches. contents batches ≡ filled_orders self) }
        ensures small { IfOk result AreSmall }
    {
        let Batches { mut full, last } = self;
        if last.is_empty() {
            return Ok(full);
        }
        full.push(batch_of(last))?;
        Ok(full)
    }
}

/// A batch of these orders without flags.
fn batch_of(orders: List<Order>) -> Batch
    ensures { result ≡ record { orders = orders; flags = no_flags } }
{
    Batch {
        orders,
        flags: Flags {
            commit: false,
            versions: false,
            fail_on_conflict: false,
        },
    }
}
