ghost use Rattle.std.specs.Prelude.{◌≡◌, [], ◌∷◌, ◌++◌, true, false, IfOk, count_by, if◌then◌else◌};
ghost use Rattle.sc_seen.specs.Batches.{deletes};
ghost use Rattle.sc_update.specs.Steps.{HasRoomToShow, HasRoomToShowOne, GrowsByOne};

use crate::end::{BatchEnd, BatchFault};
use sc_record::{Ack, Change, Id, List, Order};
use std::alloc::{AllocError, Global};

/// What was accepted so far of additions and of deletions, each in order, where it is to be shown.
#[derive(Debug, Drop)]
pub(crate) struct Shown {
    pub adds: Vec<Ack>,
    pub deletes: Vec<Ack>,
}

impl Shown {
    /// Nothing, without memory.
    pub(crate) fn none(alloc: Global) -> Shown
        ensures adds { result.adds.items ≡ [] }
        ensures deletes { result.deletes.items ≡ [] }
    {
        Shown {
            adds: Vec::new(alloc),
            deletes: Vec::new(alloc),
        }
    }

    /// Nothing yet, with room for each of the orders where they are to be shown. An error means out of memory.
    pub(crate) fn with_room(
        alloc: Global,
        orders: &[Order],
        versions: bool,
    ) -> Result<Shown, AllocError>
        ensures adds { IfOk result (λ shown. shown.adds.items ≡ []) }
        ensures deletes { IfOk result (λ shown. shown.deletes.items ≡ []) }
        ensures room { versions ≡ true → IfOk result (λ shown. HasRoomToShow shown orders.now) }
    {
        if !versions {
            return Ok(Shown::none(alloc));
        }
        let deletions = deletions(orders);
        Ok(Shown {
            adds: Vec::with_capacity(alloc, orders.len() - deletions)?,
            deletes: Vec::with_capacity(alloc, deletions)?,
        })
    }

    /// Puts an order that was accepted after the others, in the room that was made.
    pub(crate) fn push(&mut self, deletion: bool, ack: Ack)
        requires { HasRoomToShowOne deletion self.old }
        ensures adds { self.new.adds.items ≡ (if deletion then self.old.adds.items else self.old.adds.items ++ ack ∷ []) }
        ensures deletes { self.new.deletes.items ≡ (if deletion then self.old.deletes.items ++ ack ∷ [] else self.old.deletes.items) }
        ensures grows { GrowsByOne deletion self.old self.new }
    {
        if deletion {
            self.deletes.push_reserved(ack);
        } else {
            self.adds.push_reserved(ack);
        }
    }

    /// The same, as the end of an update.
    pub(crate) fn end(self, fault: Option<BatchFault>) -> BatchEnd
        ensures adds { result.adds ≡ self.adds.items }
        ensures deletes { result.deletes ≡ self.deletes.items }
        ensures fault { result.fault ≡ fault }
    {
        let Shown { adds, deletes } = self;
        BatchEnd {
            adds: List::from_vec(adds),
            deletes: List::from_vec(deletes),
            fault,
        }
    }
}

/// Whether the change deletes the document.
pub(crate) fn is_deletion(change: &Change) -> bool
    ensures { result ≡ deletes change.now }
{
    matches!(change, Change::Delete)
}

/// How many of the orders delete a document.
fn deletions(orders: &[Order]) -> usize
    ensures { result ≡ count_by (λ order. deletes order.change) orders.now }
{
    let mut count = 0;
    for order in orders {
        if is_deletion(&order.change) {
            count += 1;
        }
    }
    count
}

/// The id once more, where it is to be shown.
pub(crate) fn shown_id(alloc: Global, id: &Id, versions: bool) -> Result<Option<Id>, AllocError>
    ensures shown { versions ≡ true → IfOk result (λ shown. shown ≡ Some id.now) }
    ensures only { versions ≡ false → IfOk result (λ shown. shown ≡ None) }
{
    if !versions {
        return Ok(None);
    }
    match Id::new(alloc, id.as_str()) {
        Ok(copy) => Ok(Some(copy)),
        Err(_) => Err(AllocError),
    }
}
