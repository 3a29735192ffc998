//! What shows which lock it is of.
ghost use Rattle.std.specs.Prelude.{◌≡◌, IsOk, IfOk};
ghost use Rattle.sc_lock.specs.Tokens.{lock_id, IsKeeperOf, IsFreeKeeper, badge_lock};

use crate::keeper::Keeper;
use crate::kept::Kept;
use crate::lock::Lock;
use crate::seat::NEXT;
use crate::steps::Visit;
use crate::view::View;
use std::alloc::AllocError;

/// A sign of one lock, which a value behind another lock may keep in its name. It has no bytes, and
/// no call changes which lock it is of.
#[derive(Drop)]
pub struct Badge<K: Kept> {
    pub(crate) badge: atomic_table::Badge<View<K, K::Entry, K::Part>>,
}

impl<K: Kept> Lock<K> {
    /// A badge of this lock, in one atomic step. It takes no memory.
    pub fn badge(&self, keeper: &Keeper<K>) -> Result<Badge<K>, AllocError>
        requires keeper { IsKeeperOf (lock_id self.now) keeper.now }
        requires free { IsFreeKeeper keeper.now }
        ensures ok { IsOk result }
        ensures lock { IfOk result (λ b. badge_lock b ≡ lock_id self.now) }
    {
        // The number isn't needed: the step brings the seat that becomes the badge.
        let (_, seat) = self.table.shared.load_new_seat::<Visit>(NEXT);
        Ok(Badge {
            badge: seat.into_badge(),
        })
    }
}
