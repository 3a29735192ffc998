ghost use Rattle.std.specs.Prelude.{◌≡◌, IfOk};

use std::alloc::{AllocError, Global};

/// A copy whose memory comes from an allocator that the caller names, and which equals its original. Lists and texts
/// of a copy take no more room than they fill. The only error is that memory was refused; the original stays.
pub trait CloneIn: Drop {
    fn clone_in(&self, alloc: Global) -> Result<Self, AllocError>
        ensures { IfOk result (λ copy. copy ≡ self.now) };
}

/// Copies of all items, in their order.
pub fn clone_items<T: CloneIn>(alloc: Global, items: &[T]) -> Result<Vec<T>, AllocError>
    ensures { IfOk result (λ copies. copies.items ≡ items.now) }
{
    let mut copies = Vec::with_capacity(alloc, items.len())?;
    for item in items {
        copies.push(item.clone_in(alloc)?)?;
    }
    Ok(copies)
}
