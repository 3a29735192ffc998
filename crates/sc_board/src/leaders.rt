ghost use Rattle.std.specs.Prelude.{◌≡◌, ◌≤◌, ◌<◌, ◌+◌, ◌++◌, length, take, replicate, slice_set, IfOk};
ghost use Rattle.std.specs.List.{remove};
ghost use Rattle.sc_cluster.specs.Limits.{most_slices};

use sc_record::List;
use std::alloc::{AllocError, Global};
use std::marker::Model;
use std::mem;

/// The replica that leads each slice of a map, in its order, which contracts see as the list of them. Only `first` and `with_first`
/// take memory.
#[derive(Drop)]
pub struct Leaders {
    list: List<u8>,
    // makes the empty list, which takes no memory, that stands in for the list while that is changed
    alloc: Global,
}

impl Model for Leaders {
    ghost use Rattle.std.specs.Prelude.{ℕ, List};

    ghost Value = { List ℕ };

    ghost view = { λ a. a.list };
}

impl Leaders {
    /// The first replica leads each of `n` slices. An error means out of memory.
    pub fn first(alloc: Global, n: usize) -> Result<Leaders, AllocError>
        ensures { IfOk result (λ leaders. leaders ≡ replicate n 1) }
    {
        let items = vec![in alloc; 1; n]?;
        Ok(Leaders {
            list: List::from_vec(items),
            alloc,
        })
    }

    /// These, and the first replica of each of `n` slices after them. An error means out of memory.
    pub fn with_first(&self, alloc: Global, n: usize) -> Result<Leaders, AllocError>
        requires { length self.now + n ≤ most_slices }
        ensures { IfOk result (λ leaders. leaders ≡ self.now ++ replicate n 1) }
    {
        let mut items = Vec::new(alloc);
        items.extend_from_slice(self.list.as_slice())?;
        items.resize(self.list.len() + n, 1)?;
        Ok(Leaders {
            list: List::from_vec(items),
            alloc,
        })
    }

    pub fn as_list(&self) -> &List<u8>
        ensures { result.now ≡ self.now }
    {
        &self.list
    }

    /// From here on the replica leads the slice at this place.
    pub fn set(&mut self, at: usize, replica: u8)
        requires { at < length self.old }
        ensures { self.new ≡ slice_set self.old at replica }
    {
        let mut items = self.take();
        items[at] = replica;
        self.list = List::from_vec(items);
    }

    /// Keeps those of the first `n` slices.
    pub fn cut(&mut self, n: usize)
        ensures { self.new ≡ take n self.old }
    {
        let mut items = self.take();
        items.truncate(n);
        self.list = List::from_vec(items);
    }

    /// Takes that of the slice at this place away.
    pub fn remove(&mut self, at: usize)
        requires { at < length self.old }
        ensures { self.new ≡ remove self.old at }
    {
        let mut items = self.take();
        let _ = items.remove(at);
        self.list = List::from_vec(items);
    }

    // The list. An empty one stands in for it.
    fn take(&mut self) -> Vec<u8>
        ensures { result.items ≡ self.old }
    {
        mem::replace(&mut self.list, List::new(self.alloc)).into_vec()
    }
}
