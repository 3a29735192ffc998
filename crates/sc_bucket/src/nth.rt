ghost use Rattle.std.specs.Prelude.{◌≡◌, slice_get, option_copied, All, Contains};
ghost use Rattle.std.specs.Arc.{arc_value};
ghost use Rattle.std.specs.Option.{option_map};
ghost use Rattle.sc_cluster.specs.declared.slice.State.TheVariants as states;
ghost use Rattle.sc_bucket.specs.Serving.{cells_of_leader, served, AreLastWrites};
ghost use Rattle.sc_bucket.specs.Sound.{IsSound};

use crate::bucket::Bucket;
use sc_cluster::{Slice, State};
use sc_record::{Cell, CoreId};
use sc_replica::Cells;

impl Bucket {
    /// The last write of the bucket's id i, from 0, a deletion too: ids are counted by active slices in the order of the map, and in each
    /// slice ascending by their bytes. None exactly where there are not so many ids that were ever written. It goes once over the map and
    /// takes no memory.
    pub fn nth(&self, i: u64) -> Option<&Cell>
        requires { IsSound self.now }
        ensures cell { option_map arc_value (option_copied result) ≡ slice_get (served self.now) i }
        ensures each { AreLastWrites self.now.journal.entries (served self.now) }
    {
        let mut left = i;
        for at in 0..self.map.len() {
            let slice = self.map.get(at).unwrap();
            if slice.state == State::Active {
                let cells = self.cells_of_leader(slice);
                let count = cells.len() as u64;
                if left < count {
                    return cells.nth(left as usize);
                }
                left -= count;
            }
        }
        None
    }

    // The cells of the core that leads the slice.
    fn cells_of_leader(&self, slice: &Slice) -> &Cells
        requires sound { IsSound self.now }
        requires there { Contains self.now.map slice.now }
        ensures { result.now.writes ≡ cells_of_leader self.now.replicas slice.now }
    {
        let leader = self.replicas.position(CoreId::leader(slice.id)).unwrap();
        self.replicas.get(leader).cells()
    }
}
