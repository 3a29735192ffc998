ghost use Rattle.std.specs.Prelude.{◌≡◌, ◌<◌, ◌↔◌, IsTrue};
ghost use Rattle.sc_journal.specs.Seats.{seats};
ghost use Rattle.sc_replicas.specs.Cores.{HasCore};
ghost use Rattle.sc_bucket.specs.Sound.{IsSound};

use crate::bucket::Bucket;
use sc_record::SliceId;

impl Bucket {
    /// The seat in which the slice's core of this number sits; 0 exactly where the slice is not there, or has no such core. A core of
    /// a sub that is not there yet is to sit in the seat of its number. It takes no memory.
    pub fn seat_of(&self, slice: SliceId, core: u8) -> u8
        requires { IsSound self.now }
        ensures none { (result ≡ 0) ↔ (¬ HasCore self.now.map slice core) }
        ensures within { 0 < result → HasCore self.now.map slice result }
        ensures seat { 0 < result → seats self.now.journal.entries slice result ≡ core }
    {
        if self.has_core(slice, core) {
            self.replicas.seat_of(slice, core).unwrap_or(core)
        } else {
            0
        }
    }

    // Whether the slice is there, and has a core of this number.
    fn has_core(&self, slice: SliceId, core: u8) -> bool
        ensures { IsTrue result ↔ HasCore self.now.map slice core }
    {
        match self.map.by_id(slice) {
            Some(one) => core > 0 && core <= one.replicas,
            None => false,
        }
    }
}
