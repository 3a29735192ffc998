ghost use Rattle.std.specs.Prelude.{◌≡◌, ◌<◌, ◌^◌};
ghost use Rattle.sc_collection.specs.Packed.{unpacked};

use sc_seen::Stop;

/// A stop as a trail keeps it, in eight bytes.
#[derive(Clone, Copy, Debug)]
pub(crate) struct PackedStop {
    lock: u32,
    // twice the place, and 1 more where the hold added an entry
    place_and_made: u32,
}

impl PackedStop {
    /// The stop, packed.
    pub(crate) fn pack(stop: Stop) -> PackedStop
        requires { stop.place < 2 ^ 31 }
        ensures { unpacked result ≡ stop }
    {
        PackedStop {
            lock: stop.lock,
            place_and_made: 2 * stop.place as u32 + u32::from(stop.made),
        }
    }

    /// The stop that was packed.
    pub(crate) fn unpack(self) -> Stop
        ensures { result ≡ unpacked self }
    {
        Stop {
            lock: self.lock,
            place: u64::from(self.place_and_made / 2),
            made: self.place_and_made % 2 == 1,
        }
    }
}
