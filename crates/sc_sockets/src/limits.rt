ghost use Rattle.std.specs.Prelude.{◌≡◌};
ghost use Rattle.sc_sockets.specs.Patience.{patience_of};

/// How long a client may keep its worker waiting in any case, in milliseconds.
pub const PATIENCE: u64 = 60_000;

/// How much longer for each KiB that has passed, in milliseconds.
pub const PATIENCE_OF_KIBIBYTE: u64 = 1_000;

/// How long a client may take for so many bytes, in milliseconds. One by which at least a KiB a second passes is never too slow.
pub fn patience(bytes: u64) -> u64
    ensures { result ≡ patience_of bytes }
{
    PATIENCE.saturating_add(bytes / 1_024 * PATIENCE_OF_KIBIBYTE)
}
