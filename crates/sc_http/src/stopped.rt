ghost use Rattle.std.specs.Prelude.{◌≡◌};

use crate::end::MessageEnd;
use std::alloc::AllocError;

/// Why no more bytes came.
#[derive(Clone, Copy)]
pub(crate) enum Stopped {
    /// The input ended.
    Ended,
    /// The source failed.
    Failed,
    Memory,
}

impl From<AllocError> for Stopped {
    ghost from_gives = { λ e stopped. stopped ≡ Memory };

    ghost use Rattle.std.specs.Prelude.{◌≡◌};
    ghost use Rattle.sc_http.specs.declared.stopped.Stopped.TheVariants.{Memory};

    fn from(_error: AllocError) -> Stopped {
        Stopped::Memory
    }
}

impl Stopped {
    ghost use Rattle.sc_http.specs.Ends.{end_in_body};

    /// What this is inside a body.
    pub(crate) fn in_body(self) -> MessageEnd
        ensures { result ≡ end_in_body self }
    {
        match self {
            Stopped::Ended => MessageEnd::Cut,
            Stopped::Failed => MessageEnd::ReadFault,
            Stopped::Memory => MessageEnd::Memory,
        }
    }
}
