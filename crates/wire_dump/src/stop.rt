//! Why a run over bytes ends before they do.
ghost use Rattle.std.specs.Prelude.{◌≡◌};
ghost use Rattle.wire_dump.specs.declared.stop.Stop.TheVariants as stops;

use std::alloc::AllocError;
use wire_read::Fault;

/// Why what is made of bytes ends before they do.
#[derive(Debug, Drop)]
pub(crate) enum Stop {
    /// No record goes on here.
    Fault(Fault),
    OutOfMemory,
}

impl From<AllocError> for Stop {
    ghost from_gives = { λ _ e. e ≡ stops.OutOfMemory };

    fn from(_error: AllocError) -> Stop {
        Stop::OutOfMemory
    }
}

impl From<Fault> for Stop {
    ghost from_gives = { λ fault e. e ≡ stops.Fault fault };

    fn from(fault: Fault) -> Stop {
        Stop::Fault(fault)
    }
}
