//! Why a reader that allocates has stopped.

ghost use Rattle.std.specs.Prelude.{◌≡◌};
ghost use Rattle.det_cbor.specs.declared.read_fault.ReadFault.TheVariants as faults;

use crate::reason::Stop;
use std::alloc::AllocError;

/// Why nothing was read.
#[derive(Clone, Copy, Debug, PartialEq, Eq)]
pub(crate) enum ReadFault {
    Stopped(Stop),
    NoMemory,
}

impl From<Stop> for ReadFault {
    ghost from_gives = { λ s e. e ≡ faults.Stopped s };

    fn from(stop: Stop) -> ReadFault {
        ReadFault::Stopped(stop)
    }
}

impl From<AllocError> for ReadFault {
    ghost from_gives = { λ _ e. e ≡ faults.NoMemory };

    fn from(_: AllocError) -> ReadFault {
        ReadFault::NoMemory
    }
}
