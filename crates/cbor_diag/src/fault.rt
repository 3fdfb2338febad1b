//! Why a text was not read.

ghost use Rattle.std.specs.Prelude.{◌≡◌};
ghost use Rattle.cbor_diag.specs.declared.fault.NotationFault.TheVariants as faults;

use std::alloc::AllocError;

/// Why a text was not read.
#[derive(Clone, Copy, Debug, PartialEq, Eq)]
pub enum NotationFault {
    /// The text is not the notation of any valid item.
    NoNotation,
    NoMemory,
}

impl From<AllocError> for NotationFault {
    ghost from_gives = { λ _ e. e ≡ faults.NoMemory };

    fn from(_: AllocError) -> NotationFault {
        NotationFault::NoMemory
    }
}
