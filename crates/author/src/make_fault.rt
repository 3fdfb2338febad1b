//! Why no envelope is made.

ghost use Rattle.std.specs.Prelude.{◌≡◌};
ghost use Rattle.author.specs.declared.make_fault.MakeFault.TheVariants.{NoMemory};

use std::alloc::AllocError;
use thiserror::Error;

/// Why no envelope is made.
#[derive(Clone, Copy, Debug, Error)]
pub enum MakeFault {
    #[error("out of memory")]
    NoMemory,
    /// The envelope is longer than a limit, trimmed or whole. Holds the limit in bytes.
    #[error("longer than {0} bytes")]
    TooLong(u64),
}

impl From<AllocError> for MakeFault {
    ghost from_gives = { λ _ f. f ≡ NoMemory };

    fn from(_: AllocError) -> MakeFault {
        MakeFault::NoMemory
    }
}
