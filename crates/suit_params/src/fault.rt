//! How refusals and failed allocations become faults.

ghost use Rattle.std.specs.Prelude.{◌≡◌};
ghost use Rattle.suit_params.specs.declared.refusal.Fault.TheVariants as faults;

use crate::{Fault, Refusal};
use std::alloc::AllocError;

impl From<AllocError> for Fault {
    ghost from_gives = { λ _ f. f ≡ faults.NoMemory };

    fn from(_: AllocError) -> Fault {
        Fault::NoMemory
    }
}

impl From<Refusal> for Fault {
    ghost from_gives = { λ r f. f ≡ faults.Refused r };

    fn from(refusal: Refusal) -> Fault {
        Fault::Refused(refusal)
    }
}
