//! Why a value is not a description.

ghost use Rattle.std.specs.Prelude.{◌≡◌};
ghost use Rattle.author.specs.declared.fault.DescriptionFault.TheVariants.{NoMemory};
ghost use Rattle.author.specs.Faults.{fault_told};

use det_cbor::Text;
use json_fields::{FlawKind, JsonFault};
use std::alloc::AllocError;
use thiserror::Error;

/// Why a value is not a description. The texts are JSON Pointers (RFC 6901) to the first wrong value.
#[derive(Debug, Drop, Error)]
pub enum DescriptionFault {
    /// A malformed value, an unknown field, or a missing one.
    #[error("bad field")]
    BadField(Text),
    /// A text that is not pairs of hexadecimal digits, or a digest of the wrong length.
    #[error("bad hex")]
    BadHex(Text),
    /// A text that is not a UUID.
    #[error("bad uuid")]
    BadUuid(Text),
    /// The first two components with the same identifier, by their indices.
    #[error("components {first} and {second} are alike")]
    TwoAlike { first: u32, second: u32 },
    /// More than eight components. Holds their number.
    #[error("{0} components")]
    TooMany(u64),
    #[error("out of memory")]
    NoMemory,
}

impl From<JsonFault> for DescriptionFault {
    ghost from_gives = { λ fault told. told ≡ fault_told fault };

    fn from(fault: JsonFault) -> DescriptionFault {
        match fault {
            JsonFault::NoMemory => DescriptionFault::NoMemory,
            JsonFault::Flawed(flaw) => match flaw.kind {
                FlawKind::Field => DescriptionFault::BadField(flaw.pointer),
                FlawKind::Hex => DescriptionFault::BadHex(flaw.pointer),
                FlawKind::Uuid => DescriptionFault::BadUuid(flaw.pointer),
            },
        }
    }
}

impl From<AllocError> for DescriptionFault {
    ghost from_gives = { λ _ f. f ≡ NoMemory };

    fn from(_: AllocError) -> DescriptionFault {
        DescriptionFault::NoMemory
    }
}
