//! The flaws of a value, and where they are.

ghost use Rattle.std.specs.Prelude.{◌≡◌};
ghost use Rattle.json_fields.specs.declared.flaw.JsonFault.TheVariants as faults;

use det_cbor::Text;
use std::alloc::AllocError;

/// Why a value was not read.
#[derive(Debug, Drop)]
pub enum JsonFault {
    Flawed(Flaw),
    NoMemory,
}

/// What is wrong with a value.
#[derive(Clone, Copy, Debug, PartialEq, Eq)]
pub enum FlawKind {
    /// The value is of the wrong kind or breaks a rule of its kind, or a field is unknown or
    /// missing.
    Field,
    /// The text is not hexadecimal with two digits for each byte, or has another number of bytes.
    Hex,
    /// The text is not a UUID.
    Uuid,
}

/// The first flaw of a value.
#[derive(Debug, Drop)]
pub struct Flaw {
    pub kind: FlawKind,
    /// Where the flaw is, counted from the value that was read: a JSON Pointer (RFC 6901). A
    /// missing field is at the place that it would have.
    pub pointer: Text,
}

impl From<AllocError> for JsonFault {
    ghost from_gives = { λ _ f. f ≡ faults.NoMemory };

    fn from(_: AllocError) -> JsonFault {
        JsonFault::NoMemory
    }
}
