//! Why a manifest or an envelope was refused.

ghost use Rattle.std.specs.Prelude.{◌≡◌, Err};

use det_cbor::{CborRefusal, Reason};

/// Why an item is refused. The items are those of draft-ietf-suit-manifest-25, section 8.
#[derive(Clone, Copy, Debug, PartialEq, Eq)]
pub enum Why {
    /// The bytes do not begin with an item of deterministic CBOR.
    Cbor(Reason),
    /// Bytes follow the one item of a file or of a byte string.
    Trailing,
    /// An item is of another kind, or has a count that is not allowed.
    Shape,
    /// A map has an unknown key.
    UnknownKey,
    /// A map lacks this key.
    Missing(u64),
    /// A digest is not by SHA-256, SHA-384 or SHA-512, or does not have the length of its hash
    /// function.
    Algorithm,
    /// The manifest has this version, and not 1.
    Version(u64),
    /// There are this many components, and more than eight.
    TooMany(u64),
    /// A component identifier is spelled in more than 64 bytes.
    LongIdentifier,
    /// The components with these two indices have the same identifier.
    TwoAlike(u64, u64),
    /// A parameter has an unknown key.
    UnknownParam,
    /// The value of a parameter is of another kind.
    BadParam,
    /// A command's code is unknown, or not allowed in this place.
    Unsupported,
    /// The argument of a command is of another kind.
    BadArgument,
    /// A component index is not below the number of components: the index, and the number.
    BadIndex(u64, u64),
    /// A sequence would be at the ninth level.
    Nested,
}

/// The first fault of an envelope or a manifest, and its place in bytes from the start of the
/// envelope.
#[derive(Clone, Copy, Debug, PartialEq, Eq)]
pub struct Refusal {
    pub place: u64,
    pub why: Why,
}

/// Why there is no answer: the input is refused, or memory ran out.
#[derive(Clone, Copy, Debug, PartialEq, Eq)]
pub enum Fault {
    Refused(Refusal),
    NoMemory,
}

impl From<CborRefusal> for Refusal {
    ghost use Rattle.std.specs.Prelude.{◌≡◌};
    ghost use Rattle.suit_params.specs.Reading.{of_cbor};

    ghost from_gives = { λ e r. r ≡ of_cbor e };

    fn from(refusal: CborRefusal) -> Refusal {
        Refusal {
            place: refusal.place,
            why: Why::Cbor(refusal.reason),
        }
    }
}

/// The result of a decoder that refuses its input.
pub fn refused<T: Drop>(place: u64, why: Why) -> Result<T, Refusal>
    ensures { result ≡ Err (record { place = place; why = why }) }
{
    Err(Refusal { place, why })
}
