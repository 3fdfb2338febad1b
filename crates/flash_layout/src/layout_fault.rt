//! Why a value does not describe a layout.

ghost use Rattle.std.specs.Prelude.{◌≡◌};
ghost use Rattle.flash_layout.specs.LayoutFaults.{fault_told};

use det_cbor::Text;
use json_fields::{FlawKind, JsonFault};

/// Why a value does not describe a layout of a flash. The texts are JSON Pointers (RFC 6901) to the
/// first wrong value. Components are given by their indices.
#[derive(Debug, Drop)]
pub enum LayoutFault {
    /// A value is malformed, or a field is unknown or missing.
    BadField(Text),
    /// A text is not hexadecimal with two digits for each byte.
    BadHex(Text),
    /// A text is not a UUID.
    BadUuid(Text),
    /// There are this many components: more than eight, or more than 32 with a base.
    TooMany(u64),
    /// Two components have the same identifier. This is the first such pair.
    TwoAlike { first: u32, second: u32 },
    /// The slots of two components share a byte, or the two slots of one component do. This is the
    /// first such pair.
    Overlap { first: u32, second: u32 },
    /// This is the first component with a slot that starts in the first 49,152 bytes or ends after
    /// the flash.
    Outside(u32),
    /// The base is in the first 49,152 bytes, or the head and the work area end after the flash.
    BaseOutside,
    /// This is the first component with a slot that shares a byte with the head or the work area at
    /// the base.
    BaseOverlap(u32),
    NoMemory,
}

impl From<JsonFault> for LayoutFault {
    ghost from_gives = { λ fault told. told ≡ fault_told fault };

    fn from(fault: JsonFault) -> LayoutFault {
        match fault {
            JsonFault::NoMemory => LayoutFault::NoMemory,
            JsonFault::Flawed(flaw) => match flaw.kind {
                FlawKind::Field => LayoutFault::BadField(flaw.pointer),
                FlawKind::Hex => LayoutFault::BadHex(flaw.pointer),
                FlawKind::Uuid => LayoutFault::BadUuid(flaw.pointer),
            },
        }
    }
}
