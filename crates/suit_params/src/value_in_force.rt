//! The values of parameters in force.

ghost use Rattle.std.specs.Option.{option_copied};
ghost use Rattle.std.specs.Prelude.{◌≡◌};
ghost use Rattle.suit_params.specs.InForce.{identifier_of, number_of};

use crate::Param;

/// The identifier that a parameter in force holds, if it holds one.
pub fn identifier_of(param: Option<&Param>) -> Option<[u8; 16]>
    ensures { result ≡ identifier_of (option_copied param.entry) }
{
    match param {
        Some(Param::Vendor(id)) => Some(*id),
        Some(Param::Class(id)) => Some(*id),
        Some(Param::Device(id)) => Some(*id),
        _ => None,
    }
}

/// The number that a parameter in force holds, if it holds one.
pub fn number_of(param: Option<&Param>) -> Option<u64>
    ensures { result ≡ number_of (option_copied param.entry) }
{
    match param {
        Some(Param::Slot(number)) => Some(*number),
        Some(Param::Size(size)) => Some(*size),
        Some(Param::Source(component)) => Some(*component as u64),
        _ => None,
    }
}
