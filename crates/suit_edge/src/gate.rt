//! The state of a gate.

ghost use Rattle.suit_edge.specs.Gate.{IsGate};

use crate::OPEN;

/// The state of a page's gate.
#[derive(Clone, Copy, Debug, PartialEq, Eq)]
pub enum Gate {
    /// The page is whole.
    Open,
    /// The page does not count. The gate holds any byte but `OPEN`.
    Closed,
}

/// The state of a gate that holds this byte.
pub fn gate_of(byte: u8) -> Gate
    ensures { IsGate result byte }
{
    if byte == OPEN {
        Gate::Open
    } else {
        Gate::Closed
    }
}
