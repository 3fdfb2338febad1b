//! The components that a part of a sequence writes, whichever are selected before it.

ghost use Rattle.std.specs.Prelude.{◌≡◌, ◌<◌, ◌≤◌, ◌^◌};
ghost use Rattle.std.specs.List.{AllByRecursion};
ghost use Rattle.suit_commands.specs.Allowed.{IsSelectionOf};
ghost use Rattle.suit_commands.specs.Bits.{selection_bits, listed_bits};
ghost use Rattle.suit_commands.specs.Reaches.{no_reach, start_reach, reach_or, reach_through};

use crate::{IndexList, Selection};

/// A set of components: those in `fixed`, as bits, and with `start` also those selected before the
/// part.
#[derive(Clone, Copy)]
pub(crate) struct Reach {
    pub fixed: u32,
    pub start: bool,
}

impl Reach {
    /// No components.
    pub(crate) fn nothing() -> Reach
        ensures { result ≡ no_reach }
    {
        Reach {
            fixed: 0,
            start: false,
        }
    }

    /// The components selected before the part.
    pub(crate) fn at_start() -> Reach
        ensures { result ≡ start_reach }
    {
        Reach {
            fixed: 0,
            start: true,
        }
    }

    /// The union of both.
    pub(crate) fn or(self, other: Reach) -> Reach
        ensures { result ≡ reach_or self other }
    {
        Reach {
            fixed: self.fixed | other.fixed,
            start: self.start || other.start,
        }
    }

    /// This set, given that the components in `selected` are selected before the part.
    pub(crate) fn through(self, selected: Reach) -> Reach
        ensures { result ≡ reach_through self selected }
    {
        if self.start {
            return Reach {
                fixed: self.fixed | selected.fixed,
                start: selected.start,
            };
        }
        self
    }
}

/// The bit of a component.
pub(crate) fn bit(component: u32) -> u32
    requires { component < 8 }
    ensures { result ≡ 2 ^ component }
{
    1 << component
}

/// The components that a selection names, as bits.
pub(crate) fn selection_bits(selection: &Selection, count: u32) -> u32
    requires selected { IsSelectionOf count selection.now }
    requires few { count ≤ 8 }
    ensures { result ≡ selection_bits selection.now count }
{
    match selection {
        Selection::One(component) => bit(*component),
        Selection::All => (1 << count) - 1,
        Selection::Listed(indices) => listed_bits(indices),
    }
}

fn listed_bits(indices: &IndexList) -> u32
    requires { AllByRecursion (λ i. i < 8) indices.now }
    ensures { result ≡ listed_bits indices.now 0 }
{
    let mut bits = 0;
    for component in indices.as_slice() {
        bits |= bit(*component);
    }
    bits
}
