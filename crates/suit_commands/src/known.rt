//! The numbers of known procedures, stated as laws.

ghost use Rattle.suit_commands.specs.KnownPlan.{KnownNumbers, KnownTargets, KnownTouched};

/// Does nothing. Its contract has the laws: the work, the spread and the width of one procedure of
/// six components that has each kind of command; its targets, with and without a swap; and what a
/// procedure touches.
pub fn known_laws()
    ensures numbers { KnownNumbers }
    ensures targets { KnownTargets }
    ensures touched { KnownTouched }
{}
