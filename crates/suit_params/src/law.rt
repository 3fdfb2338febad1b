//! Laws of the parameters in force.

ghost use Rattle.suit_params.specs.InForceLaws.{InForceLaws};

/// Does nothing. Its contract has the laws. Each key has a cell of its own. At first nothing is in
/// force. Overriding a parameter puts it in force under its key, and leaves the other keys. And it
/// is said which values a parameter has, and which digest and size a component.
pub fn in_force_laws()
    ensures { InForceLaws }
{}
