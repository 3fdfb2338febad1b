//! The law of shapes.

ghost use Rattle.conformance.specs.ShapeLaws.{ShapeLaws};

/// Does nothing. Its contract has the law: the value of each shape, with any sequence number, is a description of an
/// envelope. So `round` fails only if memory runs out.
pub fn shape_laws()
    ensures { ShapeLaws }
{}
