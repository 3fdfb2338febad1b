//! The law of notations.

ghost use Rattle.cbor_diag.specs.Answers.{OneItem};

/// Does nothing. Its contract is the law of notations: two valid items with the same notation are
/// equal.
pub fn notation_laws()
    ensures { OneItem }
{}
