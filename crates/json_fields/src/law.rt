//! Laws of the places of flaws. The call here does nothing: its contract is the law.

ghost use Rattle.json_fields.specs.PointerLaws.{Escapes, MissingPlaces, PointerLaws};

/// A flaw is reported at the part of the value that is flawed, and a missing field where it would
/// be (RFC 6901).
pub fn pointer_laws()
    ensures escapes { Escapes }
    ensures missing { MissingPlaces }
    ensures places { PointerLaws }
{}
