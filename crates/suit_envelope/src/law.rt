//! Laws of all envelopes, whichever function reads them.

ghost use Rattle.suit_envelope.specs.EnvelopeLaws.{EnvelopeLaws, AuthenticityLaw, PayloadOrderLaw};

/// Does nothing. Its contract has the laws. Any bytes are exactly one envelope or have exactly one
/// refusal, and never both. An envelope says what is under the numbers of its map: a wrapper and a
/// manifest, and each member if and only if its number is there. Its parts end within its bytes,
/// and are byte strings. The trimmed envelope says its two parts, each at its place, and no
/// members.
pub fn envelope_laws()
    ensures { EnvelopeLaws }
{}

/// Does nothing. Its contract is the law: for a wrapper, a manifest and a key there is one answer.
pub fn authenticity_laws()
    ensures { AuthenticityLaw }
{}

/// Does nothing. Its contract is the law: payloads whose keys ascend still do once another payload
/// is put among them.
pub fn payload_order_laws()
    ensures { PayloadOrderLaw }
{}
