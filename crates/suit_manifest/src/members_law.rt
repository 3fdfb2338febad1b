//! Laws of severed members, whichever function takes them.

ghost use Rattle.suit_manifest.specs.MembersLaws.{MembersLaws};

use suit_envelope::envelope_laws;

/// Does nothing. Its contract is the law: for each manifest, an envelope gives exactly one pair of
/// members or has exactly one fault.
pub fn members_laws()
    ensures { MembersLaws }
{
    envelope_laws();
}
