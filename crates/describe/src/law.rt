//! Laws of all descriptions that are written.

ghost use Rattle.describe.specs.Again.{DescribeLaws};

use det_cbor::splitting_laws;
use suit_commands::sequence_laws;
use suit_envelope::envelope_laws;
use suit_manifest::manifest_laws;

/// Does nothing. Its contract has the laws. From an envelope, its manifest and those of its members that are there,
/// `describe` writes a description. With any files, it stands for that manifest, but for places, and for no other, and
/// the bytes that the envelope holds spell that one. It names no file, and none of its numbers has a fraction.
pub fn describe_laws()
    ensures { DescribeLaws }
{
    splitting_laws();
    envelope_laws();
    sequence_laws();
    manifest_laws();
}
