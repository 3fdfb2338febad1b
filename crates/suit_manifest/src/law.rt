//! Laws of all manifests, whichever function reads or writes them.

ghost use Rattle.suit_manifest.specs.ManifestLaws.{ManifestLaws};

use suit_commands::sequence_laws;

/// Does nothing. Its contract has the laws. A valid item says exactly one manifest or has exactly
/// one refusal, and never both; the same holds of any bytes. Each manifest that is said is allowed
/// by the grammar. The item that says a manifest is the one that it is written as, with its places;
/// so bytes that were decoded are encoded again as they were. Manifests that differ only in their
/// places are written alike. The numbers of a map's keys ascend, so values that are judged by
/// number are judged in the order of their bytes.
pub fn manifest_laws()
    ensures { ManifestLaws }
{
    sequence_laws();
}
