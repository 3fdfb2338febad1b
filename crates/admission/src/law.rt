//! Laws of admission, which hold whatever code judges the bytes.

ghost use Rattle.admission.specs.AdmissionLaws.{AdmissionLaws};

use path_model::safety_laws;
use suit_envelope::{authenticity_laws, envelope_laws};
use suit_manifest::{manifest_laws, members_laws};

/// Does nothing. Its contract has the laws: bytes that are admitted are not refused, and have one envelope, one
/// manifest and its members. Bytes that are refused have one refusal, except that several paths may show that a
/// procedure is unsafe.
pub fn admission_laws()
    ensures { AdmissionLaws }
{
    envelope_laws();
    authenticity_laws();
    manifest_laws();
    members_laws();
    safety_laws();
}
