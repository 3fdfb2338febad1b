//! Whether an envelope may be installed.

ghost use Rattle.std.specs.Prelude.{◌≡◌, ◌≢◌, ◌⊎◌, ◌≤◌, IfErr, IfOk, IsErrAnd, IsOk, length};
ghost use Rattle.flash_layout.specs.Placement.{HaveOtherPlaces};
ghost use Rattle.suit_envelope.specs.Authentic.{IsAuthentic};
ghost use Rattle.suit_envelope.specs.Said.{said_by};
ghost use Rattle.suit_envelope.specs.WrapperParts.{HasWrapper};
ghost use Rattle.admission.specs.Admission.{Admission, IsAdmitted, IsNotAdmitted, IsUnauthentic, admission_of};
ghost use Rattle.admission.specs.AdmissionLaws.{RefuseAlike};
ghost use Rattle.admission.specs.declared.refusal.NotAdmitted.{NotAdmitted};
ghost use Rattle.admission.specs.declared.refusal.NotAdmitted.TheVariants.{NoMemory};

use crate::judging::judge_both;
use crate::opening::{envelope_within, manifest_in};
use crate::{NotAdmitted, admission_laws};
use flash_layout::{Layout, MOST_ENTRIES, Places, places};
use std::alloc::Global;
use suit_envelope::{Authenticity, Envelope, authentic};
use suit_manifest::{Manifest, Members, members_of, procedure_laws};

// Returns an error unless the envelope is authentic under the key.
pub(crate) fn authenticated<'a>(envelope: &Envelope<'a>, key: &[u8]) -> Result<(), Authenticity<'a>>
    requires { HasWrapper envelope.now.wrapper.now }
    ensures authentic { IsOk result
        → IsAuthentic envelope.now.wrapper.now envelope.now.manifest.now key.now }
    ensures refused { IfErr result (IsUnauthentic (said_by envelope.now) key.now) }
{
    match authentic(envelope, key) {
        Authenticity::Yes => Ok(()),
        lacking => Err(lacking),
    }
}

/// An update that may be installed: its envelope, the manifest, where the layout has the manifest's components, and the
/// severed members.
#[derive(Drop)]
pub struct Admitted<'a> {
    pub envelope: Envelope<'a>,
    pub manifest: Manifest,
    pub places: Places,
    pub members: Members,
}

// Does the work of `admit`.
fn admit_bytes<'a>(
    alloc: Global,
    layout: &Layout,
    key: &[u8],
    bytes: &'a [u8],
    limit: u32,
) -> Result<Admitted<'a>, NotAdmitted<'a>>
    requires { length layout.now ≤ MOST_ENTRIES }
    ensures admitted { IfOk result
        (λ a. IsAdmitted limit layout.now key.now bytes.now (admission_of a)) }
    ensures whole { IfOk result (λ a. a.envelope.whole.now ≡ bytes.now) }
    ensures wrapper { IfOk result (λ a. HasWrapper a.envelope.wrapper.now) }
    ensures other { IfOk result (λ a. HaveOtherPlaces a.manifest.components a.places) }
    ensures few { IfOk result (λ a. length a.manifest.components ≤ 8) }
    ensures refused { IfErr result
        (λ e. e ≢ NoMemory → IsNotAdmitted limit layout.now key.now bytes.now e) }
{
    procedure_laws();
    let envelope = envelope_within(bytes, limit)?;
    authenticated(&envelope, key)?;
    let manifest = manifest_in(alloc, &envelope)?;
    let places = places(layout, &manifest.components)?;
    let members = members_of(alloc, &envelope, &manifest)?;
    judge_both(alloc, &manifest, &members)?;
    Ok(Admitted {
        envelope,
        manifest,
        places,
        members,
    })
}

/// Judges whether the envelope that the bytes spell may be installed on a flash with this layout and key.
///
/// Judges, in this order: the grammar of the envelope, the length of the trimmed envelope in bytes, which is at most
/// `limit`, its authenticity, its manifest, the places of the components in the layout, the severed members, and both
/// procedures. The error tells the first of these that is not met, or that memory ran out.
pub fn admit<'a>(
    alloc: Global,
    layout: &Layout,
    key: &[u8],
    bytes: &'a [u8],
    limit: u32,
) -> Result<Admitted<'a>, NotAdmitted<'a>>
    requires { length layout.now ≤ MOST_ENTRIES }
    ensures admitted { IfOk result
        (λ a. IsAdmitted limit layout.now key.now bytes.now (admission_of a)) }
    ensures whole { IfOk result (λ a. a.envelope.whole.now ≡ bytes.now) }
    ensures wrapper { IfOk result (λ a. HasWrapper a.envelope.wrapper.now) }
    ensures other { IfOk result (λ a. HaveOtherPlaces a.manifest.components a.places) }
    ensures few { IfOk result (λ a. length a.manifest.components ≤ 8) }
    ensures refused { IfErr result
        (λ e. e ≢ NoMemory → IsNotAdmitted limit layout.now key.now bytes.now e) }
    ensures every_admission { (a : Admission) → IsAdmitted limit layout.now key.now bytes.now a
        → IfErr result (λ e. e ≡ NoMemory) }
    ensures every_refusal { (r : NotAdmitted) → IsNotAdmitted limit layout.now key.now bytes.now r
        → IsErrAnd result (λ e. RefuseAlike e r ⊎ (e ≡ NoMemory)) }
{
    admission_laws();
    admit_bytes(alloc, layout, key, bytes, limit)
}
