//! Whether an installed envelope may be started.

ghost use Rattle.std.specs.Prelude.{◌≤◌, ◌<◌, ◌^◌, ◌≡◌, IfErr, IfOk, IsErrAnd, IsOk, length};
ghost use Rattle.flash_layout.specs.Placement.{HaveOtherPlaces};
ghost use Rattle.flash_layout.specs.declared.place.Places.{Places};
ghost use Rattle.manifest_view.specs.Views.{manifest_of};
ghost use Rattle.suit_envelope.specs.Envelopes.{EnvelopeSays};
ghost use Rattle.suit_envelope.specs.Places.{PartsEndBelow};
ghost use Rattle.suit_envelope.specs.Said.{said_by};
ghost use Rattle.suit_envelope.specs.WrapperParts.{HasWrapper};
ghost use Rattle.admission.specs.AdmissionLaws.{StartAlike};
ghost use Rattle.admission.specs.Starting.{IsNotStartable, IsStartable};
ghost use Rattle.suit_manifest.specs.declared.manifest.Manifest.{Manifest};
ghost use Rattle.admission.specs.declared.refusal.NotStartable.{NotStartable};

use crate::admitting::authenticated;
use crate::lent_places::places_lent;
use crate::{NotStartable, admission_laws};
use flash_layout::{Layout, MOST_ENTRIES, Places};
use manifest_view::ManifestView;
use suit_envelope::{Envelope, decode_envelope};

/// An installed envelope that may be started, its manifest, lent by the envelope's bytes, and where the layout has the
/// manifest's components.
#[derive(Drop)]
pub struct Start<'a> {
    pub envelope: Envelope<'a>,
    pub manifest: ManifestView<'a>,
    pub places: Places,
}

// Does the work of `startable`.
fn start_bytes<'a>(
    layout: &Layout,
    key: &[u8],
    bytes: &'a [u8],
) -> Result<Start<'a>, NotStartable<'a>>
    requires { length layout.now ≤ MOST_ENTRIES }
    ensures startable { IfOk result
        (λ s. IsStartable layout.now key.now bytes.now (said_by s.envelope)
        (manifest_of s.manifest) s.places) }
    ensures whole { IfOk result (λ s. s.envelope.whole.now ≡ bytes.now) }
    ensures wrapper { IfOk result (λ s. HasWrapper s.envelope.wrapper.now) }
    ensures ends { IfOk result (λ s. PartsEndBelow (2 ^ 64) (said_by s.envelope)) }
    ensures other { IfOk result (λ s. HaveOtherPlaces s.manifest.components s.places) }
    ensures few { IfOk result (λ s. length s.manifest.components ≤ 8) }
    ensures refused { IfErr result (IsNotStartable layout.now key.now bytes.now) }
{
    let envelope = match decode_envelope(bytes) {
        Ok(envelope) => envelope,
        Err(refusal) => return Err(NotStartable::NoEnvelope(refusal)),
    };
    let mut manifest = match ManifestView::read(envelope.manifest, envelope.manifest_place) {
        Ok(manifest) => manifest,
        Err(refusal) => return Err(NotStartable::NoManifest(refusal)),
    };
    authenticated(&envelope, key)?;
    let places = places_lent(layout, manifest.components.copy())?;
    Ok(Start {
        envelope,
        manifest,
        places,
    })
}

/// Judges whether the envelope that the bytes spell may be started on a flash with this layout and key.
///
/// Judges, in this order: the grammar of the envelope, its manifest, its authenticity, and the places of the components
/// in the layout. The error tells the first of these that is not met. Does not allocate.
pub fn startable<'a>(
    layout: &Layout,
    key: &[u8],
    bytes: &'a [u8],
) -> Result<Start<'a>, NotStartable<'a>>
    requires { length layout.now ≤ MOST_ENTRIES }
    ensures startable { IfOk result
        (λ s. IsStartable layout.now key.now bytes.now (said_by s.envelope)
        (manifest_of s.manifest) s.places) }
    ensures whole { IfOk result (λ s. s.envelope.whole.now ≡ bytes.now) }
    ensures wrapper { IfOk result (λ s. HasWrapper s.envelope.wrapper.now) }
    ensures ends { IfOk result (λ s. PartsEndBelow (2 ^ 64) (said_by s.envelope)) }
    ensures other { IfOk result (λ s. HaveOtherPlaces s.manifest.components s.places) }
    ensures few { IfOk result (λ s. length s.manifest.components ≤ 8) }
    ensures refused { IfErr result (IsNotStartable layout.now key.now bytes.now) }
    ensures every_startable { (said : EnvelopeSays) (manifest : Manifest) (places : Places)
        → IsStartable layout.now key.now bytes.now said manifest places → IsOk result }
    ensures every_refusal { (r : NotStartable) → IsNotStartable layout.now key.now bytes.now r
        → IsErrAnd result (λ e. StartAlike e r) }
{
    admission_laws();
    start_bytes(layout, key, bytes)
}
