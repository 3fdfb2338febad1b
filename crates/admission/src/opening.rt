//! Opening of envelopes whose trimmed length is within a limit, and of their manifests.

ghost use Rattle.std.specs.Prelude.{◌≡◌, ◌≢◌, ◌⊎◌, ◌+◌, ◌<◌, ◌≤◌, ◌^◌, IfErr, IfOk, IsErrAnd, length};
ghost use Rattle.suit_envelope.specs.Envelopes.{EnvelopeSays};
ghost use Rattle.suit_envelope.specs.Places.{MembersEndBelow, PartsEndBelow};
ghost use Rattle.suit_envelope.specs.Said.{said_by};
ghost use Rattle.suit_envelope.specs.WrapperParts.{HasWrapper};
ghost use Rattle.suit_manifest.specs.declared.manifest.Manifest.{Manifest};
ghost use Rattle.admission.specs.declared.refusal.NotOpened.{NotOpened};
ghost use Rattle.admission.specs.Opening.{HasManifest, IsManifestRefused, IsNotOpened, IsNotWithin, IsOpened, IsWithin};
ghost use Rattle.admission.specs.declared.refusal.NotOpened.TheVariants.{NoMemory};

use crate::{NotOpened, admission_laws};
use std::alloc::Global;
use suit_envelope::{Envelope, decode_envelope, trimmed_length};
use suit_manifest::{Manifest, decode_manifest};
use suit_params::Fault;

/// The length in bytes of the longest trimmed envelope that fits a flash of layout version 1. It is the size of a bank.
pub const LONGEST_TRIMMED: u32 = 16_384;

/// Decodes an envelope whose trimmed length is at most `limit` bytes.
pub(crate) fn envelope_within(bytes: &[u8], limit: u32) -> Result<Envelope<'_>, NotOpened>
    ensures within { IfOk result (λ e. IsWithin limit bytes.now (said_by e)) }
    ensures whole { IfOk result (λ e. e.whole.now ≡ bytes.now) }
    ensures wrapper { IfOk result (λ e. HasWrapper e.wrapper.now) }
    ensures places { IfOk result (λ e. PartsEndBelow (2 ^ 64) (said_by e)) }
    ensures refused { IfErr result (IsNotWithin limit bytes.now) }
{
    let envelope = match decode_envelope(bytes) {
        Ok(envelope) => envelope,
        Err(refusal) => return Err(NotOpened::NoEnvelope(refusal)),
    };
    let length = trimmed_length(&envelope);
    if length > u64::from(limit) {
        return Err(NotOpened::TooLong(length));
    }
    Ok(envelope)
}

/// Decodes the envelope's manifest.
pub(crate) fn manifest_in(alloc: Global, envelope: &Envelope<'_>) -> Result<Manifest, NotOpened>
    requires { envelope.now.manifest_place + length envelope.now.manifest.now < 2 ^ 64 }
    ensures says { IfOk result (HasManifest (said_by envelope.now)) }
    ensures few { IfOk result (λ m. length m.components ≤ 8) }
    ensures refused { IfErr result (IsManifestRefused (said_by envelope.now)) }
{
    match decode_manifest(alloc, envelope.manifest, envelope.manifest_place) {
        Ok(manifest) => Ok(manifest),
        Err(Fault::Refused(refusal)) => Err(NotOpened::NoManifest(refusal)),
        Err(Fault::NoMemory) => Err(NotOpened::NoMemory),
    }
}

/// An envelope and its manifest.
#[derive(Drop)]
pub struct Opened<'a> {
    pub envelope: Envelope<'a>,
    pub manifest: Manifest,
}

// Does the work of `open`.
fn open_bytes(alloc: Global, bytes: &[u8], limit: u32) -> Result<Opened<'_>, NotOpened>
    ensures opened { IfOk result
        (λ o. IsOpened limit bytes.now (said_by o.envelope) o.manifest) }
    ensures whole { IfOk result (λ o. o.envelope.whole.now ≡ bytes.now) }
    ensures wrapper { IfOk result (λ o. HasWrapper o.envelope.wrapper.now) }
    ensures places { IfOk result (λ o. MembersEndBelow (2 ^ 64) (said_by o.envelope)) }
    ensures few { IfOk result (λ o. length o.manifest.components ≤ 8) }
    ensures refused { IfErr result (λ e. e ≢ NoMemory → IsNotOpened limit bytes.now e) }
{
    let envelope = envelope_within(bytes, limit)?;
    let manifest = manifest_in(alloc, &envelope)?;
    Ok(Opened { envelope, manifest })
}

/// Opens a file: decodes its envelope, whose trimmed length is at most `limit` bytes, and then the manifest.
///
/// Does not judge whether the envelope is authentic. Allocates only for the manifest.
pub fn open(alloc: Global, bytes: &[u8], limit: u32) -> Result<Opened<'_>, NotOpened>
    ensures opened { IfOk result
        (λ o. IsOpened limit bytes.now (said_by o.envelope) o.manifest) }
    ensures whole { IfOk result (λ o. o.envelope.whole.now ≡ bytes.now) }
    ensures wrapper { IfOk result (λ o. HasWrapper o.envelope.wrapper.now) }
    ensures places { IfOk result (λ o. MembersEndBelow (2 ^ 64) (said_by o.envelope)) }
    ensures few { IfOk result (λ o. length o.manifest.components ≤ 8) }
    ensures refused { IfErr result (λ e. e ≢ NoMemory → IsNotOpened limit bytes.now e) }
    ensures every_opened { (said : EnvelopeSays) (manifest : Manifest)
        → IsOpened limit bytes.now said manifest → IfErr result (λ e. e ≡ NoMemory) }
    ensures every_refusal { (r : NotOpened) → IsNotOpened limit bytes.now r
        → IsErrAnd result (λ e. (e ≡ r) ⊎ (e ≡ NoMemory)) }
{
    admission_laws();
    open_bytes(alloc, bytes, limit)
}
