//! Decoding a manifest.

ghost use Rattle.std.specs.Prelude.{◌≡◌, ◌≤◌, ◌+◌, ◌<◌, ◌^◌, length, Result, Ok, Err, IfOk, IfErr};
ghost use Rattle.suit_params.specs.declared.refusal.Refusal.{Refusal};
ghost use Rattle.suit_params.specs.Refusing.{RefusesWhole, SaysWhole};
ghost use Rattle.suit_params.specs.Answering.{Gives, IsFaultBy, IsReadAs, IsRefusedAs};
ghost use Rattle.suit_manifest.specs.declared.manifest.Manifest.{Manifest};
ghost use Rattle.suit_manifest.specs.Elements.{held_at, only_at};
ghost use Rattle.suit_manifest.specs.CommonReading.{common_at};
ghost use Rattle.suit_manifest.specs.Manifests.{IsManifest, RefusesManifest};
ghost use Rattle.suit_manifest.specs.ManifestJudging.{manifest_of};
ghost use Rattle.suit_manifest.specs.ManifestReading.{values_from, pairs_from, manifest_at, manifest_from};

use crate::Manifest;
use crate::common::{Common, read_common};
use crate::later::{Later, read_later};
use crate::manifest_map::{ManifestValues, manifest_values};
use crate::pairs::needed;
use crate::values::{read_number, read_version};
use det_cbor::Cursor;
use std::alloc::Global;
use suit_params::{Fault, only_item, read_content, read_map};

// Reads the common part that a byte string holds.
fn held_common(alloc: Global, mut item: Cursor<'_>) -> Result<Common, Fault>
    ensures says { Gives (λ c. record { components = c.components; shared = c.shared }) result
        (held_at (only_at common_at) item.entry) }
    ensures few { IfOk result (λ c. length c.components ≤ 8) }
{
    let content = read_content(&mut item)?;
    let item = only_item(content)?;
    read_common(alloc, item)
}

// Makes a manifest from its parts.
fn manifest_of(sequence: u64, common: Common, later: Later) -> Manifest
    ensures { result
        ≡ manifest_of sequence (record { components = common.components; shared = common.shared })
        later }
{
    Manifest {
        sequence,
        components: common.components,
        shared: common.shared,
        reference: later.reference,
        validate: later.validate,
        load: later.load,
        invoke: later.invoke,
        payload_fetch: later.payload_fetch,
        install: later.install,
        text: later.text,
    }
}

// Reads a manifest from the values of its map.
fn read_values(alloc: Global, place: u64, values: ManifestValues<'_>) -> Result<Manifest, Fault>
    ensures { Gives (λ m. m) result (values_from place values.entry) }
{
    let version = needed(place, 1, values.version)?;
    let sequence = needed(place, 2, values.sequence)?;
    let common = needed(place, 3, values.common)?;
    read_version(version)?;
    let sequence = read_number(sequence)?;
    let common = held_common(alloc, common)?;
    let later = read_later(alloc, values.later, common.components.len() as u32)?;
    Ok(manifest_of(sequence, common, later))
}

// Reads a manifest from a map of `pairs` pairs.
fn read_pairs(alloc: Global, map: Cursor<'_>, place: u64, pairs: u64) -> Result<Manifest, Fault>
    ensures { Gives (λ m. m) result (pairs_from place pairs map.entry) }
{
    let values = manifest_values(map, pairs)?;
    read_values(alloc, place, values)
}

// Reads a whole item as a manifest.
fn read_manifest(alloc: Global, mut item: Cursor<'_>) -> Result<Manifest, Fault>
    ensures { Gives (λ m. m) result (manifest_at item.entry) }
{
    let place = item.place();
    let pairs = read_map(&mut item)?;
    read_pairs(alloc, item, place, pairs)
}

// Does the work of `decode_manifest`.
fn whole_manifest(alloc: Global, bytes: &[u8], place: u64) -> Result<Manifest, Fault>
    requires { place + length bytes.now < 2 ^ 64 }
    ensures { Gives (λ m. m) result (manifest_from (record { left = bytes.now; place = place })) }
{
    let item = only_item(Cursor::new(bytes, place))?;
    read_manifest(alloc, item)
}

/// Decodes a manifest (draft-ietf-suit-manifest-25, section 8.4). `place` is where the bytes begin
/// in the envelope; the places of commands and refusals are counted from the envelope's start.
///
/// The bytes are judged as one CBOR item first, and then the map: unknown keys, missing keys, and
/// the values in their order. Allocates only for the manifest, and frees all of it after a fault.
pub fn decode_manifest(alloc: Global, bytes: &[u8], place: u64) -> Result<Manifest, Fault>
    requires { place + length bytes.now < 2 ^ 64 }
    ensures ok { IfOk result (λ m. SaysWhole IsManifest place bytes.now m) }
    ensures some { IfOk result (λ m. 1 ≤ length m.components) }
    ensures few { IfOk result (λ m. length m.components ≤ 8) }
    ensures refused { IfErr result (IsFaultBy (RefusesWhole RefusesManifest place bytes.now)) }
    ensures every_manifest { (m : Manifest) → SaysWhole IsManifest place bytes.now m
        → IsReadAs m result }
    ensures every_refusal { (r : Refusal) → RefusesWhole RefusesManifest place bytes.now r
        → IsRefusedAs r result }
{
    whole_manifest(alloc, bytes, place)
}
