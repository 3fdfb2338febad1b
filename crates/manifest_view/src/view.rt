//! Borrowed manifests.

ghost use Rattle.std.specs.Prelude.{◌≡◌, ◌≤◌, ◌+◌, ◌<◌, ◌^◌, length, Result, Ok, Err, IfOk, IfErr, IsOkAnd};
ghost use Rattle.det_cbor.specs.HeadReading.{map_ok};
ghost use Rattle.suit_params.specs.declared.refusal.Refusal.{Refusal};
ghost use Rattle.suit_params.specs.Refusing.{RefusesWhole, SaysWhole};
ghost use Rattle.suit_manifest.specs.declared.manifest.Manifest.{Manifest};
ghost use Rattle.suit_manifest.specs.Manifests.{IsManifest, RefusesManifest};
ghost use Rattle.suit_manifest.specs.ManifestReading.{values_from, pairs_from, manifest_at, manifest_from};
ghost use Rattle.manifest_view.specs.Views.{manifest_of};

use crate::common::lend_common;
use crate::later::lend_later;
use crate::{LentIdentifiers, MemberView, TextView};
use det_cbor::Cursor;
use suit_cursor::LentSequence;
use suit_manifest::{ManifestValues, manifest_values, needed, read_number, read_version};
use suit_params::{Refusal, only_item, read_map};

/// A manifest (draft-ietf-suit-manifest-25, section 8.4), borrowed from its bytes. Its sequences
/// have been judged, and only their heads are read to enter them. Places are in bytes from the
/// start of the envelope.
#[derive(Drop)]
pub struct ManifestView<'a> {
    /// The sequence number, which grows with each manifest of a device.
    pub sequence: u64,
    pub components: LentIdentifiers<'a>,
    /// The commands that are run before each member.
    pub shared: Option<LentSequence<'a>>,
    pub reference: Option<&'a str>,
    pub validate: Option<LentSequence<'a>>,
    pub load: Option<LentSequence<'a>>,
    pub invoke: Option<LentSequence<'a>>,
    pub payload_fetch: MemberView<'a>,
    pub install: MemberView<'a>,
    pub text: TextView<'a>,
}

// Borrows a manifest from the values of its map.
fn lend_values<'a>(place: u64, values: ManifestValues<'a>) -> Result<ManifestView<'a>, Refusal>
    ensures { map_ok manifest_of result ≡ values_from place values.entry }
{
    let version = needed(place, 1, values.version)?;
    let sequence = needed(place, 2, values.sequence)?;
    let common = needed(place, 3, values.common)?;
    read_version(version)?;
    let sequence = read_number(sequence)?;
    let common = lend_common(common)?;
    let later = lend_later(values.later, common.components.len() as u32)?;
    Ok(ManifestView {
        sequence,
        components: common.components,
        shared: common.shared,
        reference: later.reference,
        validate: later.validate,
        load: later.load,
        invoke: later.invoke,
        payload_fetch: later.payload_fetch,
        install: later.install,
        text: later.text,
    })
}

// Borrows a manifest from a map of `pairs` pairs.
fn lend_pairs<'a>(map: Cursor<'a>, place: u64, pairs: u64) -> Result<ManifestView<'a>, Refusal>
    ensures { map_ok manifest_of result ≡ pairs_from place pairs map.entry }
{
    let values = manifest_values(map, pairs)?;
    lend_values(place, values)
}

// Borrows a manifest from a whole item.
fn lend_item<'a>(mut item: Cursor<'a>) -> Result<ManifestView<'a>, Refusal>
    ensures { map_ok manifest_of result ≡ manifest_at item.entry }
{
    let place = item.place();
    let pairs = read_map(&mut item)?;
    lend_pairs(item, place, pairs)
}

// Does the work of `ManifestView::read`.
fn lend_manifest<'a>(bytes: &'a [u8], place: u64) -> Result<ManifestView<'a>, Refusal>
    requires { place + length bytes.now < 2 ^ 64 }
    ensures { map_ok manifest_of result
        ≡ manifest_from (record { left = bytes.now; place = place }) }
{
    let item = only_item(Cursor::new(bytes, place))?;
    lend_item(item)
}

impl<'a> ManifestView<'a> {
    /// Reads the manifest that the bytes spell. `place` is where the bytes begin in the envelope;
    /// the places of commands and refusals are counted from the envelope's start. The bytes are
    /// judged once, here, as by `decode_manifest`. Allocates nothing.
    pub fn read(bytes: &'a [u8], place: u64) -> Result<ManifestView<'a>, Refusal>
        requires { place + length bytes.now < 2 ^ 64 }
        ensures ok { IfOk result (λ view. SaysWhole IsManifest place bytes.now (manifest_of view)) }
        ensures some { IfOk result (λ view. 1 ≤ length view.components) }
        ensures few { IfOk result (λ view. length view.components ≤ 8) }
        ensures refused { IfErr result (RefusesWhole RefusesManifest place bytes.now) }
        ensures every_manifest { (m : Manifest) → SaysWhole IsManifest place bytes.now m
            → map_ok manifest_of result ≡ Ok m }
        ensures every_refusal { (r : Refusal) → RefusesWhole RefusesManifest place bytes.now r
            → map_ok manifest_of result ≡ Err r }
    {
        lend_manifest(bytes, place)
    }
}
