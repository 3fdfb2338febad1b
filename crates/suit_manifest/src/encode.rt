//! Writing manifests.

ghost use Rattle.std.specs.Prelude.{◌≡◌, ◌++◌, IfOk, OnOk};
ghost use Rattle.det_cbor.specs.DataItem.{DataPairs, spell, spell_pairs, IsString};
ghost use Rattle.suit_commands.specs.SequenceWriting.{IsU64};
ghost use Rattle.suit_manifest.specs.ManifestMaking.{common_item, start_pairs, manifest_item};
ghost use Rattle.suit_manifest.specs.ManifestWriting.{CommonFits, ManifestFits, IsWrittenManifest};

use crate::Manifest;
use crate::encode_components::push_components;
use crate::pair_counts::{common_count, manifest_count};
use crate::pieces::{push_map, push_number_pair, push_string_pair};
use crate::rows::{push_held, push_reference, push_severed, push_text_member};
use det_cbor::{Bytes, push_number};
use std::alloc::{AllocError, Global};

/// Encodes a manifest's map in its one spelling (draft-ietf-suit-manifest-25, section 8.4). The
/// common part and each sequence are encoded on their own first, and put into byte strings.
///
/// Any manifest is written, even one that the grammar refuses. The places in its sequences are
/// ignored.
pub fn encode_manifest(alloc: Global, manifest: &Manifest) -> Result<Bytes, AllocError>
    ensures spelling { IfOk result (λ bytes. bytes ≡ spell (manifest_item manifest.now)) }
    ensures written { IfOk result (IsWrittenManifest manifest.now) }
    ensures fits { IfOk result (λ _. ManifestFits manifest.now) }
{
    let mut out = Bytes::new(alloc);
    push_map(&mut out, manifest_count(manifest))?;
    push_start(alloc, &mut out, manifest)?;
    push_reference(&mut out, 4, &manifest.reference)?;
    push_held(alloc, &mut out, 7, &manifest.validate)?;
    push_held(alloc, &mut out, 8, &manifest.load)?;
    push_held(alloc, &mut out, 9, &manifest.invoke)?;
    push_severed(alloc, &mut out, 16, &manifest.payload_fetch)?;
    push_severed(alloc, &mut out, 20, &manifest.install)?;
    push_text_member(&mut out, 23, &manifest.text)?;
    Ok(out)
}

// Appends the three pairs that every manifest has.
fn push_start(alloc: Global, out: &mut Bytes, manifest: &Manifest) -> Result<(), AllocError>
    ensures ok { (others : DataPairs)
        → OnOk result
        (out.new ++ spell_pairs others
        ≡ out.old ++ spell_pairs (start_pairs manifest.now others)) }
    ensures fits { OnOk result (CommonFits manifest.now) }
    ensures string { OnOk result (IsString (spell (common_item manifest.now))) }
    ensures sequence { OnOk result (IsU64 manifest.now.sequence) }
{
    let common = encode_common(alloc, manifest)?;
    push_number_pair(out, 1, 1)?;
    push_number_pair(out, 2, manifest.sequence)?;
    push_string_pair(out, 3, common.as_slice())?;
    Ok(())
}

fn encode_common(alloc: Global, manifest: &Manifest) -> Result<Bytes, AllocError>
    ensures spelling { IfOk result (λ bytes. bytes ≡ spell (common_item manifest.now)) }
    ensures fits { IfOk result (λ _. CommonFits manifest.now) }
{
    let mut out = Bytes::new(alloc);
    push_map(&mut out, common_count(manifest))?;
    push_number(&mut out, 2)?;
    push_components(&mut out, &manifest.components)?;
    push_held(alloc, &mut out, 4, &manifest.shared)?;
    Ok(out)
}
