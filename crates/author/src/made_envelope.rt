//! The envelope that a description makes.

ghost use Rattle.std.specs.Prelude.{◌≡◌, ◌<◌, ℕ, List, None, IfOk, IfErr, IfSome, IsTrue};
ghost use Rattle.suit_manifest.specs.ManifestWriting.{IsWrittenManifest, ManifestFits};
ghost use Rattle.author.specs.FileNames.{file_names};
ghost use Rattle.author.specs.Files.{has_files};
ghost use Rattle.author.specs.GivenEnvelopes.{HoldsAsGiven};
ghost use Rattle.author.specs.Held.{value_of};
ghost use Rattle.author.specs.KeysOnce.{HasKeysOnce};
ghost use Rattle.author.specs.MadeMembers.{HoldsMembersOf};
ghost use Rattle.author.specs.MadePayloads.{HoldsPayloadsOf};
ghost use Rattle.author.specs.Outlines.{severed_in, severed_contents};
ghost use Rattle.author.specs.Overlong.{ContentsFit};
ghost use Rattle.author.specs.MadeEnvelopes.{made_parts, HasOneBlock, HasBlockBy, IsMadeOf, IsTooLong, IsMakeFaultOf, IsMadeAs, IsTooLongBy, IsAuthenticUnder, HoldsPartsOf, HoldsManifestOf};

use crate::made_wrapper::made_wrapper;
use crate::making::{Parted, part};
use crate::overlong::{Contents, judge_contents};
use crate::parts::{bare_parts_of, parts_of};
use crate::severing::Severed;
use crate::short_envelope::{MAX_TRIMMED, MAX_WHOLE, encode_short, trimmed};
use crate::{Description, FileList, MakeFault, description_laws};
use det_cbor::Bytes;
use std::alloc::{AllocError, Global};
use suit_envelope::{EnvelopeParts, string_digest};
use suit_manifest::encode_manifest;

// Makes the parts of the envelope.
fn made_parts<'a>(
    alloc: Global,
    parted: Parted<'a>,
    key: &[u8],
) -> Result<EnvelopeParts<'a>, AllocError>
    ensures is { IfOk result (λ parts. parts ≡ made_parts key.now parted.entry) }
    ensures one_block { IfOk result (λ parts. HasOneBlock key.now parts.wrapper parts.manifest) }
    ensures by_mac { IfOk result
        (λ parts. HasBlockBy parted.entry.mac parted.entry.algorithm parts.wrapper
        parts.manifest) }
    ensures written { IfOk result
        (λ parts. IsWrittenManifest parted.entry.manifest parts.manifest) }
    ensures fits { IfOk result (λ _. ManifestFits parted.entry.manifest) }
{
    let manifest = encode_manifest(alloc, &parted.manifest)?;
    let digest = string_digest(parted.algorithm, manifest.as_slice());
    let kid = match &parted.kid {
        Some(kid) => Some(kid.as_slice()),
        None => None,
    };
    let wrapper = made_wrapper(alloc, parted.mac, key, kid, &digest)?;
    Ok(EnvelopeParts {
        wrapper,
        manifest,
        payload_fetch: parted.payload_fetch,
        install: parted.install,
        text: parted.text,
        payloads: parted.payloads,
    })
}

// The limit that is exceeded if the severed members alone are too long: that of the trimmed envelope, if wrapper and
// manifest are too long as well. Does not read the contents of these members.
fn passed_limit(
    alloc: Global,
    description: &Description,
    files: &FileList,
    severed: Severed,
    key: &[u8],
) -> Result<u64, AllocError>
    requires files { IsTrue (has_files files.now (file_names (value_of description.now))) }
    requires severed { severed ≡ severed_in (value_of description.now) }
    requires long { 1048576 < severed_contents files.now (value_of description.now) }
    ensures { IfOk result (IsTooLong (value_of description.now) files.now key.now) }
{
    let bare = bare_parts_of(alloc, description, files, severed)?;
    let parted = part(alloc, bare)?;
    let parts = made_parts(alloc, parted, key)?;
    if trimmed(&parts) > MAX_TRIMMED {
        Ok(MAX_TRIMMED)
    } else {
        Ok(MAX_WHOLE)
    }
}

// The limit that is exceeded for certain, if the files that are contents are too long by themselves.
fn certain_limit(
    alloc: Global,
    description: &Description,
    files: &FileList,
    key: &[u8],
) -> Result<Option<u64>, AllocError>
    requires files { IsTrue (has_files files.now (file_names (value_of description.now))) }
    ensures told { IfOk result (λ limit. IfSome limit
        (IsTooLong (value_of description.now) files.now key.now)) }
    ensures within { IfOk result (λ limit. limit ≡ None
        → ContentsFit (value_of description.now) files.now) }
{
    match judge_contents(alloc, description, files)? {
        Contents::Short => Ok(None),
        Contents::LongManifest => Ok(Some(MAX_TRIMMED)),
        Contents::LongMembers(severed) => {
            let limit = passed_limit(alloc, description, files, severed, key)?;
            Ok(Some(limit))
        }
    }
}

/// Makes the tagged envelope of a description whose files have these bytes (draft-ietf-suit-manifest-25, section 8.2).
/// Severed members and payloads are in the envelope, outside its manifest. The envelope is authentic under the key: its
/// wrapper has exactly one block, which verifies.
///
/// If no object in the description has a key twice, its JSON alone tells what the envelope holds: a member that `sever`
/// names is in the envelope, with its digest in the manifest, and each payload is there under its key.
///
/// Returns `TooLong` if wrapper and manifest alone take more than 65,536 bytes, or else if the envelope takes more than
/// 1,048,576.
pub fn make(
    alloc: Global,
    description: &Description,
    files: &FileList,
    key: &[u8],
) -> Result<Bytes, MakeFault>
    requires files { IsTrue (has_files files.now (file_names (value_of description.now))) }
    ensures ok { IfOk result (IsMadeOf (value_of description.now) files.now key.now) }
    ensures refused { IfErr result (IsMakeFaultOf (value_of description.now) files.now key.now) }
    ensures every_envelope { (bytes : List ℕ)
        → IsMadeOf (value_of description.now) files.now key.now bytes
        → IsMadeAs bytes result }
    ensures every_limit { (limit : ℕ) → IsTooLong (value_of description.now) files.now key.now limit
        → IsTooLongBy limit result }
    ensures parts { IfOk result (HoldsPartsOf (value_of description.now) files.now key.now) }
    ensures authentic { IfOk result (IsAuthenticUnder key.now) }
    ensures manifest { IfOk result (HoldsManifestOf (value_of description.now) files.now) }
    ensures members { IfOk result (HoldsMembersOf (value_of description.now) files.now) }
    ensures payloads { IfOk result (HoldsPayloadsOf (value_of description.now) files.now) }
    ensures as_given { HasKeysOnce (value_of description.now)
        → IfOk result (HoldsAsGiven (value_of description.now) files.now) }
{
    description_laws();
    if let Some(limit) = certain_limit(alloc, description, files, key)? {
        return Err(MakeFault::TooLong(limit));
    }
    let said = parts_of(alloc, description, files)?;
    let parted = part(alloc, said)?;
    let parts = made_parts(alloc, parted, key)?;
    encode_short(alloc, &parts)
}
