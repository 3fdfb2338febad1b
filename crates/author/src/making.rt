//! The manifest of a description, and what is outside it in the envelope.

ghost use Rattle.std.specs.Prelude.{◌≡◌, IfOk, IsTrue};
ghost use Rattle.author.specs.FileNames.{file_names};
ghost use Rattle.author.specs.Files.{has_files};
ghost use Rattle.author.specs.Held.{value_of};
ghost use Rattle.author.specs.MadeMembers.{AreWrittenApart, IsWrittenApart};
ghost use Rattle.author.specs.Making.{apart_member, apart_text, IsManifestOf};
ghost use Rattle.author.specs.Severances.{severed_content, severed_text, parted};

use crate::fields::Described;
use crate::parts::parts_of;
use crate::{Description, FileList};
use det_cbor::Bytes;
use hmac_mac0::MacKind;
use std::alloc::{AllocError, Global};
use suit_commands::encode_sequence;
use suit_envelope::{PayloadList, string_digest};
use suit_manifest::{Manifest, Member, TextMember};
use suit_params::DigestKind;

/// The parts of a description, with its severed members taken out of the manifest.
#[derive(Drop)]
pub(crate) struct Parted<'a> {
    /// The manifest, with digests in place of the severed members.
    pub(crate) manifest: Manifest,
    /// The contents of the severed members that are given.
    pub(crate) payload_fetch: Option<Bytes>,
    pub(crate) install: Option<Bytes>,
    pub(crate) text: Option<Bytes>,
    /// In the order of the envelope's map.
    pub(crate) payloads: PayloadList<'a>,
    /// The identifier of the key.
    pub(crate) kid: Option<Bytes>,
    /// The algorithm of the block.
    pub(crate) mac: MacKind,
    /// The hash function of the wrapper's digest.
    pub(crate) algorithm: DigestKind,
}

// A member as it is in the manifest, and its content if that is severed.
fn part_member(
    alloc: Global,
    severed: bool,
    kind: DigestKind,
    member: Member,
) -> Result<(Member, Option<Bytes>), AllocError>
    ensures member { IfOk result (λ m. m.0 ≡ apart_member severed kind member) }
    ensures content { IfOk result (λ m. m.1 ≡ severed_content severed member) }
    ensures written { IfOk result (λ _. IsWrittenApart severed member) }
{
    match member {
        Member::Here(sequence) if severed => {
            let content = encode_sequence(alloc, &sequence)?;
            let digest = string_digest(kind, content.as_slice());
            Ok((Member::Apart(digest), Some(content)))
        }
        _ => Ok((member, None)),
    }
}

fn part_text(severed: bool, kind: DigestKind, text: TextMember) -> (TextMember, Option<Bytes>)
    ensures member { result.0 ≡ apart_text severed kind text }
    ensures content { result.1 ≡ severed_text severed text }
{
    match text {
        TextMember::Here(content) if severed => {
            let digest = string_digest(kind, content.as_slice());
            (TextMember::Apart(digest), Some(content))
        }
        _ => (text, None),
    }
}

/// Takes the severed members of a description out of its manifest.
pub(crate) fn part<'a>(alloc: Global, parts: Described<'a>) -> Result<Parted<'a>, AllocError>
    ensures is { IfOk result (λ p. p ≡ parted parts.entry) }
    ensures written { IfOk result (λ _. AreWrittenApart parts.entry) }
{
    let severed = parts.severed;
    let mut manifest = parts.manifest;
    let (member, payload_fetch) = part_member(
        alloc,
        severed.payload_fetch,
        severed.kinds.payload_fetch,
        manifest.payload_fetch,
    )?;
    manifest.payload_fetch = member;
    let (member, install) = part_member(
        alloc,
        severed.install,
        severed.kinds.install,
        manifest.install,
    )?;
    manifest.install = member;
    let (member, text) = part_text(severed.text, severed.kinds.text, manifest.text);
    manifest.text = member;
    Ok(Parted {
        manifest,
        payload_fetch,
        install,
        text,
        payloads: parts.payloads,
        kid: parts.kid,
        mac: parts.mac,
        algorithm: parts.algorithm,
    })
}

/// The manifest of a description whose files have these bytes. In place of a severed member it has the digest of the
/// member's whole byte string, by the hash function that is named for it.
pub fn manifest_of(
    alloc: Global,
    description: &Description,
    files: &FileList,
) -> Result<Manifest, AllocError>
    requires files { IsTrue (has_files files.now (file_names (value_of description.now))) }
    ensures { IfOk result (IsManifestOf (value_of description.now) files.now) }
{
    let parts = parts_of(alloc, description, files)?;
    let parted = part(alloc, parts)?;
    Ok(parted.manifest)
}
