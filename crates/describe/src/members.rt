//! Members that may be severed from the manifest.

ghost use Rattle.std.specs.Prelude.{◌≡◌, IfOk, option_map};
ghost use Rattle.serde_json.specs.View.{view};
ghost use Rattle.suit_envelope.specs.Said.{said_by};
ghost use Rattle.describe.specs.CommandData.{sequence_if};
ghost use Rattle.describe.specs.MemberData.{digest_data, member_data, is_severed, member_kind, held_text, apart_text, text_data, text_kind};

use crate::commands::sequence;
use crate::values::{hex_value, one_member};
use author::is_one_item;
use serde_json::Value;
use std::alloc::{AllocError, Global};
use suit_commands::Sequence;
use suit_envelope::{Envelope, MemberBytes, MemberName, member};
use suit_manifest::{Member, TextMember};
use suit_params::{Digest, DigestKind};

/// Writes a sequence, if it is there.
pub(crate) fn sequence_if(
    alloc: Global,
    held: &Option<Sequence>,
) -> Result<Option<Value>, AllocError>
    ensures { IfOk result (λ v. option_map view v ≡ sequence_if held.now) }
{
    match held {
        Some(inner) => Ok(Some(sequence(alloc, inner)?)),
        None => Ok(None),
    }
}

// Writes `{"digest": HEX}`, for a member whose content is not known.
fn digest_value(alloc: Global, digest: &Digest) -> Result<Value, AllocError>
    ensures { IfOk result (λ v. view v ≡ digest_data digest.now) }
{
    one_member(alloc, "digest", hex_value(alloc, digest.bytes())?)
}

/// Writes a member with its content, or with its digest if it is severed and not there.
pub(crate) fn member_value(
    alloc: Global,
    member: &Member,
    apart: &Option<Sequence>,
) -> Result<Option<Value>, AllocError>
    ensures { IfOk result (λ v. option_map view v ≡ member_data member.now apart.now) }
{
    match member {
        Member::Empty => Ok(None),
        Member::Here(held) => Ok(Some(sequence(alloc, held)?)),
        Member::Apart(digest) => match apart {
            Some(there) => Ok(Some(sequence(alloc, there)?)),
            None => Ok(Some(digest_value(alloc, digest)?)),
        },
    }
}

/// Whether a member is severed, and there.
pub(crate) fn is_severed(member: &Member, apart: &Option<Sequence>) -> bool
    ensures { result ≡ is_severed member.now apart.now }
{
    match member {
        Member::Empty => false,
        Member::Here(_) => false,
        Member::Apart(_) => apart.is_some(),
    }
}

/// The hash function of a member that is severed and there. SHA-256 for any other.
pub(crate) fn member_kind(member: &Member, apart: &Option<Sequence>) -> DigestKind
    ensures { result ≡ member_kind member.now apart.now }
{
    match member {
        Member::Empty => DigestKind::Sha256,
        Member::Here(_) => DigestKind::Sha256,
        Member::Apart(digest) => match apart {
            Some(_) => digest.kind(),
            None => DigestKind::Sha256,
        },
    }
}

// The content of a text with this digest, if the envelope holds it and it is one item.
fn held_text<'a>(envelope: &Envelope<'a>, stated: &Digest) -> Option<&'a [u8]>
    ensures { option_map (λ t. t.now) result
        ≡ held_text stated.now (said_by envelope.now).text }
{
    match member(envelope, MemberName::Text, stated) {
        MemberBytes::Got(content) => {
            if is_one_item(content) {
                Some(content)
            } else {
                None
            }
        }
        MemberBytes::Severed => None,
        MemberBytes::Differs { .. } => None,
    }
}

/// The content of a severed text, if the envelope holds it with its digest and it is one item.
pub(crate) fn apart_text<'a>(envelope: &Envelope<'a>, text: &TextMember) -> Option<&'a [u8]>
    ensures { option_map (λ t. t.now) result ≡ apart_text text.now (said_by envelope.now).text }
{
    match text {
        TextMember::Empty => None,
        TextMember::Here(_) => None,
        TextMember::Apart(stated) => held_text(envelope, stated),
    }
}

/// The hash function of a severed text whose content is known. SHA-256 for any other.
pub(crate) fn text_kind(text: &TextMember, apart: Option<&[u8]>) -> DigestKind
    ensures { result ≡ text_kind text.now (option_map (λ t. t.now) apart.entry) }
{
    match text {
        TextMember::Empty => DigestKind::Sha256,
        TextMember::Here(_) => DigestKind::Sha256,
        TextMember::Apart(digest) => match apart {
            Some(_) => digest.kind(),
            None => DigestKind::Sha256,
        },
    }
}

/// Writes a text with its content, or with its digest if it is severed and its content is not known.
pub(crate) fn text_value(
    alloc: Global,
    text: &TextMember,
    apart: Option<&[u8]>,
) -> Result<Option<Value>, AllocError>
    ensures { IfOk result
        (λ v. option_map view v ≡ text_data text.now (option_map (λ t. t.now) apart.entry)) }
{
    match text {
        TextMember::Empty => Ok(None),
        TextMember::Here(content) => Ok(Some(hex_value(alloc, content.as_slice())?)),
        TextMember::Apart(digest) => match apart {
            Some(content) => Ok(Some(hex_value(alloc, content)?)),
            None => Ok(Some(digest_value(alloc, digest)?)),
        },
    }
}
