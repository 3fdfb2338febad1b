//! Writing the optional pairs of a manifest's maps.

ghost use Rattle.std.specs.Prelude.{◌≡◌, ◌++◌, IfSome, OnOk};
ghost use Rattle.det_cbor.specs.DataItem.{DataPairs, UnsignedInteger, spell, spell_pairs, IsString};
ghost use Rattle.suit_params.specs.DigestBytes.{IsDigestBytes};
ghost use Rattle.suit_params.specs.Digests.{digest_item};
ghost use Rattle.suit_commands.specs.SequenceMaking.{inner_item};
ghost use Rattle.suit_manifest.specs.ManifestMaking.{pair_then, text_item, held_item, severed_item, text_member_item};
ghost use Rattle.suit_manifest.specs.ManifestWriting.{IsUtf8String, HeldFits, SeveredFits, TextFits};

use crate::{Member, TextMember};
use det_cbor::{Bytes, Text, push_number, push_string, push_text};
use std::alloc::{AllocError, Global};
use suit_commands::{Sequence, encode_sequence};
use suit_params::{Digest, push_digest};

// Appends a number, and a byte string that holds a sequence.
fn push_here(
    alloc: Global,
    out: &mut Bytes,
    key: u64,
    sequence: &Sequence,
) -> Result<(), AllocError>
    ensures ok { OnOk result
        (out.new ≡ out.old ++ (spell (UnsignedInteger key) ++ spell (inner_item sequence.now))) }
    ensures fits { OnOk result (HeldFits sequence.now) }
{
    let content = encode_sequence(alloc, sequence)?;
    push_number(out, key)?;
    push_string(out, content.as_slice())?;
    Ok(())
}

// Appends a number, and the array of a digest.
fn push_apart(out: &mut Bytes, key: u64, digest: &Digest) -> Result<(), AllocError>
    ensures ok { OnOk result
        (out.new
        ≡ out.old ++ (spell (UnsignedInteger key) ++ spell (digest_item digest.now))) }
    ensures fits { OnOk result (IsDigestBytes digest.now) }
{
    push_number(out, key)?;
    push_digest(out, digest)?;
    Ok(())
}

/// Appends the pair of a reference text, if there is one. Other pairs may follow.
pub(crate) fn push_reference(
    out: &mut Bytes,
    key: u64,
    reference: &Option<Text>,
) -> Result<(), AllocError>
    ensures ok { (others : DataPairs)
        → OnOk result
        (out.new ++ spell_pairs others
        ≡ out.old ++ spell_pairs (pair_then key (text_item reference.now) others)) }
    ensures fits { OnOk result (IfSome reference.now IsUtf8String) }
{
    match reference {
        Some(text) => {
            push_number(out, key)?;
            push_text(out, text.as_str())?;
            Ok(())
        }
        None => Ok(()),
    }
}

/// Appends the pair of a sequence, if there is one. Other pairs may follow.
pub(crate) fn push_held(
    alloc: Global,
    out: &mut Bytes,
    key: u64,
    sequence: &Option<Sequence>,
) -> Result<(), AllocError>
    ensures ok { (others : DataPairs)
        → OnOk result
        (out.new ++ spell_pairs others
        ≡ out.old ++ spell_pairs (pair_then key (held_item sequence.now) others)) }
    ensures fits { OnOk result (IfSome sequence.now HeldFits) }
{
    match sequence {
        Some(sequence) => {
            push_here(alloc, out, key, sequence)?;
            Ok(())
        }
        None => Ok(()),
    }
}

/// Appends the pair of a severable member, if there is one. Other pairs may follow.
pub(crate) fn push_severed(
    alloc: Global,
    out: &mut Bytes,
    key: u64,
    member: &Member,
) -> Result<(), AllocError>
    ensures ok { (others : DataPairs)
        → OnOk result
        (out.new ++ spell_pairs others
        ≡ out.old ++ spell_pairs (pair_then key (severed_item member.now) others)) }
    ensures fits { OnOk result (SeveredFits member.now) }
{
    match member {
        Member::Here(sequence) => {
            push_here(alloc, out, key, sequence)?;
            Ok(())
        }
        Member::Apart(digest) => {
            push_apart(out, key, digest)?;
            Ok(())
        }
        Member::Empty => Ok(()),
    }
}

/// Appends the pair of the text, if there is one. Other pairs may follow.
pub(crate) fn push_text_member(
    out: &mut Bytes,
    key: u64,
    text: &TextMember,
) -> Result<(), AllocError>
    ensures ok { (others : DataPairs)
        → OnOk result
        (out.new ++ spell_pairs others
        ≡ out.old ++ spell_pairs (pair_then key (text_member_item text.now) others)) }
    ensures fits { OnOk result (TextFits text.now) }
{
    match text {
        TextMember::Here(content) => {
            push_number(out, key)?;
            push_string(out, content.as_slice())?;
            Ok(())
        }
        TextMember::Apart(digest) => {
            push_apart(out, key, digest)?;
            Ok(())
        }
        TextMember::Empty => Ok(()),
    }
}
