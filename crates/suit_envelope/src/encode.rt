//! Encoding an envelope.

ghost use Rattle.std.specs.Prelude.{◌≡◌, ◌+◌, ◌≤◌, ◌++◌, ℕ, None, IfOk, IfSome, OnOk};
ghost use Rattle.std.specs.List.{AllByRecursion};
ghost use Rattle.det_cbor.specs.DataItem.{DataPairs, TextString, ByteString, spell, spell_pairs, pair_count, IsString};
ghost use Rattle.suit_envelope.specs.Payloads.{HasPayloads};
ghost use Rattle.suit_envelope.specs.PayloadOrder.{AreAscending};
ghost use Rattle.suit_envelope.specs.WrapperParts.{HasWrapper};
ghost use Rattle.suit_envelope.specs.Making.{member_then, payload_pairs, pairs_made, envelope_made, IsPayload, SpellsParts};

use crate::writing::{push_pair, push_start};
use crate::{EnvelopeParts, PayloadList};
use det_cbor::{Bytes, push_string, push_text};
use std::alloc::{AllocError, Global};

// The number of pairs that a member takes: one or none.
fn count(member: &Option<Bytes>) -> u64
    ensures is { (key : ℕ) (others : DataPairs)
        → pair_count (member_then key member.now others) ≡ pair_count others + result }
    ensures small { result ≤ 1 }
{
    match member {
        Some(_) => 1,
        None => 0,
    }
}

fn pairs(parts: &EnvelopeParts<'_>) -> u64
    ensures { result ≡ pair_count (pairs_made parts.now) }
{
    let members = count(&parts.payload_fetch) + count(&parts.install) + count(&parts.text);
    2 + members + parts.payloads.as_slice().len() as u64
}

// Appends the pair of a member that is there. Other pairs may follow.
fn push_member(out: &mut Bytes, key: u64, member: &Option<Bytes>) -> Result<(), AllocError>
    ensures ok { (others : DataPairs)
        → OnOk result
        (out.new ++ spell_pairs others
        ≡ out.old ++ spell_pairs (member_then key member.now others)) }
    ensures string { IfSome member.now IsString }
{
    match member {
        Some(content) => push_pair(out, key, content.as_slice()),
        None => Ok(()),
    }
}

fn push_payloads(out: &mut Bytes, payloads: &PayloadList<'_>) -> Result<(), AllocError>
    ensures ok { OnOk result (out.new ≡ out.old ++ spell_pairs (payload_pairs payloads.now)) }
    ensures payloads { OnOk result (AllByRecursion IsPayload payloads.now) }
{
    for (key, payload) in payloads.as_slice() {
        push_text(out, key.as_str())?;
        push_string(out, payload.as_slice())?;
    }
    Ok(())
}

/// Encodes an envelope with these parts and tag 107 in its one spelling
/// (draft-ietf-suit-manifest-25, section 8.2).
///
/// The wrapper must be valid. The keys of the payloads must ascend in the order of their spellings,
/// without repetition. The manifest and the members are taken as they are.
pub fn encode_envelope(alloc: Global, parts: &EnvelopeParts<'_>) -> Result<Bytes, AllocError>
    requires wrapper { HasWrapper parts.now.wrapper }
    requires payloads { AreAscending None parts.now.payloads }
    ensures spelling { IfOk result (λ bytes. bytes ≡ spell (envelope_made parts.now)) }
    ensures envelope { IfOk result (SpellsParts parts.now) }
    ensures payloads { IfOk result (λ bytes. HasPayloads bytes parts.now.payloads) }
{
    let mut out = Bytes::new(alloc);
    push_start(&mut out, pairs(parts))?;
    push_pair(&mut out, 2, parts.wrapper.as_slice())?;
    push_pair(&mut out, 3, parts.manifest.as_slice())?;
    push_member(&mut out, 16, &parts.payload_fetch)?;
    push_member(&mut out, 20, &parts.install)?;
    push_member(&mut out, 23, &parts.text)?;
    push_payloads(&mut out, &parts.payloads)?;
    Ok(out)
}
