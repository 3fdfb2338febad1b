//! Envelopes within their limits of length.

ghost use Rattle.std.specs.Prelude.{◌≡◌, ◌-◌, ◌^◌, None, IfOk, length, min};
ghost use Rattle.suit_envelope.specs.Making.{SpellsParts};
ghost use Rattle.suit_envelope.specs.PayloadOrder.{AreAscending};
ghost use Rattle.suit_envelope.specs.Payloads.{HasPayloads};
ghost use Rattle.suit_envelope.specs.WrapperParts.{HasWrapper};
ghost use Rattle.author.specs.EnvelopeLengths.{member_length, payloads_length, contents_length};
ghost use Rattle.author.specs.MadeEnvelopes.{trimmed_bytes, AnswersShort};

use crate::MakeFault;
use det_cbor::Bytes;
use std::alloc::Global;
use suit_envelope::{Envelope, EnvelopeParts, PayloadList, encode_envelope, trimmed_length};

/// The longest trimmed envelope, in bytes.
pub(crate) const MAX_TRIMMED: u64 = 65_536;

/// The longest envelope, in bytes.
pub(crate) const MAX_WHOLE: u64 = 1_048_576;

/// The length in bytes of the trimmed envelope of these parts. Saturates at 64 bits.
pub(crate) fn trimmed(parts: &EnvelopeParts<'_>) -> u64
    ensures { result ≡ min (length (trimmed_bytes parts.now)) (2 ^ 64 - 1) }
{
    let envelope = Envelope {
        whole: &[],
        tagged: true,
        wrapper: parts.wrapper.as_slice(),
        wrapper_place: 0,
        manifest: parts.manifest.as_slice(),
        manifest_place: 0,
        payload_fetch: None,
        install: None,
        text: None,
        payload_fetch_place: 0,
        install_place: 0,
    };
    trimmed_length(&envelope)
}

fn member(content: &Option<Bytes>) -> u64
    ensures { result ≡ member_length content.now }
{
    match content {
        Some(bytes) => bytes.len() as u64,
        None => 0,
    }
}

#[tactic(auto, using(crate::proofs::EnvelopeLengthFacts::none_left))]
fn payloads(list: &PayloadList<'_>) -> u64
    ensures { result ≡ min (payloads_length list.now) (2 ^ 64 - 1) }
{
    let mut total: u64 = 0;
    for (_, payload) in list.as_slice() {
        total = total.saturating_add(payload.as_slice().len() as u64);
    }
    total
}

// The length of the contents besides wrapper and manifest. The envelope itself is longer. Saturates at 64 bits.
fn contents(parts: &EnvelopeParts<'_>) -> u64
    ensures { result ≡ min (contents_length parts.now) (2 ^ 64 - 1) }
{
    member(&parts.payload_fetch)
        .saturating_add(member(&parts.install))
        .saturating_add(member(&parts.text))
        .saturating_add(payloads(&parts.payloads))
}

/// Encodes the envelope of its parts, unless it is too long. Its trimmed length is judged first, and nothing is written
/// if the contents alone are too long.
pub(crate) fn encode_short(alloc: Global, parts: &EnvelopeParts<'_>) -> Result<Bytes, MakeFault>
    requires wrapper { HasWrapper parts.now.wrapper }
    requires payloads { AreAscending None parts.now.payloads }
    ensures answers { AnswersShort parts.now result }
    ensures says { IfOk result (SpellsParts parts.now) }
    ensures payloads { IfOk result (λ bytes. HasPayloads bytes parts.now.payloads) }
{
    if trimmed(parts) > MAX_TRIMMED {
        return Err(MakeFault::TooLong(MAX_TRIMMED));
    }
    if contents(parts) > MAX_WHOLE {
        return Err(MakeFault::TooLong(MAX_WHOLE));
    }
    let bytes = encode_envelope(alloc, parts)?;
    if bytes.len() as u64 > MAX_WHOLE {
        return Err(MakeFault::TooLong(MAX_WHOLE));
    }
    Ok(bytes)
}
