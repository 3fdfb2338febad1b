//! The trimmed envelope, which has only the wrapper and the manifest.

ghost use Rattle.std.specs.Prelude.{◌≡◌, ◌-◌, ◌^◌, length, min, IfOk};
ghost use Rattle.det_cbor.specs.Heads.{head_bytes};
ghost use Rattle.det_cbor.specs.DataItem.{ByteString, spell, IsString};
ghost use Rattle.suit_envelope.specs.Trimmed.{trimmed, IsTrimmed};
ghost use Rattle.suit_envelope.specs.WrapperParts.{HasWrapper};

use crate::Envelope;
use crate::writing::{push_pair, push_start};
use det_cbor::Bytes;
use std::alloc::{AllocError, Global};

// Spells the trimmed envelope.
#[tactic(auto, using(crate::proofs::TrimLaws::trimmed_parts))]
fn spelling(alloc: Global, envelope: &Envelope<'_>) -> Result<Bytes, AllocError>
    ensures is { IfOk result
        (λ bytes. bytes ≡ trimmed envelope.now.wrapper.now envelope.now.manifest.now) }
    ensures wrapper { IfOk result (λ _. IsString envelope.now.wrapper.now) }
    ensures manifest { IfOk result (λ _. IsString envelope.now.manifest.now) }
{
    let mut out = Bytes::new(alloc);
    push_start(&mut out, 2)?;
    push_pair(&mut out, 2, envelope.wrapper)?;
    push_pair(&mut out, 3, envelope.manifest)?;
    Ok(out)
}

/// Makes the trimmed envelope: tag 107 around a map with only the wrapper and the manifest.
#[tactic(auto, using(crate::proofs::TrimSays::says_trimmed))]
pub fn trim(alloc: Global, envelope: &Envelope<'_>) -> Result<Bytes, AllocError>
    ensures spelling { IfOk result
        (λ bytes. bytes ≡ trimmed envelope.now.wrapper.now envelope.now.manifest.now) }
    ensures says { HasWrapper envelope.now.wrapper.now
        → IfOk result (IsTrimmed envelope.now.wrapper.now envelope.now.manifest.now) }
{
    spelling(alloc, envelope)
}

// The length of the head of a byte string with `content` bytes.
#[tactic(auto, using(crate::proofs::TrimLaws::long_small, crate::proofs::TrimLaws::long_8, crate::proofs::TrimLaws::long_16, crate::proofs::TrimLaws::long_32, crate::proofs::TrimLaws::long_64))]
fn head_length(content: u64) -> u64
    ensures { result ≡ length (head_bytes 2 content) }
{
    match content {
        0..=23 => 1,
        24..=0xff => 2,
        0x100..=0xffff => 3,
        0x1_0000..=0xffff_ffff => 5,
        _ => 9,
    }
}

// The length of the byte string with this content. Saturates at 64 bits.
#[tactic(auto, using(crate::proofs::TrimLaws::string_long))]
fn string_length(content: &[u8]) -> u64
    ensures { result ≡ min (length (spell (ByteString content.now))) (2 ^ 64 - 1) }
{
    let length = content.len() as u64;
    head_length(length).saturating_add(length)
}

/// The length of the trimmed envelope in bytes. Saturates at 64 bits.
#[tactic(auto, using(crate::proofs::TrimLaws::trimmed_long))]
pub fn trimmed_length(envelope: &Envelope<'_>) -> u64
    ensures { result
        ≡ min (length (trimmed envelope.now.wrapper.now envelope.now.manifest.now)) (2 ^ 64 - 1) }
{
    let strings = string_length(envelope.wrapper).saturating_add(string_length(envelope.manifest));
    strings.saturating_add(5)
}
