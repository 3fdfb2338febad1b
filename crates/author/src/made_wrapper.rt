//! The authentication wrapper of an envelope that is made.

ghost use Rattle.std.specs.Prelude.{◌≡◌, ◌∷◌, [], IfOk, option_map};
ghost use Rattle.det_cbor.specs.DataItem.{ByteString, ArrayOf, NoItems, ItemThen, spell, IsString, IsValid};
ghost use Rattle.suit_params.specs.DigestBytes.{IsLong};
ghost use Rattle.suit_params.specs.Digests.{digest_item};
ghost use Rattle.hmac_mac0.specs.Mac0.{Verifies};
ghost use Rattle.suit_envelope.specs.Authentic.{payload_of};
ghost use Rattle.suit_envelope.specs.WrapperParts.{WrapperSays};
ghost use Rattle.author.specs.MadeEnvelopes.{made_block, IsBlockBy};

use det_cbor::{Bytes, push_count, push_string};
use hmac_mac0::{MacKind, make_block};
use std::alloc::{AllocError, Global};
use suit_params::{Digest, push_digest};

// Spells a digest's array (draft-ietf-suit-manifest-25, section 10).
fn digest_bytes(alloc: Global, digest: &Digest) -> Result<Bytes, AllocError>
    ensures spelling { IfOk result (λ bytes. bytes ≡ spell (digest_item digest.now)) }
    ensures valid { IfOk result (λ _. IsValid (digest_item digest.now)) }
    ensures long { IfOk result (λ _. IsLong digest.now) }
{
    let mut out = Bytes::new(alloc);
    push_digest(&mut out, digest)?;
    Ok(out)
}

// Spells an array of two byte strings.
fn both(alloc: Global, stated: &[u8], block: &[u8]) -> Result<Bytes, AllocError>
    ensures is { IfOk result (λ w. w ≡ spell (ArrayOf
        (ItemThen (ByteString stated.now) (ItemThen (ByteString block.now) NoItems)))) }
    ensures strings { IfOk result (λ _. IsString stated.now × IsString block.now) }
{
    let mut out = Bytes::new(alloc);
    push_count(&mut out, 2)?;
    push_string(&mut out, stated)?;
    push_string(&mut out, block)?;
    Ok(out)
}

/// Makes the wrapper that states a digest, with one block for an algorithm and a key (draft-ietf-suit-manifest-25,
/// section 8.3). The payload of the block is the digest's array.
pub(crate) fn made_wrapper(
    alloc: Global,
    mac: MacKind,
    key: &[u8],
    kid: Option<&[u8]>,
    digest: &Digest,
) -> Result<Bytes, AllocError>
    ensures says { IfOk result (λ w. WrapperSays w digest.now
        (made_block mac key.now (option_map (λ k. k.now) kid.entry) digest.now ∷ [])) }
    ensures verifies { IfOk result (λ _. Verifies
        (made_block mac key.now (option_map (λ k. k.now) kid.entry) digest.now)
        key.now (payload_of digest.now)) }
    ensures by_mac { IfOk result (λ _. IsBlockBy mac
        (made_block mac key.now (option_map (λ k. k.now) kid.entry) digest.now)) }
{
    let stated = digest_bytes(alloc, digest)?;
    let block = make_block(alloc, mac, key, kid, stated.as_slice())?;
    both(alloc, stated.as_slice(), block.as_slice())
}
