//! Making a Mac0 block.

ghost use Rattle.std.specs.Prelude.{◌≡◌, ◌++◌, List, ℕ, IfOk, IfSome, OnOk, option_map};
ghost use Rattle.det_cbor.specs.DataItem.{ByteString, MapOf, IsString, Spells, spell};
ghost use Rattle.det_cbor.specs.Heads.{head_bytes};
ghost use Rattle.det_cbor.specs.HeadSpelling.{IsValueOf, major_of, argument_of};
ghost use Rattle.hmac_mac0.specs.Mac0.{made_header, made_item, kid_pairs, tag_of, IsMac0, Verifies};
ghost use Rattle.hmac_mac0.specs.declared.mac_kind.MacKind.{MacKind};

use crate::MacKind;
use crate::header::header;
use crate::structure::tag;
use det_cbor::{Bytes, HeadKind, push_kind, push_string};
use std::alloc::{AllocError, Global};

/// Makes the block that authenticates a payload under a key, by this algorithm.
///
/// The protected header holds only the algorithm. A kid, which names the key, goes into the
/// unprotected header. The payload is detached.
pub fn make_block(
    alloc: Global,
    mac: MacKind,
    key: &[u8],
    kid: Option<&[u8]>,
    payload: &[u8],
) -> Result<Bytes, AllocError>
    ensures spells { IfOk result
        (λ block. Spells
        (made_item mac key.now (option_map (λ k. k.now) kid.entry) payload.now) block) }
    ensures verifies { IfOk result (λ block. Verifies block key.now payload.now) }
    ensures alone { IfOk result (λ block. (kind : MacKind) (protected tag : List ℕ)
        → IsMac0 block kind protected tag → (kind ≡ mac) × (protected ≡ made_header mac)
        × (tag ≡ tag_of mac key.now (made_header mac) payload.now)) }
{
    let mut block = Bytes::new(alloc);
    push_header(&mut block, mac)?;
    push_unprotected(&mut block, kid)?;
    push_kind(&mut block, HeadKind::Null, 0)?;
    push_string(&mut block, tag(mac, key, &header(mac), payload).bytes())?;
    Ok(block)
}

// Appends the heads of tag 17 and of an array of four, and the protected header.
fn push_header(block: &mut Bytes, kind: MacKind) -> Result<(), AllocError>
    ensures { OnOk result
        (block.new
        ≡ block.old ++ head_bytes 6 17 ++ head_bytes 4 4 ++ spell (ByteString (made_header kind))) }
{
    push_kind(block, HeadKind::Tag, 17)?;
    push_kind(block, HeadKind::Array, 4)?;
    push_string(block, &header(kind))
}

// Appends the map of 4 (kid) to the kid, or the empty map if there is none.
fn push_unprotected(block: &mut Bytes, kid: Option<&[u8]>) -> Result<(), AllocError>
    ensures is_string { OnOk result (IfSome kid.entry (λ k. IsString k.now)) }
    ensures ok { OnOk result
        (block.new ≡ block.old ++ spell (MapOf (kid_pairs (option_map (λ k. k.now) kid.entry)))) }
{
    match kid {
        None => push_kind(block, HeadKind::Map, 0),
        Some(kid) => {
            push_kind(block, HeadKind::Map, 1)?;
            push_kind(block, HeadKind::Unsigned, 4)?;
            push_string(block, kid)
        }
    }
}
