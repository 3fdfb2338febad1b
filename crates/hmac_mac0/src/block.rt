//! Reading a Mac0 block (RFC 9052, section 6.2).

ghost use Rattle.std.specs.Prelude.{◌↔◌, IsTrue, List, ℕ, IfSome, IfNone};
ghost use Rattle.det_cbor.specs.OneReading.{IsItem};
ghost use Rattle.hmac_mac0.specs.Mac0.{IsMac0};
ghost use Rattle.hmac_mac0.specs.Layout.{HasParts};
ghost use Rattle.hmac_mac0.specs.declared.mac_kind.MacKind.{MacKind};

use crate::MacKind;
use crate::header::algorithm;
use crate::layout::{last_tag, string};
use det_cbor::Cursor;

// The heads of tag 17 and of an array of four.
const FRONT: [u8; 2] = [0xd1, 0x84];

/// The parts of a Mac0 block: its algorithm, the content of its protected header, and its tag.
#[derive(Clone, Copy)]
pub(crate) struct Parts<'a> {
    pub(crate) kind: MacKind,
    pub(crate) protected: &'a [u8],
    pub(crate) tag: &'a [u8],
}

/// Splits a Mac0 block into its parts, or returns `None` if the bytes are not one.
pub(crate) fn read_block(block: &[u8]) -> Option<Parts<'_>>
    ensures some { IfSome result
        (λ parts. IsMac0 block.now parts.kind parts.protected.now parts.tag.now) }
    ensures none { IfNone result ((kind : MacKind) (protected tag : List ℕ)
        → IsMac0 block.now kind protected tag → ⊥) }
{
    let (protected, tag) = split_block(block)?;
    let kind = algorithm(protected)?;
    if is_item(block) {
        Some(Parts {
            kind,
            protected,
            tag,
        })
    } else {
        None
    }
}

// Whether the bytes are exactly one item.
fn is_item(bytes: &[u8]) -> bool
    ensures { IsTrue result ↔ IsItem bytes.now }
{
    let mut cursor = Cursor::new(bytes, 0);
    cursor.skip().is_ok() && cursor.left() == 0
}

// Splits off the content of the protected header and the tag, if the bytes are laid out as a block.
fn split_block(block: &[u8]) -> Option<(&[u8], &[u8])>
    ensures some { IfSome result (λ parts. HasParts block.now parts.0.now parts.1.now) }
    ensures none { IfNone result ((protected tag : List ℕ) → HasParts block.now protected tag → ⊥) }
{
    let rest = block.strip_prefix(&FRONT)?;
    let mut cursor = Cursor::new(rest, 0);
    let protected = string(&mut cursor)?;
    let tag = last_tag(&mut cursor)?;
    Some((protected, tag))
}
