//! Verifying a Mac0 block.

ghost use Rattle.std.specs.Prelude.{◌≡◌, ◌↔◌, List, ℕ};
ghost use Rattle.hmac_mac0.specs.Mac0.{IsMac0, Verifies};
ghost use Rattle.hmac_mac0.specs.Verdict.{IsJustified};
ghost use Rattle.hmac_mac0.specs.declared.mac_kind.MacKind.{MacKind};

use crate::MacTag;
use crate::block::read_block;
use crate::compare::are_equal;
use crate::structure::tag;

/// Whether a block verifies under a key, for a detached payload.
#[derive(Clone, Copy, Debug, PartialEq, Eq)]
pub enum MacVerdict<'a> {
    /// The block's tag is the one of the key and the payload.
    Verified,
    /// The bytes are not a Mac0 block, and may be of any other kind.
    OtherKind,
    /// A Mac0 block with another tag. `expected` is the tag computed by the block's algorithm;
    /// `found` is the block's, and may have any length.
    Differs { expected: MacTag, found: &'a [u8] },
}

/// Verifies a block for a detached payload. Allocates nothing.
pub fn verify<'a>(block: &'a [u8], key: &[u8], payload: &[u8]) -> MacVerdict<'a>
    ensures verified { (result ≡ MacVerdict.Verified) ↔ Verifies block.now key.now payload.now }
    ensures other_kind { (result ≡ MacVerdict.OtherKind)
        ↔ ((kind : MacKind) (protected tag : List ℕ)
        → IsMac0 block.now kind protected tag → ⊥) }
    ensures differs { IsJustified result block.now key.now payload.now }
{
    match read_block(block) {
        None => MacVerdict::OtherKind,
        Some(parts) => {
            let expected = tag(parts.kind, key, parts.protected, payload);
            if are_equal(parts.tag, expected.bytes()) {
                MacVerdict::Verified
            } else {
                MacVerdict::Differs {
                    expected,
                    found: parts.tag,
                }
            }
        }
    }
}
