//! The MAC structure (RFC 9052, section 6.3), fed to a MAC piece by piece.

ghost use Rattle.std.specs.Prelude.{◌≡◌, ◌<◌, ◌++◌, ◌∷◌, List, ℕ};
ghost use Rattle.det_cbor.specs.DataItem.{ByteString, spell};
ghost use Rattle.det_cbor.specs.Heads.{head_bytes};
ghost use Rattle.hmac_mac0.specs.Mac0.{tag_of};
ghost use Rattle.hmac_mac0.specs.MacState.{HasTakenBy};
ghost use Rattle.hmac_mac0.specs.Tags.{tag_bytes};
ghost use Rattle.hmac_mac0.specs.declared.mac_kind.MacKind.{MacKind};

use crate::any_mac::AnyMac;
use crate::{MacKind, MacTag};
use det_cbor::{HeadKind, ShortHead};

// The head of an array of four, and its first element.
const CONTEXT: [u8; 6] = *b"\x84\x64MAC0";

// The empty byte string, since there is no external data.
const NO_EXTERNAL: [u8; 1] = [0x40];

/// The tag of a protected header and a payload under a key, by this algorithm.
pub(crate) fn tag(kind: MacKind, key: &[u8], protected: &[u8], payload: &[u8]) -> MacTag
    ensures { tag_bytes result ≡ tag_of kind key.now protected.now payload.now }
{
    let mut mac = AnyMac::new(kind, key);
    mac.add(&CONTEXT);
    add_string(&mut mac, protected);
    mac.add(&NO_EXTERNAL);
    add_string(&mut mac, payload);
    mac.finish()
}

// Adds the spelling of a byte string.
fn add_string(mac: &mut AnyMac, content: &[u8])
    ensures { (kind : MacKind) (key message : List ℕ) → HasTakenBy kind mac.old key message
        → HasTakenBy kind mac.new key (message ++ spell (ByteString content.now)) }
{
    add_head(mac, content.len() as u64);
    mac.add(content);
}

// Adds a first byte and the bytes after it.
fn add_parts(mac: &mut AnyMac, first: u8, rest: &[u8])
    ensures { (kind : MacKind) (key message : List ℕ) → HasTakenBy kind mac.old key message
        → HasTakenBy kind mac.new key (message ++ first ∷ rest.now) }
{
    mac.add(&[first]);
    mac.add(rest);
}

// Adds the head of a byte string.
fn add_head(mac: &mut AnyMac, length: u64)
    ensures { (kind : MacKind) (key message : List ℕ) → HasTakenBy kind mac.old key message
        → HasTakenBy kind mac.new key (message ++ head_bytes 2 length) }
{
    let head = ShortHead::new(HeadKind::Bytes, length);
    let (first, behind) = head.parts();
    add_parts(mac, first, behind);
}
