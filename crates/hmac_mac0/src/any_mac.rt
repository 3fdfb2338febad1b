//! A MAC by either algorithm, computed piece by piece.

ghost use Rattle.std.specs.Prelude.{◌≡◌, ◌++◌, [], List, ℕ};
ghost use Rattle.hmac_mac0.specs.Algorithms.{mac_of};
ghost use Rattle.hmac_mac0.specs.Tags.{tag_bytes};
ghost use Rattle.hmac_mac0.specs.declared.mac_kind.MacKind.{MacKind};

use crate::{Mac, Mac512, MacKind, MacTag};

/// A MAC that is being computed, by either algorithm.
#[derive(Drop)]
pub(crate) enum AnyMac {
    Hmac256(Mac),
    Hmac512(Mac512),
}

impl AnyMac {
    ghost use Rattle.hmac_mac0.specs.MacState.{HasTakenBy};

    /// Starts a MAC under this key.
    pub(crate) fn new(kind: MacKind, key: &[u8]) -> AnyMac
        ensures { HasTakenBy kind result key.now [] }
    {
        match kind {
            MacKind::Hmac256 => AnyMac::Hmac256(Mac::new(key)),
            MacKind::Hmac512 => AnyMac::Hmac512(Mac512::new(key)),
        }
    }

    /// Adds a piece of the message.
    pub(crate) fn add(&mut self, piece: &[u8])
        ensures { (kind : MacKind) (key message : List ℕ) → HasTakenBy kind self.old key message
            → HasTakenBy kind self.new key (message ++ piece.now) }
    {
        match self {
            AnyMac::Hmac256(mac) => mac.add(piece),
            AnyMac::Hmac512(mac) => mac.add(piece),
        }
    }

    /// The MAC of all the pieces, in their order.
    pub(crate) fn finish(self) -> MacTag
        ensures { (kind : MacKind) (key message : List ℕ) → HasTakenBy kind self key message
            → tag_bytes result ≡ mac_of kind key message }
    {
        match self {
            AnyMac::Hmac256(mac) => MacTag::Hmac256(mac.finish()),
            AnyMac::Hmac512(mac) => MacTag::Hmac512(mac.finish()),
        }
    }
}
