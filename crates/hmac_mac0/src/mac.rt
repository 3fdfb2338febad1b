//! HMAC-SHA-256, computed piece by piece.

ghost use Rattle.std.specs.Prelude.{◌≡◌, ◌++◌, [], List, ℕ};
ghost use Rattle.hmac_mac0.specs.Hmac.{hmac_of};

use crate::key::{padded, xored};
use sha2::{Digest, Sha256};

/// A MAC that is being computed from pieces of the message.
#[derive(Drop)]
pub struct Mac {
    inner: Sha256,
    outer: [u8; 64],
}

impl Mac {
    ghost use Rattle.hmac_mac0.specs.MacState.{HasTaken};

    /// Starts a MAC under this key. A key longer than 64 bytes is hashed first.
    #[tactic(auto, unfolding(crate::specs::MacState::HasTaken))]
    pub fn new(key: &[u8]) -> Mac
        ensures { HasTaken result key.now [] }
    {
        let block = padded(key);
        let mut inner = Sha256::new();
        inner.update(xored(&block, 0x36));
        Mac {
            inner,
            outer: xored(&block, 0x5c),
        }
    }

    /// Adds a piece of the message.
    #[tactic(auto, unfolding(crate::specs::MacState::HasTaken))]
    pub fn add(&mut self, piece: &[u8])
        ensures { (key message : List ℕ) → HasTaken self.old key message
            → HasTaken self.new key (message ++ piece.now) }
    {
        self.inner.update(piece);
    }

    /// The MAC of all the pieces, in their order.
    #[tactic(auto, unfolding(crate::specs::MacState::HasTaken, crate::specs::Hmac::hmac_of))]
    pub fn finish(self) -> [u8; 32]
        ensures { (key message : List ℕ) → HasTaken self key message
            → result ≡ hmac_of key message }
    {
        let digest = self.inner.finalize();
        let mut outer = Sha256::new();
        outer.update(self.outer);
        outer.update(digest);
        outer.finalize()
    }
}

/// The MAC of a message in one piece, by SHA-256.
pub fn hmac(key: &[u8], message: &[u8]) -> [u8; 32]
    ensures { result ≡ hmac_of key.now message.now }
{
    let mut mac = Mac::new(key);
    mac.add(message);
    mac.finish()
}
