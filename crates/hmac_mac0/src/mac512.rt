//! HMAC-SHA-512, computed piece by piece.

ghost use Rattle.std.specs.Prelude.{◌≡◌, ◌++◌, [], List, ℕ};
ghost use Rattle.hmac_mac0.specs.Hmac.{hmac512_of};

use crate::key::{padded512, xored};
use sha2::{Digest, Sha512};

/// A MAC by SHA-512 that is being computed from pieces of the message.
#[derive(Drop)]
pub struct Mac512 {
    inner: Sha512,
    outer: [u8; 128],
}

impl Mac512 {
    ghost use Rattle.hmac_mac0.specs.MacState.{HasTaken512};

    /// Starts a MAC under this key. A key longer than 128 bytes is hashed first.
    #[tactic(auto, unfolding(crate::specs::MacState::HasTaken512))]
    pub fn new(key: &[u8]) -> Mac512
        ensures { HasTaken512 result key.now [] }
    {
        let block = padded512(key);
        let mut inner = Sha512::new();
        inner.update(xored(&block, 0x36));
        Mac512 {
            inner,
            outer: xored(&block, 0x5c),
        }
    }

    /// Adds a piece of the message.
    #[tactic(auto, unfolding(crate::specs::MacState::HasTaken512))]
    pub fn add(&mut self, piece: &[u8])
        ensures { (key message : List ℕ) → HasTaken512 self.old key message
            → HasTaken512 self.new key (message ++ piece.now) }
    {
        self.inner.update(piece);
    }

    /// The MAC of all the pieces, in their order.
    #[tactic(auto, unfolding(crate::specs::MacState::HasTaken512, crate::specs::Hmac::hmac512_of))]
    pub fn finish(self) -> [u8; 64]
        ensures { (key message : List ℕ) → HasTaken512 self key message
            → result ≡ hmac512_of key message }
    {
        let digest = self.inner.finalize();
        let mut outer = Sha512::new();
        outer.update(self.outer);
        outer.update(digest);
        outer.finalize()
    }
}

/// The MAC of a message in one piece, by SHA-512.
pub fn hmac512(key: &[u8], message: &[u8]) -> [u8; 64]
    ensures { result ≡ hmac512_of key.now message.now }
{
    let mut mac = Mac512::new(key);
    mac.add(message);
    mac.finish()
}
