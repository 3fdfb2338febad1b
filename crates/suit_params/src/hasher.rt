//! Hashing by any of the hash functions (FIPS 180-4).

ghost use Rattle.std.specs.Prelude.{◌≡◌, ◌++◌, [], List, ℕ};
ghost use Rattle.suit_params.specs.Hashes.{hash};
ghost use Rattle.suit_params.specs.HasherState.{HasHashed};
ghost use Rattle.suit_params.specs.declared.digest_kind.DigestKind.{DigestKind};

use crate::{Digest, DigestKind};
use sha2::{Digest as HashFunction, Sha256, Sha384, Sha512};

/// A digest that is being computed.
#[derive(Drop)]
pub enum Hasher {
    Sha256(Sha256),
    Sha384(Sha384),
    Sha512(Sha512),
}

impl Hasher {
    /// Starts a digest by this hash function.
    pub fn new(kind: DigestKind) -> Hasher
        ensures { HasHashed result kind [] }
    {
        match kind {
            DigestKind::Sha256 => Hasher::Sha256(Sha256::new()),
            DigestKind::Sha384 => Hasher::Sha384(Sha384::new()),
            DigestKind::Sha512 => Hasher::Sha512(Sha512::new()),
        }
    }

    /// Adds a piece of the message.
    pub fn update(&mut self, piece: &[u8])
        ensures { (kind : DigestKind) (message : List ℕ) → HasHashed self.old kind message
            → HasHashed self.new kind (message ++ piece.now) }
    {
        match self {
            Hasher::Sha256(hasher) => hasher.update(piece),
            Hasher::Sha384(hasher) => hasher.update(piece),
            Hasher::Sha512(hasher) => hasher.update(piece),
        }
    }

    /// The digest of all the pieces, in their order.
    pub fn finish(self) -> Digest
        ensures { (kind : DigestKind) (message : List ℕ) → HasHashed self kind message
            → result ≡ hash kind message }
    {
        match self {
            Hasher::Sha256(hasher) => Digest::Sha256(hasher.finalize()),
            Hasher::Sha384(hasher) => Digest::Sha384(hasher.finalize()),
            Hasher::Sha512(hasher) => Digest::Sha512(hasher.finalize()),
        }
    }
}

/// Hashes bytes in one piece.
pub fn hash(kind: DigestKind, bytes: &[u8]) -> Digest
    ensures { result ≡ hash kind bytes.now }
{
    let mut hasher = Hasher::new(kind);
    hasher.update(bytes);
    hasher.finish()
}
