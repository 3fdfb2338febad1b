//! Digests with a hash for tables.

ghost use Rattle.std.specs.Prelude.{◌≡◌};

use crate::Digest;
use std::fmt;
use std::fmt::{Debug, Formatter};
use std::hash::{DefaultHasher, Hasher};
use std::marker::Model;

/// A digest, and a hasher for tables that has read its bytes once.
#[derive(Drop)]
pub struct HashedDigest {
    digest: Digest,
    hasher: DefaultHasher,
}

impl Model for HashedDigest {
    ghost use Rattle.suit_params.specs.declared.digest.Digest.{Digest};

    ghost Value = { Digest };

    ghost view = { λ a. a.digest };
}

// SipHash that has read the bytes.
fn hasher_of(digest: &Digest) -> DefaultHasher {
    let mut hasher = DefaultHasher::new();
    hasher.write(digest.bytes());
    hasher
}

impl HashedDigest {
    /// Hashes a digest.
    pub fn new(digest: Digest) -> HashedDigest
        ensures { result ≡ digest }
    {
        HashedDigest {
            digest,
            hasher: hasher_of(&digest),
        }
    }

    /// Borrows the digest.
    pub fn get(&self) -> &Digest
        ensures { result.now ≡ self.now }
    {
        &self.digest
    }

    /// A hasher that has read the bytes of the digest. What is hashed with it can follow.
    pub fn hasher(&self) -> DefaultHasher {
        self.hasher
    }
}

impl Debug for HashedDigest {
    fn fmt<W: fmt::Write>(&self, f: &mut Formatter<W>) -> fmt::Result {
        self.digest.fmt(f)
    }
}
