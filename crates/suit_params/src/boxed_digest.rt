//! Digests in boxes.

ghost use Rattle.std.specs.Prelude.{◌≡◌, IfOk};

use crate::{Digest, HashedDigest};
use std::alloc::{AllocError, Global};
use std::marker::Model;

/// A digest in a box, so that a parameter is small.
#[derive(Debug, Drop)]
pub struct BoxedDigest {
    held: Box<HashedDigest>,
}

impl Model for BoxedDigest {
    ghost use Rattle.suit_params.specs.declared.digest.Digest.{Digest};

    ghost Value = { Digest };

    ghost view = { λ a. a.held.value };
}

impl BoxedDigest {
    /// Boxes a digest.
    pub fn new(alloc: Global, digest: Digest) -> Result<BoxedDigest, AllocError>
        ensures { IfOk result (λ boxed. boxed ≡ digest) }
    {
        let held = Box::new(alloc, HashedDigest::new(digest))?;
        Ok(BoxedDigest { held })
    }

    /// Borrows the digest.
    pub fn get(&self) -> &Digest
        ensures { result.now ≡ self.now }
    {
        self.held.get()
    }

    /// Borrows the digest and its hash.
    pub fn hashed(&self) -> &HashedDigest
        ensures { result.now ≡ self.now }
    {
        &self.held
    }

    /// Copies the digest into a box of its own.
    pub fn copy(&self, alloc: Global) -> Result<BoxedDigest, AllocError>
        ensures { IfOk result (λ other. other ≡ self.now) }
    {
        BoxedDigest::new(alloc, *self.get())
    }
}
