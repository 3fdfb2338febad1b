//! Lists of bytes.

ghost use Rattle.std.specs.Prelude.{◌≡◌, ◌++◌, IfOk, OnOk, OnErr};

use crate::List;
use std::alloc::{AllocError, Global};

/// A growable list of bytes.
pub type Bytes = List<u8>;

impl List<u8> {
    /// Copies `bytes` into a new list.
    pub fn from_slice(alloc: Global, bytes: &[u8]) -> Result<Bytes, AllocError>
        ensures { IfOk result (λ list. list ≡ bytes.now) }
    {
        Ok(List {
            held: bytes.to_vec(alloc)?,
        })
    }

    /// Reserves room for `more` bytes at once, so that the list does not move while they are added.
    pub fn reserve(&mut self, more: usize) -> Result<(), AllocError>
        ensures { self.new ≡ self.old }
    {
        self.held.reserve(more)
    }

    /// Appends bytes.
    pub fn extend(&mut self, bytes: &[u8]) -> Result<(), AllocError>
        ensures ok { OnOk result (self.new ≡ self.old ++ bytes.now) }
        ensures err { OnErr result (self.new ≡ self.old) }
    {
        self.held.extend_from_slice(bytes)
    }
}
