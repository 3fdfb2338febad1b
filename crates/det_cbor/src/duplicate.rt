//! Fallible copies.

ghost use Rattle.std.specs.Prelude.{◌≡◌, IfOk};

use crate::Text;
use std::alloc::{AllocError, Global};

/// A value that can be copied, unless memory runs out.
pub trait Duplicate: Drop {
    /// Returns an equal value in memory of its own.
    fn copy(&self, alloc: Global) -> Result<Self, AllocError>
        ensures { IfOk result (λ other. other ≡ self.now) };

    /// Copies each of the values.
    fn copy_all(values: &[Self], alloc: Global) -> Result<Vec<Self>, AllocError>
        ensures { IfOk result (λ copies. copies.items ≡ values.now) }
    {
        let mut copies = Vec::new(alloc);
        for value in values {
            copies.push(value.copy(alloc)?)?;
        }
        Ok(copies)
    }
}

impl Duplicate for u8 {
    fn copy(&self, _alloc: Global) -> Result<u8, AllocError> {
        Ok(*self)
    }

    fn copy_all(values: &[u8], alloc: Global) -> Result<Vec<u8>, AllocError> {
        values.to_vec(alloc)
    }
}

impl Duplicate for Text {
    fn copy(&self, alloc: Global) -> Result<Text, AllocError> {
        Text::copy(self, alloc)
    }
}
