//! The bytes of a payload.

ghost use Rattle.std.specs.Prelude.{◌≡◌};

use det_cbor::Bytes;
use std::borrow::CowSlice;
use std::marker::Model;

/// The bytes of a payload, borrowed or owned.
#[derive(Debug, Drop)]
pub struct PayloadBytes<'a> {
    held: CowSlice<'a, u8>,
}

impl<'a> Model for PayloadBytes<'a> {
    ghost use Rattle.std.specs.Prelude.{List, ℕ};
    ghost use Rattle.std.specs.Cow.{cow_slice_items};

    ghost Value = { List ℕ };

    ghost view = { λ p. cow_slice_items p.held };
}

impl<'a> PayloadBytes<'a> {
    /// Borrows the bytes. Allocates and copies nothing.
    pub fn lent(bytes: &'a [u8]) -> PayloadBytes<'a>
        ensures { result ≡ bytes.now }
    {
        PayloadBytes {
            held: CowSlice::Borrowed(bytes),
        }
    }

    /// Takes the bytes over. Allocates and copies nothing.
    pub fn owned(bytes: Bytes) -> PayloadBytes<'a>
        ensures { result ≡ bytes }
    {
        PayloadBytes {
            held: CowSlice::Owned(bytes.into_vec()),
        }
    }

    /// Borrows the bytes.
    pub fn as_slice(&self) -> &[u8]
        ensures { result.now ≡ self.now }
    {
        self.held.as_slice()
    }
}
