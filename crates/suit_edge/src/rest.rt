//! The rest of a file.

ghost use Rattle.std.specs.Prelude.{◌≡◌, [], ◌++◌, length, take, drop, min};

use det_cbor::Bytes;
use std::alloc::Global;
use std::marker::Model;

/// The bytes of a file that are still to be read.
#[derive(Debug, Drop)]
pub(crate) struct Rest {
    bytes: Bytes,
    at: usize,
}

impl Model for Rest {
    ghost use Rattle.std.specs.Prelude.{List, ℕ, ◌≤◌, drop, length};

    ghost Value = { List ℕ };

    ghost view = { λ r. drop r.at r.bytes };

    ghost invariant = { λ r. r.at ≤ length r.bytes };
}

impl Rest {
    /// All of these bytes are still to be read.
    pub(crate) fn new(bytes: Bytes) -> Rest
        ensures { result ≡ bytes }
    {
        Rest { bytes, at: 0 }
    }

    /// The number of bytes left.
    pub(crate) fn len(&self) -> usize
        ensures { result ≡ length self.now }
    {
        self.bytes.len() - self.at
    }

    /// Moves the next bytes to the front of `room`, as many as are left and fit, and returns their
    /// number.
    pub(crate) fn pull(&mut self, room: &mut [u8]) -> usize
        ensures count { result ≡ min (length self.old) (length room.old) }
        ensures left { self.new ≡ drop result self.old }
        ensures room { room.new ≡ take result self.old ++ drop result room.old }
    {
        let left = &self.bytes.as_slice()[self.at..];
        let count = left.len().min(room.len());
        room[..count].copy_from_slice(&left[..count]);
        self.at += count;
        count
    }
}
