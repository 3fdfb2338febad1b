//! The device's key.

ghost use Rattle.std.specs.Prelude.{◌↔◌, IsTrue};
ghost use Rattle.flash_layout.specs.Layouts.{IsKey};

/// A key that authenticates envelopes, padded with zeros.
#[derive(Clone, Copy)]
pub struct Key {
    pub bytes: [u8; 64],
    /// The length of the key in bytes, from 1 to 64.
    pub length: u8,
}

/// Whether the length is from 1 to 64, and the bytes after the key are zeros.
pub fn is_key(key: &Key) -> bool
    ensures { IsTrue result ↔ IsKey key.now }
{
    if key.length < 1 || 64 < key.length {
        return false;
    }
    let first = key.length as usize;
    for i in first..64 {
        if key.bytes[i] != 0 {
            return false;
        }
    }
    true
}
