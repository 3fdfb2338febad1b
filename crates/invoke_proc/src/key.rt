//! The bytes of a flash's key.

ghost use Rattle.std.specs.Prelude.{◌≡◌};
ghost use Rattle.flash_layout.specs.Layouts.{IsKey};
ghost use Rattle.rollback_record.specs.SoundFlash.{key_bytes};

use flash_layout::Key;

/// The bytes of the key.
pub fn key_bytes(key: &Key) -> &[u8]
    requires { IsKey key.now }
    ensures { result.now ≡ key_bytes key.now }
{
    &key.bytes[..key.length as usize]
}
