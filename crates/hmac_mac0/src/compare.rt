//! Comparing bytes.

ghost use Rattle.std.specs.Prelude.{◌≡◌, ◌↔◌, IsTrue};

/// Whether the bytes are exactly the expected ones.
pub(crate) fn are_equal(bytes: &[u8], expected: &[u8]) -> bool
    ensures { IsTrue result ↔ (bytes.now ≡ expected.now) }
{
    bytes == expected
}
