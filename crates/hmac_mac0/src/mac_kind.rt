//! The algorithms of a block.

ghost use Rattle.std.specs.Prelude.{◌≡◌};
ghost use Rattle.hmac_mac0.specs.Algorithms.{number_of};

/// The algorithm of a block's tag, which is never truncated (RFC 9053, section 3.1).
#[derive(Clone, Copy, Debug, PartialEq, Eq)]
pub enum MacKind {
    /// HMAC 256/256.
    Hmac256,
    /// HMAC 512/512.
    Hmac512,
}

/// The number of an algorithm in COSE.
pub(crate) fn number(kind: MacKind) -> u8
    ensures { result ≡ number_of kind }
{
    match kind {
        MacKind::Hmac256 => 5,
        MacKind::Hmac512 => 7,
    }
}
