//! A tag by either algorithm.

ghost use Rattle.std.specs.Prelude.{◌≡◌};
ghost use Rattle.hmac_mac0.specs.Tags.{tag_bytes};

/// The whole tag of a message, by its algorithm.
#[derive(Clone, Copy, Debug, PartialEq, Eq)]
pub enum MacTag {
    /// A tag of HMAC 256/256.
    Hmac256([u8; 32]),
    /// A tag of HMAC 512/512.
    Hmac512([u8; 64]),
}

impl MacTag {
    /// The bytes of the tag.
    pub fn bytes(&self) -> &[u8]
        ensures { result.now ≡ tag_bytes self.now }
    {
        match self {
            MacTag::Hmac256(bytes) => bytes,
            MacTag::Hmac512(bytes) => bytes,
        }
    }
}
