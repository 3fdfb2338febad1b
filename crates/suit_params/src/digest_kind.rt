//! The hash functions of digests (RFC 9054, section 2).

ghost use Rattle.std.specs.Prelude.{◌≡◌, ◌≤◌, IfSome};
ghost use Rattle.suit_params.specs.DigestKinds.{size_of, argument_of, kind_of, kind_of_length};

/// A hash function.
#[derive(Clone, Copy, Debug, PartialEq, Eq)]
pub enum DigestKind {
    Sha256,
    Sha384,
    Sha512,
}

impl DigestKind {
    /// The length of a digest in bytes.
    pub fn size(self) -> usize
        ensures is { result ≡ size_of self }
        ensures few { result ≤ 64 }
    {
        match self {
            DigestKind::Sha256 => 32,
            DigestKind::Sha384 => 48,
            DigestKind::Sha512 => 64,
        }
    }

    /// The argument of the negative integer that stands for it in COSE.
    pub(crate) fn argument(self) -> u64
        ensures { result ≡ argument_of self }
    {
        match self {
            DigestKind::Sha256 => 15,
            DigestKind::Sha384 => 42,
            DigestKind::Sha512 => 43,
        }
    }
}

/// The hash function that the negative integer with this argument stands for in COSE.
pub(crate) fn kind_of(argument: u64) -> Option<DigestKind>
    ensures { result ≡ kind_of argument }
{
    match argument {
        15 => Some(DigestKind::Sha256),
        42 => Some(DigestKind::Sha384),
        43 => Some(DigestKind::Sha512),
        _ => None,
    }
}

/// The hash function whose digests are `length` bytes long.
pub fn kind_of_length(length: usize) -> Option<DigestKind>
    ensures is { result ≡ kind_of_length length }
    ensures size { IfSome result (λ kind. length ≡ size_of kind) }
{
    match length {
        32 => Some(DigestKind::Sha256),
        48 => Some(DigestKind::Sha384),
        64 => Some(DigestKind::Sha512),
        _ => None,
    }
}
