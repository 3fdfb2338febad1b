//! A head in its shortest form, held without allocating.

ghost use Rattle.std.specs.Prelude.{◌≡◌, ◌∷◌, ◌<◌};
ghost use Rattle.det_cbor.specs.HeadSpelling.{spelled, IsValueOf};
ghost use Rattle.det_cbor.specs.Heads.{head_bytes};
ghost use Rattle.det_cbor.specs.ShortHeads.{bytes_behind};

use crate::head_writing::{argument, major_type};
use crate::{Head, HeadKind};
use std::marker::Model;

// The bytes after the first one.
#[derive(Debug, Drop)]
pub(crate) enum Behind {
    Nothing,
    One([u8; 1]),
    Two([u8; 2]),
    Four([u8; 4]),
    Eight([u8; 8]),
}

/// A head in its shortest form (RFC 8949, section 4.2.1): one to nine bytes. Allocates nothing.
#[derive(Debug, Drop)]
pub struct ShortHead {
    first: u8,
    behind: Behind,
}

impl Model for ShortHead {
    ghost use Rattle.std.specs.Prelude.{List, ℕ};

    ghost Value = { List ℕ };

    ghost use Rattle.det_cbor.specs.ShortHeads.{short_bytes};

    ghost view = { λ h. short_bytes h.first h.behind };
}

// The shortest head of a major type and an argument.
#[tactic(auto, unfolding(crate::specs::Heads::head_bytes))]
fn shortest(major: u8, argument: u64) -> ShortHead
    requires { major < 8 }
    ensures { result ≡ head_bytes major argument }
{
    let first = 32 * major;
    if argument < 24 {
        let first = first + argument as u8;
        let behind = Behind::Nothing;
        ShortHead { first, behind }
    } else if argument < 1 << 8 {
        let first = first + 24;
        let behind = Behind::One((argument as u8).to_be_bytes());
        ShortHead { first, behind }
    } else if argument < 1 << 16 {
        let first = first + 25;
        let behind = Behind::Two((argument as u16).to_be_bytes());
        ShortHead { first, behind }
    } else if argument < 1 << 32 {
        let first = first + 26;
        let behind = Behind::Four((argument as u32).to_be_bytes());
        ShortHead { first, behind }
    } else {
        let first = first + 27;
        let behind = Behind::Eight(argument.to_be_bytes());
        ShortHead { first, behind }
    }
}

fn slice_of(behind: &Behind) -> &[u8]
    ensures { result.now ≡ bytes_behind behind.now }
{
    match behind {
        Behind::Nothing => &[],
        Behind::One(bytes) => bytes,
        Behind::Two(bytes) => bytes,
        Behind::Four(bytes) => bytes,
        Behind::Eight(bytes) => bytes,
    }
}

impl ShortHead {
    /// The head of this kind and value.
    pub fn new(kind: HeadKind, value: u64) -> ShortHead
        requires { IsValueOf kind value }
        ensures { result ≡ spelled (record { kind = kind; value = value }) }
    {
        shortest(major_type(kind), argument(Head { kind, value }))
    }

    /// The first byte, and the bytes after it.
    pub fn parts(&self) -> (u8, &[u8])
        ensures { self.now ≡ result.0 ∷ result.1.now }
    {
        (self.first, slice_of(&self.behind))
    }
}
