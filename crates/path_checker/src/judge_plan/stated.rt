//! What an image match is for: a digest and a size.

ghost use Rattle.std.specs.Prelude.{◌≡◌, ◌↔◌, IsTrue};
ghost use Rattle.std.specs.Option.{option_copied};
ghost use Rattle.suit_params.specs.InForce.{number_of, digest_of};
ghost use Rattle.path_checker.specs.Matches.{stated_by, IsStated};

use crate::judge_plan::same_param::same_digest;
use suit_params::{HashedDigest, Param, number_of};

/// A digest, and a size if there is one.
#[derive(Clone, Copy)]
pub(crate) struct Stated<'a> {
    pub digest: &'a HashedDigest,
    pub size: Option<u64>,
}

impl<'a> Stated<'a> {
    /// What two parameters in force state, if the first one is a digest.
    pub(crate) fn by(digest: Option<&'a Param>, size: Option<&'a Param>) -> Option<Stated<'a>>
        ensures { IsStated (digest_of (option_copied digest.entry))
            (number_of (option_copied size.entry)) result }
    {
        match digest? {
            Param::Digest(digest) => Some(Stated {
                digest: digest.hashed(),
                size: number_of(size),
            }),
            _ => None,
        }
    }

    /// Whether both state the same.
    pub(crate) fn is(&self, other: Stated<'_>) -> bool
        ensures { IsTrue result ↔ (stated_by self.now ≡ stated_by other.entry) }
    {
        self.size == other.size && same_digest(self.digest.get(), other.digest.get())
    }
}
