//! What a match remembers: its fingerprint once that is computed, and before that where it was last put in a list. This
//! only decides how fast a match is found.

use crate::judge_plan::fingerprint::mixed;
use crate::judge_plan::stated::Stated;
use std::hash::Hasher;
use suit_params::Digest;

// The index is above this many bits.
const SHIFT: u32 = 5;

// Indices from here on are not kept. They would not fit.
const MOST: usize = 0x03ff_ffff;

/// A fingerprint, or where a match was last put in a list.
#[derive(Clone, Copy)]
pub(crate) struct Mark {
    // The last bit is set in a fingerprint.
    bits: u32,
}

// The bits below the index in a list of a component.
fn low_bits(component: usize) -> u32 {
    ((component % 16) as u32) << 1
}

impl Mark {
    /// Neither a fingerprint nor a place.
    pub(crate) fn nowhere() -> Mark {
        Mark { bits: u32::MAX - 1 }
    }

    /// A fingerprint. Its 31 highest bits are kept.
    pub(crate) fn printed(print: u64) -> Mark {
        Mark {
            bits: (print >> 32) as u32 | 1,
        }
    }

    /// An index in a list of a component, unless it is too large.
    pub(crate) fn put(component: usize, index: usize) -> Mark {
        if index >= MOST {
            return Mark::nowhere();
        }
        Mark {
            bits: (index as u32) << SHIFT | low_bits(component),
        }
    }

    /// All bits, spread over 64.
    pub(crate) fn spread(self) -> u64 {
        mixed(mixed(u64::from(self.bits), 0), 1)
    }

    /// The fingerprint, if it is one.
    pub(crate) fn print(self) -> Option<u64> {
        if self.bits & 1 == 1 {
            Some(self.spread())
        } else {
            None
        }
    }

    // Whether it is an index in a list of this component.
    fn is_at(self, component: usize) -> bool {
        self.bits % (1 << SHIFT) == low_bits(component)
    }

    /// The index, if it is one in a list of this component, and otherwise an index past any list.
    pub(crate) fn index(self, component: usize) -> usize {
        if self.is_at(component) {
            (self.bits >> SHIFT) as usize
        } else {
            usize::MAX
        }
    }

    /// Whether it may become an index in a list of this component: no fingerprint and no index for another component is
    /// lost.
    pub(crate) fn is_free(self, component: usize) -> bool {
        self.is_at(component) || self.bits == u32::MAX - 1
    }

    /// Whether two matches may be the same, by their fingerprints.
    pub(crate) fn may_be(self, other: Mark) -> bool {
        self.bits & other.bits & 1 == 0 || self.bits == other.bits
    }
}

/// The fingerprint of a match, by SipHash: many matches whose 31 highest bits are the same are hard to find, and cannot
/// be sought before the salt is known.
pub(crate) fn print_of(stated: Stated<'_>, salt: u64) -> u64 {
    let mut hasher = stated.digest.hasher();
    hasher.write_u64(match stated.size {
        Some(size) => size ^ salt,
        None => salt.rotate_left(1),
    });
    hasher.finish()
}

/// A quick hash of a match. The digest is mixed with the salt before the size is, so that no two sizes make up for what
/// two digests differ in, and all is mixed once more, so that the high bits of a size reach the low ones.
pub(crate) fn number_of(stated: Stated<'_>, salt: u64) -> u64 {
    let digest = mixed(stated.digest.hasher().finish(), salt);
    mixed(mixed(digest, stated.size.unwrap_or(0)), salt)
}

/// A bit of a digest. Past the last one they start over.
pub(crate) fn bit_of(digest: &Digest, depth: u32) -> Option<bool> {
    let bytes = digest.bytes();
    let place = (depth as usize / 8).checked_rem(bytes.len())?;
    let byte = bytes.get(place)?;
    Some((*byte >> (depth % 8)) & 1 == 1)
}
