//! The parts of the flash other than the configuration.

use crate::frame::MOST_ENTRIES;
use suit_params::Digest;

/// A range of the flash that holds a component's content: the content's length, and then room for
/// `capacity` bytes.
#[derive(Clone, Copy, Debug, PartialEq, Eq)]
pub struct Slot {
    /// The first place of the slot, in bytes.
    pub start: u64,
    /// The most bytes of content that it holds.
    pub capacity: u64,
}

/// A call of the flash failed, and its count of faults rose.
#[derive(Clone, Copy, Debug, PartialEq, Eq)]
pub struct FlashFault;

/// The manifest that is installed.
#[derive(Clone, Copy, Debug, PartialEq, Eq)]
pub struct Record {
    /// The number of the record. Each one that is committed has one more.
    pub generation: u64,
    /// The sequence number of the manifest.
    pub sequence: u64,
    /// The bank that holds the envelope, 0 or 1.
    pub bank: u8,
    /// The length of the envelope in bytes.
    pub length: u64,
    /// The digest of the manifest.
    pub digest: Digest,
    /// The slot that each component of the layout uses, 0 or 1; 0 after the last component.
    pub active: [u8; MOST_ENTRIES],
}
