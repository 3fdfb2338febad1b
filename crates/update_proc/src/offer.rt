//! An update to be installed.

use flash_layout::MOST_ENTRIES;
use suit_params::Digest;

/// The fields of an update's record that are known before it is installed.
#[derive(Clone, Copy, Debug, PartialEq, Eq)]
pub struct Offer {
    /// The sequence number of the manifest.
    pub sequence: u64,
    /// The digest of the manifest.
    pub digest: Digest,
    /// The slot of each component of the layout that is to be in use, and 0 after the last.
    pub active: [u8; MOST_ENTRIES],
}
