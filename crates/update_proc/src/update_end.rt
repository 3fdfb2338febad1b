//! How an update ends.

use flash_layout::Record;
use path_model::Cause;
use suit_params::Digest;

/// How an update ended. Places are byte offsets in the envelope.
#[derive(Clone, Copy, Debug, PartialEq, Eq)]
pub enum UpdateEnd {
    /// The procedure is done, and this record is committed.
    Installed(Record),
    /// The sequence number of the manifest is below the recorded one.
    Lower { recorded: u64, offered: u64 },
    /// The sequence number of the manifest is the recorded one, but its digest is another.
    OtherDigest { recorded: Digest, offered: Digest },
    /// The generation of the held record is the last one, so no record can follow.
    Worn,
    /// A condition failed.
    Condition { place: u64 },
    /// A directive failed, or a fault of the outside stopped the procedure there.
    Stopped { place: u64, cause: Cause },
    /// The flash failed before or after the procedure.
    FlashFault,
    /// Memory ran out. The flash is as it was.
    NoMemory,
}
