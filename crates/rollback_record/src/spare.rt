//! The record page that may be overwritten.

use flash_layout::Record;
use suit_edge::Gate;

/// The record page that the next record is written to, as it was read.
#[derive(Clone, Copy, Debug, PartialEq, Eq)]
pub struct Spare {
    /// Which of the two pages it is, 0 or 1.
    pub which: u64,
    /// What its gate reads.
    pub gate: Gate,
}

/// Both record pages, as they were read.
#[derive(Clone, Copy, Debug, PartialEq, Eq)]
pub struct RecordPages {
    /// The record, if a page is valid.
    pub held: Option<Record>,
    /// The page that does not hold the record.
    pub spare: Spare,
}
