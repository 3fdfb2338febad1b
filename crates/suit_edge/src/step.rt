//! The calls that a disk in memory remembers.

use det_cbor::Bytes;

/// Bytes that were written from a place on.
#[derive(Debug, Drop)]
pub(crate) struct Write {
    pub(crate) place: usize,
    pub(crate) bytes: Bytes,
}

/// A call that changed a disk.
#[derive(Debug, Drop)]
pub(crate) enum Step {
    Wrote(Write),
    Synced,
}
