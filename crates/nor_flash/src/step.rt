//! The calls that a device in memory remembers.

use det_cbor::Bytes;

/// Bytes that were programmed from `place` on.
#[derive(Debug, Drop)]
pub(crate) struct Program {
    pub(crate) place: usize,
    pub(crate) bytes: Bytes,
}

/// `size` bytes from `place` on.
#[derive(Debug, Drop)]
pub(crate) struct Span {
    pub(crate) place: usize,
    pub(crate) size: usize,
}

/// A call that changed a device.
#[derive(Debug, Drop)]
pub(crate) enum Step {
    Programmed(Program),
    /// This block was erased.
    Erased(usize),
    /// A call failed, and spoiled every second byte of the range.
    Spoiled(Span),
}
