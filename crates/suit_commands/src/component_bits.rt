//! Sets of components.

/// A set of a manifest's components, each of which has its bit set at its index. No other bit is
/// set.
#[derive(Clone, Copy, Debug, PartialEq, Eq)]
pub struct Targets {
    pub bits: u32,
}
