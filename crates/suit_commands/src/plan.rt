//! The procedures of a manifest.

use crate::Sequence;

/// A procedure: its three members in their order, the shared sequence that is run before each of
/// them, and the number of components. An absent sequence counts as empty.
#[derive(Clone, Copy, Debug)]
pub struct Plan<'a> {
    pub shared: Option<&'a Sequence>,
    pub first: Option<&'a Sequence>,
    pub second: Option<&'a Sequence>,
    pub third: Option<&'a Sequence>,
    pub count: u32,
}
