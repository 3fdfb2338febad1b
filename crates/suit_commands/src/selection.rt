//! Which components the following commands are executed for.

use crate::IndexList;

/// The argument of a set component index (draft-ietf-suit-manifest-25, section 8.4.10.1).
#[derive(Debug, Drop)]
pub enum Selection {
    /// The component with this index.
    One(u32),
    /// Every component of the manifest, in ascending order.
    All,
    /// These components, in this order. An index may occur more than once.
    Listed(IndexList),
}
