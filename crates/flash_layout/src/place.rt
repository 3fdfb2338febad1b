//! The places of components in a layout.

/// The most components that a manifest may have.
pub const MAX_COMPONENTS: usize = 8;

/// The index in the layout of each component of a manifest, and 0 after the last one.
#[derive(Clone, Copy, Debug, PartialEq, Eq)]
pub struct Places {
    /// How many components the manifest has.
    pub count: u32,
    pub layout_index: [u32; MAX_COMPONENTS],
}

/// A component that the layout does not have, by its index in the manifest.
#[derive(Clone, Copy, Debug, PartialEq, Eq)]
pub struct Unknown {
    pub component: u32,
}
