//! The launches so far.

use det_cbor::{Bytes, List};

/// A launch of an image.
#[derive(Debug, Drop)]
pub struct Launch {
    /// The index of the component in the manifest.
    pub component: u32,
    /// The bytes of the image.
    pub bytes: Bytes,
    /// The digest that the component's parameters name, if any.
    pub digest: Option<Bytes>,
    /// The size in bytes that they name, if any.
    pub size: Option<u64>,
    /// The arguments that they name, if any.
    pub args: Option<Bytes>,
}

/// Launches, oldest first.
pub type Launches = List<Launch>;
