//! What reading a sequence needs to know.

use std::alloc::Global;

/// The allocator of a sequence, how many levels of sequences may be inside it, whether it is the
/// shared one, and the number of components.
#[derive(Clone, Copy)]
pub(crate) struct Scope {
    pub(crate) alloc: Global,
    pub(crate) levels: u8,
    pub(crate) shared: bool,
    pub(crate) count: u32,
}
