//! The two procedures of a manifest.

/// One of the two procedures of a manifest.
#[derive(Clone, Copy, Debug, PartialEq, Eq)]
pub enum Procedure {
    /// Payload-fetch, install and validate.
    Update,
    /// Validate, load and invoke.
    Invocation,
}
