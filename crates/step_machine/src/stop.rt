//! How a procedure is stopped.

use path_model::Cause;

/// Why a sequence stopped before its end.
#[derive(Clone, Copy, Debug, PartialEq, Eq)]
pub enum Stop {
    /// A condition failed at this place in the envelope, in a sequence that had this soft failure.
    Condition { place: u64, soft_failure: bool },
    /// A directive failed at this place in the envelope, or a fault of the outside came in a condition there.
    Directive { place: u64, cause: Cause },
}
