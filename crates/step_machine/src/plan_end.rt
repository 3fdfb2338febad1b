//! How a procedure ends.

use path_model::Cause;

/// How a procedure ended. The place is the byte offset in the envelope of the innermost command that failed, or of a
/// try each in which no sequence completed.
#[derive(Clone, Copy, Debug, PartialEq, Eq)]
pub enum PlanEnd {
    /// Every command is done.
    Done,
    /// A condition failed.
    ConditionFailed { place: u64 },
    /// A directive failed, or a fault of the outside came in a condition.
    DirectiveFailed { place: u64, cause: Cause },
}
