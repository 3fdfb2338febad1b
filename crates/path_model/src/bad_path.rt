//! A path that shows that a procedure is not safe.

use crate::{Events, Identities};

/// A path whose last event is its first uncovered invoke, and identities for which it is a path.
#[derive(Debug, Drop)]
pub struct BadPath {
    pub identities: Identities,
    pub events: Events,
}
