//! Events of a path.

use det_cbor::{Duplicate, List};
use std::alloc::{AllocError, Global};
use suit_commands::TestKind;
use suit_params::{Digest, Param};

/// An event of a path.
#[derive(Debug, Drop)]
pub enum Event {
    /// A parameter of the component was set.
    Set {
        component: u32,
        param: Param,
    },
    /// A condition other than an image match was tried.
    Tried {
        component: u32,
        kind: TestKind,
        passed: bool,
    },
    /// The component's content matched the digest and size in force.
    Matched {
        component: u32,
        digest: Digest,
        size: Option<u64>,
    },
    /// The component's content did not match, or no digest was in force.
    Missed {
        component: u32,
    },
    /// The component's content was written, in whole or in part.
    Wrote {
        component: u32,
    },
    /// The component was invoked, with the digest and size in force. `passed` says whether that succeeded.
    Invoked {
        component: u32,
        digest: Option<Digest>,
        size: Option<u64>,
        passed: bool,
    },
    /// The command at this place in the envelope failed.
    Failed {
        place: u64,
    },
}

impl Duplicate for Event {
    fn copy(&self, alloc: Global) -> Result<Event, AllocError> {
        Ok(match self {
            Event::Set { component, param } => Event::Set {
                component: *component,
                param: param.copy(alloc)?,
            },
            Event::Tried {
                component,
                kind,
                passed,
            } => Event::Tried {
                component: *component,
                kind: *kind,
                passed: *passed,
            },
            Event::Matched {
                component,
                digest,
                size,
            } => Event::Matched {
                component: *component,
                digest: *digest,
                size: *size,
            },
            Event::Missed { component } => Event::Missed {
                component: *component,
            },
            Event::Wrote { component } => Event::Wrote {
                component: *component,
            },
            Event::Invoked {
                component,
                digest,
                size,
                passed,
            } => Event::Invoked {
                component: *component,
                digest: *digest,
                size: *size,
                passed: *passed,
            },
            Event::Failed { place } => Event::Failed { place: *place },
        })
    }
}

/// A list of events.
pub type Events = List<Event>;
