//! Events of a path, which borrow from the procedure.

ghost use Rattle.std.specs.Prelude.{◌≡◌};
ghost use Rattle.path_checker.specs.Happening.{event_of};
ghost use Rattle.path_checker.specs.Trails.{is_miss};

use crate::judge_plan::matches::Match;
use path_model::Event;
use suit_commands::TestKind;
use suit_params::Digest;

/// An event of a path, with its digest borrowed from the procedure. Those of overrides are told together (`Told`).
#[derive(Clone, Copy)]
pub(crate) enum Happened<'a> {
    Tried {
        component: u32,
        kind: TestKind,
        passed: bool,
    },
    Matched {
        component: u32,
        own: &'a Match<'a>,
    },
    Missed {
        component: u32,
    },
    Wrote {
        component: u32,
    },
    /// An invoke that a match covers.
    Covered {
        component: u32,
        own: &'a Match<'a>,
    },
    /// An invoke that no match covers.
    Uncovered {
        component: u32,
        digest: Option<&'a Digest>,
        size: Option<u64>,
    },
    Failed {
        place: u64,
    },
}

/// How a sequence failed: by a condition, or by a try each whose branches had all failed.
#[derive(Clone, Copy)]
pub(crate) enum Ended {
    Tried { component: u32, kind: TestKind },
    Missed { component: u32 },
    Exhausted,
}

impl<'a> Happened<'a> {
    /// Whether it is a failed condition.
    pub(crate) fn is_miss(&self) -> bool
        ensures { result ≡ is_miss (event_of self.now) }
    {
        match *self {
            Happened::Tried { passed, .. } => !passed,
            Happened::Missed { .. } => true,
            _ => false,
        }
    }

    /// The event, with its own copy of the digest.
    pub(crate) fn told(&self) -> Event
        ensures { result ≡ event_of self.now }
    {
        match *self {
            Happened::Tried {
                component,
                kind,
                passed,
            } => Event::Tried {
                component,
                kind,
                passed,
            },
            Happened::Matched { component, own } => own.told(component),
            Happened::Missed { component } => Event::Missed { component },
            Happened::Wrote { component } => Event::Wrote { component },
            Happened::Covered { component, own } => own.invoked(component),
            Happened::Uncovered {
                component,
                digest,
                size,
            } => Event::Invoked {
                component,
                digest: digest.copied(),
                size,
                passed: false,
            },
            Happened::Failed { place } => Event::Failed { place },
        }
    }
}
