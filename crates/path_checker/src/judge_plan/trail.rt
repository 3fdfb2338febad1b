//! Which failed conditions a state passed over. With these one path that leads to it is known.

ghost use Rattle.std.specs.Prelude.{◌≡◌, ◌+◌, ◌%◌, ◌^◌, IfOk, OnOk, OnErr};
ghost use Rattle.path_checker.specs.Happening.{event_of};
ghost use Rattle.path_checker.specs.Trails.{no_trail, trail_after};

use crate::judge_plan::happened::Happened;
use std::alloc::{AllocError, Global};
use std::marker::Model;

/// How many events a state has, without those that set a parameter, and how many come before each failed condition.
#[derive(Drop)]
pub(crate) struct Trail {
    events: u64,
    misses: Vec<u64>,
}

impl Model for Trail {
    ghost use Rattle.path_checker.specs.Trails.{Trail as TheTrail};

    ghost Value = { TheTrail };

    ghost view = { λ a. record { events = a.events; misses = a.misses.items } };
}

impl Trail {
    /// No events. Does not allocate.
    pub(crate) fn new(alloc: Global) -> Trail
        ensures { result ≡ no_trail }
    {
        Trail {
            events: 0,
            misses: Vec::new(alloc),
        }
    }

    /// A copy.
    pub(crate) fn copy(&self, alloc: Global) -> Result<Trail, AllocError>
        ensures { IfOk result (λ trail. trail ≡ self.now) }
    {
        let misses = Vec::from_slice(alloc, &self.misses)?;
        Ok(Trail {
            events: self.events,
            misses,
        })
    }

    /// Adds an event.
    pub(crate) fn add(&mut self, event: Happened<'_>) -> Result<(), AllocError>
        ensures ok { OnOk result (self.new ≡ trail_after self.old (event_of event.entry)) }
        ensures err { OnErr result (self.new ≡ self.old) }
    {
        if event.is_miss() {
            self.misses.push(self.events)?;
        }
        self.events = self.events.wrapping_add(1);
        Ok(())
    }

    /// Counts a write.
    pub(crate) fn count(&mut self)
        ensures { self.new ≡ record self.old { events = (self.old.events + 1) % 2 ^ 64 } }
    {
        self.events = self.events.wrapping_add(1);
    }

    /// The number of the next condition: no two of a path have the same one.
    pub(crate) fn number(&self) -> u64
        ensures { result ≡ self.now.events }
    {
        self.events
    }

    /// The numbers of the failed conditions, in order.
    pub(crate) fn into_misses(self) -> Vec<u64>
        ensures { result.items ≡ self.misses }
    {
        self.misses
    }
}
