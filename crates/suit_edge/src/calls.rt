//! Counts of the calls on an object in memory.

ghost use Rattle.std.specs.Prelude.{◌≡◌, IfOk};
ghost use Rattle.std.specs.Bool.{OnTrue, OnFalse};
ghost use Rattle.suit_edge.specs.Calls.{CallCounts, FailsByList, Succeeds, uncalled};
ghost use Rattle.suit_edge.specs.Faults.{Faulted, counted};

use std::alloc::{AllocError, Global};
use std::marker::Model;

/// The numbers of the calls that fail, counted from 0, and the counts so far.
#[derive(Debug, Drop)]
pub(crate) struct Calls {
    fails: Vec<u64>,
    number: u64,
    faults: u64,
    starved: u64,
}

impl Model for Calls {
    ghost Value = { CallCounts };

    ghost view = { λ c.
        record {
          fails = c.fails.items;
          number = c.number;
          faults = c.faults;
          starved = c.starved;
        } };
}

impl Calls {
    /// No calls so far; those with these numbers will fail.
    pub(crate) fn new(alloc: Global, fails: &[u64]) -> Result<Calls, AllocError>
        ensures { IfOk result (λ calls. calls ≡ uncalled fails.now) }
    {
        Ok(Calls {
            fails: fails.to_vec(alloc)?,
            number: 0,
            faults: 0,
            starved: 0,
        })
    }

    /// Counts a call, and returns whether it is one that fails.
    pub(crate) fn next_fails(&mut self) -> bool
        ensures passes { OnFalse result (Succeeds self.old self.new) }
        ensures fails { OnTrue result (FailsByList self.old self.new) }
    {
        let number = self.number;
        self.number = number.saturating_add(1);
        let fails = self.fails.contains(&number);
        if fails {
            self.faults = self.faults.saturating_add(1);
        }
        fails
    }

    /// Records that memory ran out in the call that was counted last.
    pub(crate) fn starve(&mut self)
        ensures counts { self.new
            ≡ record self.old
            { faults = counted self.old.faults; starved = counted self.old.starved } }
        ensures faulted { Faulted self.old.faults self.new.faults }
        ensures rose { Faulted self.old.starved self.new.starved }
    {
        self.faults = self.faults.saturating_add(1);
        self.starved = self.starved.saturating_add(1);
    }

    /// How often memory ran out.
    pub(crate) fn starved(&self) -> u64
        ensures { result ≡ self.now.starved }
    {
        self.starved
    }
}
