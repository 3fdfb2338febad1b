//! The failed conditions that are kept. A failure that nothing goes on from is never stored.

ghost use Rattle.std.specs.Prelude.{◌≡◌, false, [], ◌∷◌, ◌++◌, IsTrue, OnOk, IfOk};
ghost use Rattle.path_checker.specs.Exploring.{Failures as TheFailures, keeps, after_stops};
ghost use Rattle.path_checker.specs.Merging.{Settles};
ghost use Rattle.path_checker.specs.Steps.{knowing, stopped_after};

use crate::judge_plan::facts::Facts;
use crate::judge_plan::happened::Ended;
use crate::judge_plan::kept::{Kept, Stopped};
use crate::judge_plan::memory::Memory;
use crate::judge_plan::merged::settled;
use std::alloc::{AllocError, Global};
use std::marker::Model;

/// Failed conditions, and which further ones to keep: those with soft failure, those without, or both.
#[derive(Drop)]
pub(crate) struct Failures<'a> {
    pub list: Vec<Stopped<'a>>,
    soft: bool,
    hard: bool,
}

impl<'a> Model for Failures<'a> {
    ghost Value = { TheFailures };

    ghost view = { λ a. record { items = a.list.items; soft = a.soft; hard = a.hard } };
}

impl<'a> Failures<'a> {
    /// No failures yet. Those with soft failure are kept if `soft` is set, and those without if `hard` is.
    pub(crate) fn none(alloc: Global, soft: bool, hard: bool) -> Failures<'a>
        ensures { result ≡ record { items = []; soft = soft; hard = hard } }
    {
        Failures {
            list: Vec::new(alloc),
            soft,
            hard,
        }
    }

    /// No failures yet, with the same choice of which to keep.
    pub(crate) fn none_like(&self, alloc: Global) -> Failures<'a>
        ensures { result ≡ record { items = []; soft = self.now.soft; hard = self.now.hard } }
    {
        Failures::none(alloc, self.soft, self.hard)
    }

    /// Whether a condition that fails under this soft failure is kept.
    pub(crate) fn keeps(&self, soft_failure: bool) -> bool
        ensures { result ≡ keeps self.now soft_failure }
    {
        if soft_failure { self.soft } else { self.hard }
    }

    /// Whether no further failure is kept.
    pub(crate) fn keeps_none(&self) -> bool
        ensures soft { IsTrue result → self.now.soft ≡ false }
        ensures hard { IsTrue result → self.now.hard ≡ false }
    {
        !self.soft && !self.hard
    }

    /// Adds a failure, if it is to be kept.
    pub(crate) fn add(&mut self, stop: Stopped<'a>) -> Result<(), AllocError>
        ensures { OnOk result (self.new ≡ after_stops self.old (stop.entry ∷ [])) }
    {
        let soft_failure = stop.soft_failure;
        if self.keeps(soft_failure) {
            self.list.push(stop)?;
        }
        Ok(())
    }

    /// Appends failures that were kept by the same choice. Does not allocate if there were none before.
    pub(crate) fn join(&mut self, others: Failures<'a>) -> Result<(), AllocError>
        ensures { OnOk result
            (self.new
            ≡ record {
              items = self.old.items ++ others.entry.items;
              soft = self.old.soft;
              hard = self.old.hard;
            }) }
    {
        let mut list = others.list;
        if self.list.is_empty() {
            self.list = list;
            return Ok(());
        }
        self.list.append(&mut list)?;
        Ok(())
    }

    /// Merges the failures once there are at least twice as many as the last merge left. `left` holds that number.
    pub(crate) fn settled(
        self,
        memory: Memory<'a>,
        left: &mut usize,
    ) -> Result<Failures<'a>, AllocError>
        ensures { IfOk result (λ v. Settles self.entry v) }
    {
        let list = settled(memory, self.list, left)?;
        Ok(Failures {
            list,
            soft: self.soft,
            hard: self.hard,
        })
    }
}

/// Turns a state into the failure that ends it.
pub(crate) fn failed_at<'a>(k: Kept<'a>, place: u64, ended: Ended) -> Stopped<'a>
    ensures { result ≡ stopped_after k.entry ended place }
{
    Stopped {
        facts: k.facts,
        history: k.history,
        ended,
        place,
        soft_failure: k.soft_failure,
    }
}

/// Ends a state in a failed condition.
pub(crate) fn stop<'a>(
    k: Kept<'a>,
    place: u64,
    ended: Ended,
    failed: &mut Failures<'a>,
) -> Result<(), AllocError>
    ensures { OnOk result
        (failed.new ≡ after_stops failed.old (stopped_after k.entry ended place ∷ [])) }
{
    failed.add(failed_at(k, place, ended))
}

/// Ends a copy of a state in a failed condition, since the state itself may go on too.
pub(crate) fn stop_also<'a>(
    memory: Memory<'a>,
    k: &Kept<'a>,
    place: u64,
    ended: Ended,
    failed: &mut Failures<'a>,
) -> Result<(), AllocError>
    ensures { OnOk result
        (failed.new ≡ after_stops failed.old (stopped_after k.now ended place ∷ [])) }
{
    if failed.keeps(k.soft_failure) {
        stop(k.copy(memory)?, place, ended, failed)?;
    }
    Ok(())
}

/// Ends a copy of a state in a failed condition, under other facts.
pub(crate) fn stop_knowing<'a>(
    memory: Memory<'a>,
    k: &Kept<'a>,
    facts: Facts,
    place: u64,
    ended: Ended,
    failed: &mut Failures<'a>,
) -> Result<(), AllocError>
    ensures { OnOk result
        (failed.new
        ≡ after_stops failed.old (stopped_after (knowing k.now facts) ended place ∷ [])) }
{
    if failed.keeps(k.soft_failure) {
        stop(k.copy_with(memory, facts)?, place, ended, failed)?;
    }
    Ok(())
}
