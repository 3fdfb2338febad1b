//! The states that a judgement keeps.

ghost use Rattle.std.specs.Prelude.{◌≡◌, [], ◌∷◌, ◌++◌, IsTrue, IfOk, OnOk};
ghost use Rattle.path_model.specs.Following.{SameMatches};
ghost use Rattle.path_checker.specs.Exploring.{Kept as TheKept, Stopped as TheStopped, kept_if, kept_of, state_of};
ghost use Rattle.path_checker.specs.Happening.{event_of, after_end};
ghost use Rattle.path_checker.specs.Merging.{SameState, SameStop};
ghost use Rattle.path_checker.specs.Steps.{with_events, knowing};

use crate::judge_plan::facts::Facts;
use crate::judge_plan::fingerprint::mixed;
use crate::judge_plan::happened::{Ended, Happened};
use crate::judge_plan::history::History;
use crate::judge_plan::in_force::InForce;
use crate::judge_plan::memory::Memory;
use crate::judge_plan::selected::Selected;
use std::alloc::AllocError;
use std::marker::Model;

/// A state, what is known of the identities in it, and the history that led to it.
#[derive(Drop)]
pub(crate) struct Kept<'a> {
    pub facts: Facts,
    pub history: History<'a>,
    pub params: InForce<'a>,
    pub selection: Selected<'a>,
    pub soft_failure: bool,
}

impl<'a> Model for Kept<'a> {
    ghost Value = { TheKept };

    ghost view = { λ a. kept_of a.facts a.history (state_of a.params a.selection a.soft_failure) };
}

/// A failed condition: the history before it, how and where it failed, and the soft failure of its sequence.
#[derive(Drop)]
pub(crate) struct Stopped<'a> {
    pub facts: Facts,
    pub history: History<'a>,
    pub ended: Ended,
    pub place: u64,
    pub soft_failure: bool,
}

impl<'a> Model for Stopped<'a> {
    ghost Value = { TheStopped };

    ghost view = { λ a. record {
      facts = a.facts;
      events = after_end a.history a.ended a.place;
      place = a.place;
      soft_failure = a.soft_failure;
    } };
}

/// A state or a failure. Of those that are the same, one stands for all.
pub(crate) trait Standing: Drop {
    ghost same: { Self → Self → Type 0 };

    /// Whether both are the same, apart from their place and from how they were reached.
    fn is_same(&self, other: &Self) -> bool
        ensures { IsTrue result → same self.now other.now };

    /// A fingerprint. Those that are the same have equal ones, unless memory runs out.
    fn fingerprint(&self, salt: u64) -> u64;

    /// An estimate of what a comparison costs: 1 for each match, each value ruled out, and each 64 bytes of parameters.
    fn cost(&self) -> u64;
}

impl<'a> Stopped<'a> {
    // Whether the same matches stand.
    fn same_matches(&self, other: &Stopped<'a>) -> bool
        ensures { IsTrue result → SameMatches self.now.events other.now.events }
    {
        self.history.same_matches(&other.history)
    }
}

impl<'a> Standing for Stopped<'a> {
    ghost same = { SameStop };

    fn is_same(&self, other: &Stopped<'a>) -> bool {
        self.soft_failure == other.soft_failure
            && self.facts.is_same(&other.facts)
            && self.same_matches(other)
    }

    fn fingerprint(&self, salt: u64) -> u64 {
        mixed(
            mixed(self.soft_failure as u64, self.facts.fingerprint()),
            self.history.fingerprint(salt),
        )
    }

    fn cost(&self) -> u64 {
        self.history.cost().saturating_add(self.facts.cost())
    }
}

impl<'a> Standing for Kept<'a> {
    ghost same = { SameState };

    fn is_same(&self, other: &Kept<'a>) -> bool {
        self.soft_failure == other.soft_failure
            && self.selection.is_same(&other.selection)
            && self.facts.is_same(&other.facts)
            && self.params.is_same(&other.params)
            && self.history.same_matches(&other.history)
    }

    fn fingerprint(&self, salt: u64) -> u64 {
        let count = self.facts.as_slice().len();
        let known = mixed(
            self.facts.fingerprint(),
            self.params.fingerprint(count, salt),
        );
        mixed(
            mixed(self.soft_failure as u64, known),
            self.history.fingerprint(salt),
        )
    }

    fn cost(&self) -> u64 {
        let known = self.history.cost().saturating_add(self.facts.cost());
        known.saturating_add(self.params.cost())
    }
}

impl<'a> Kept<'a> {
    /// A copy of the state.
    pub(crate) fn copy(&self, memory: Memory<'a>) -> Result<Kept<'a>, AllocError>
        ensures { IfOk result (λ k. k ≡ self.now) }
    {
        let facts = self.facts.copy()?;
        self.copy_with(memory, facts)
    }

    /// A copy of the state with other facts.
    pub(crate) fn copy_with(&self, memory: Memory<'a>, facts: Facts) -> Result<Kept<'a>, AllocError>
        ensures { IfOk result (λ k. k ≡ knowing self.now facts) }
    {
        let params = self.params.copy()?;
        let history = self.history.copy(memory)?;
        Ok(Kept {
            facts,
            history,
            params,
            selection: self.selection.copy(),
            soft_failure: self.soft_failure,
        })
    }
}

/// Adds an event to the history of a state.
pub(crate) fn happens<'a>(
    memory: Memory<'a>,
    k: &mut Kept<'a>,
    event: Happened<'a>,
) -> Result<(), AllocError>
    ensures { OnOk result (k.new ≡ with_events k.old (event_of event.entry ∷ [])) }
{
    k.history.add(memory, event)
}

/// Adds an event to the history of a state, if the procedure goes on. Returns whether it does.
pub(crate) fn happens_if<'a>(
    memory: Memory<'a>,
    goes_on: bool,
    k: &mut Kept<'a>,
    event: Happened<'a>,
) -> Result<bool, AllocError>
    ensures { IfOk result
        (λ on. kept_if on k.new ≡ kept_if goes_on (with_events k.old (event_of event.entry ∷ []))) }
{
    if goes_on {
        happens(memory, k, event)?;
    }
    Ok(goes_on)
}

/// Adds an event to the history of a state, and the state to `next`.
pub(crate) fn pass<'a>(
    memory: Memory<'a>,
    k: Kept<'a>,
    event: Happened<'a>,
    next: &mut Vec<Kept<'a>>,
) -> Result<(), AllocError>
    ensures { OnOk result
        (next.new.items ≡ next.old.items ++ with_events k.entry (event_of event.entry ∷ []) ∷ []) }
{
    let mut k = k;
    happens(memory, &mut k, event)?;
    next.push(k)?;
    Ok(())
}

/// Adds a state to `next` if the procedure goes on.
pub(crate) fn add_if<'a>(
    goes_on: bool,
    k: Kept<'a>,
    next: &mut Vec<Kept<'a>>,
) -> Result<(), AllocError>
    ensures { OnOk result (next.new.items ≡ next.old.items ++ kept_if goes_on k.entry) }
{
    if goes_on {
        next.push(k)?;
    }
    Ok(())
}
