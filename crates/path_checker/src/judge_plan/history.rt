//! The history of a state.

ghost use Rattle.std.specs.Prelude.{◌≡◌, ◌↔◌, [], ◌∷◌, ◌++◌, IsTrue, IfSome, IfOk, OnOk};
ghost use Rattle.path_model.specs.Safe.{HasMatched};
ghost use Rattle.path_model.specs.Following.{SameMatches};
ghost use Rattle.path_model.specs.declared.event.Event.TheVariants.{Failed, Wrote};
ghost use Rattle.suit_commands.specs.View.{sequence_tree};
ghost use Rattle.path_checker.specs.Happening.{event_of, after_end, sets_at, sequence_sets, told_by};
ghost use Rattle.path_checker.specs.Matches.{stated_by, match_of};
ghost use Rattle.path_checker.specs.Selecting.{components_of};
ghost use Rattle.path_checker.specs.Standing.{StandsAfter};
ghost use Rattle.path_checker.specs.Trails.{no_trail, trail_after, trail_from};

use crate::judge_plan::happened::{Ended, Happened};
use crate::judge_plan::matches::{Found, Match};
use crate::judge_plan::memory::{LastTold, Memory};
use crate::judge_plan::past::Past;
use crate::judge_plan::selected::Components;
use crate::judge_plan::standing::StandingMatches;
use crate::judge_plan::stated::Stated;
use crate::judge_plan::telling::Told;
use crate::judge_plan::trail::Trail;
use path_model::Events;
use std::alloc::{AllocError, Global};
use std::marker::Model;
use std::mem;
use suit_commands::Step;
use suit_params::ParamList;

/// A match that an invoke asks for, and whether it stands.
#[derive(Clone, Copy)]
pub(crate) struct Asked<'a> {
    pub own: &'a Match<'a>,
    pub stands: bool,
}

/// The events that led to a state, and the matches that stand after them.
#[derive(Drop)]
pub(crate) struct History<'a> {
    past: Past<'a>,
    trail: Trail,
    standing: StandingMatches<'a>,
}

impl<'a> Model for History<'a> {
    ghost use Rattle.std.specs.Prelude.{List};
    ghost use Rattle.path_model.specs.declared.event.Event.{Event};

    ghost Value = { List Event };

    ghost use Rattle.path_checker.specs.Standing.{IsHistory};

    ghost view = { λ a. a.past };

    ghost invariant = { λ a. IsHistory a.standing a.trail a.past };
}

// Updates the matches that stand, after an event.
fn stand_after<'a>(
    memory: Memory<'a>,
    standing: &mut StandingMatches<'a>,
    event: Happened<'a>,
) -> Result<(), AllocError>
    ensures { OnOk result (StandsAfter standing.old (event_of event.entry) standing.new) }
{
    match event {
        Happened::Matched { component, own } => standing.gain(memory, component, own),
        Happened::Wrote { component } => {
            standing.lose(component);
            Ok(())
        }
        _ => Ok(()),
    }
}

// Updates the trail and the matches that stand, after an event.
fn follow<'a>(
    memory: Memory<'a>,
    trail: &mut Trail,
    standing: &mut StandingMatches<'a>,
    event: Happened<'a>,
) -> Result<(), AllocError>
    ensures trail { OnOk result (trail.new ≡ trail_after trail.old (event_of event.entry)) }
    ensures stands { OnOk result (StandsAfter standing.old (event_of event.entry) standing.new) }
{
    trail.add(event)?;
    stand_after(memory, standing, event)
}

impl<'a> History<'a> {
    /// No events and no matches. Events that are added are not recorded. Does not allocate.
    pub(crate) fn new(alloc: Global) -> History<'a>
        ensures { result ≡ [] }
    {
        History {
            past: Past::new(),
            trail: Trail::new(alloc),
            standing: StandingMatches::none(alloc),
        }
    }

    /// No events and no matches. Events that are added are recorded.
    pub(crate) fn recording(alloc: Global) -> Result<History<'a>, AllocError>
        ensures { IfOk result (λ history. history ≡ []) }
    {
        let past = Past::recording(alloc)?;
        Ok(History {
            past,
            trail: Trail::new(alloc),
            standing: StandingMatches::none(alloc),
        })
    }

    /// A copy that shares the matches. Its events are not recorded.
    pub(crate) fn copy(&self, memory: Memory<'a>) -> Result<History<'a>, AllocError>
        ensures { IfOk result (λ history. history ≡ self.now) }
    {
        let past = self.past.copy();
        let trail = self.trail.copy(memory.alloc)?;
        let standing = self.standing.copy(memory.alloc)?;
        Ok(History {
            past,
            trail,
            standing,
        })
    }

    /// Takes the history out of a state that is not used any more.
    pub(crate) fn take(&mut self, alloc: Global) -> History<'a>
        ensures { result ≡ self.old }
    {
        mem::replace(self, History::new(alloc))
    }

    /// Adds an event. If memory runs out, the history may be left empty.
    pub(crate) fn add(&mut self, memory: Memory<'a>, event: Happened<'a>) -> Result<(), AllocError>
        ensures { OnOk result (self.new ≡ self.old ++ event_of event.entry ∷ []) }
    {
        self.past.add(memory.alloc, Told::One(event))?;
        match follow(memory, &mut self.trail, &mut self.standing, event) {
            Ok(()) => Ok(()),
            Err(error) => {
                self.past.clear();
                self.trail = Trail::new(memory.alloc);
                self.standing = StandingMatches::none(memory.alloc);
                Err(error)
            }
        }
    }

    /// Adds the events of an override at some components. These end no match.
    pub(crate) fn add_sets(
        &mut self,
        memory: Memory<'a>,
        components: Components<'a>,
        list: &'a ParamList,
    ) -> Result<(), AllocError>
        ensures { OnOk result
            (self.new ≡ self.old ++ sets_at (components_of components.entry) list.now) }
    {
        self.past
            .add(memory.alloc, Told::Sets { components, list })?;
        Ok(())
    }

    /// Adds the events of a swap, which writes to both components.
    pub(crate) fn add_swap(
        &mut self,
        memory: Memory<'a>,
        component: u32,
        source: u32,
    ) -> Result<(), AllocError>
        ensures { OnOk result
            (self.new ≡ self.old ++ Wrote component ∷ Wrote source ∷ []) }
    {
        self.past
            .add(memory.alloc, Told::Swapped { component, source })?;
        self.trail.count();
        self.trail.count();
        self.standing.lose(component);
        self.standing.lose(source);
        Ok(())
    }

    /// Adds the events of several overrides in a row. These end no match.
    pub(crate) fn add_told(
        &mut self,
        memory: Memory<'a>,
        steps: &[Step],
        components: Components<'_>,
        told: Told<'a>,
    ) -> Result<(), AllocError>
        requires { told_by told
            ≡ sequence_sets (sequence_tree steps.now) (components_of components) }
        ensures { OnOk result
            (self.new
            ≡ self.old
            ++ sequence_sets (sequence_tree steps.now) (components_of components.entry)) }
    {
        self.past.add(memory.alloc, told)?;
        Ok(())
    }

    // Adds an event, and a failure at a place.
    fn add_failure(
        &mut self,
        memory: Memory<'a>,
        event: Happened<'a>,
        place: u64,
    ) -> Result<(), AllocError>
        ensures { OnOk result
            (self.new ≡ self.old ++ event_of event.entry ∷ Failed place ∷ []) }
    {
        self.add(memory, event)?;
        self.add(memory, Happened::Failed { place })
    }

    /// Adds the events of a failed condition at a place.
    pub(crate) fn with_end(
        self,
        memory: Memory<'a>,
        ended: Ended,
        place: u64,
    ) -> Result<History<'a>, AllocError>
        ensures { IfOk result (λ history. history ≡ after_end self.entry ended place) }
    {
        let event = match ended {
            Ended::Tried { component, kind } => Happened::Tried {
                component,
                kind,
                passed: false,
            },
            Ended::Missed { component } => Happened::Missed { component },
            Ended::Exhausted => return Ok(self),
        };
        let mut history = self;
        history.add_failure(memory, event, place)?;
        Ok(history)
    }

    /// The number of the next condition on the path that led here.
    pub(crate) fn number(&self) -> u64
        ensures { result ≡ (trail_from no_trail self.now).events }
    {
        self.trail.number()
    }

    /// The numbers of the failed conditions on that path, in order.
    pub(crate) fn into_misses(self) -> Vec<u64>
        ensures { result.items ≡ (trail_from no_trail self.entry).misses }
    {
        self.trail.into_misses()
    }

    /// A match for an image match at a place. The last one of the component in this state and those of the command are
    /// tried first and, once many were made, the latest that stand.
    pub(crate) fn matched(
        &self,
        memory: Memory<'a>,
        place: u64,
        component: u32,
        stated: Stated<'a>,
    ) -> Result<&'a Match<'a>, AllocError>
        ensures { IfOk result (λ own. match_of own.now ≡ stated_by stated.entry) }
    {
        if let Some(own) = self.standing.last(component, stated) {
            return Ok(own);
        }
        if let Some(told) = Match::told_last(memory, place, component, stated) {
            return Ok(told.own);
        }
        if memory.has_plenty() {
            if let Some(own) = self.standing.latest(component, stated) {
                return Ok(own);
            }
        }
        let own = Match::lent(memory, place, component, stated)?;
        self.standing.note(memory, component, own);
        Ok(own)
    }

    // The match of a component that was used last, if it is for this digest and this size. It stands.
    fn used_last(&self, component: u32, stated: Stated<'_>) -> Option<&'a Match<'a>>
        ensures is { IfSome result (λ own. match_of own.now ≡ stated_by stated.entry) }
        ensures stands { IfSome result
            (λ own. HasMatched self.now component stated.entry.digest.now stated.entry.size) }
    {
        self.standing.last(component, stated)
    }

    // The match for this digest and this size, if a search finds it. It stands.
    fn found(&self, memory: Memory<'a>, component: u32, stated: Stated<'a>) -> Option<Found<'a>>
        ensures is { IfSome result (λ found. match_of found.own.now ≡ stated_by stated.entry) }
        ensures stands { IfSome result
            (λ found. HasMatched self.now component stated.entry.digest.now stated.entry.size) }
    {
        self.standing.found(memory, component, &Match::new(stated))
    }

    // A match, and whether it stands.
    fn judged(&self, memory: Memory<'a>, component: u32, own: &'a Match<'a>) -> Asked<'a>
        ensures own { result.own.now ≡ own.now }
        ensures stands { IsTrue result.stands
            ↔ HasMatched self.now component (match_of own.now).0 (match_of own.now).1 }
    {
        let stands = self.standing.has(memory, component, own);
        Asked { own, stands }
    }

    // Whether a match stands at this index of the list of a component.
    fn stands_at(&self, component: u32, at: usize, own: &Match<'_>) -> bool
        ensures { IsTrue result
            → HasMatched self.now component (match_of own.now).0 (match_of own.now).1 }
    {
        self.standing.is_at(component, at, own)
    }

    // A match that the command at a place told, and whether it stands. It is looked for where it was found last.
    fn recalled(
        &self,
        memory: Memory<'a>,
        place: u64,
        component: u32,
        told: LastTold<'a>,
    ) -> Asked<'a>
        ensures own { result.own.now ≡ told.entry.own.now }
        ensures stands { IsTrue result.stands
            ↔ HasMatched self.now component (match_of told.entry.own.now).0
            (match_of told.entry.own.now).1 }
    {
        let own = told.own;
        if self.stands_at(component, told.at, own) {
            return Asked { own, stands: true };
        }
        let asked = self.judged(memory, component, own);
        let at = self.standing.index_of(memory, component, own);
        memory.keep_index(place, component, told.second, at);
        asked
    }

    /// The match that an invoke at a place asks for, and whether it stands. The last match of the component in this
    /// state is tried first, and then the last two of the command, in any state.
    pub(crate) fn asked(
        &self,
        memory: Memory<'a>,
        place: u64,
        component: u32,
        stated: Stated<'a>,
    ) -> Result<Asked<'a>, AllocError>
        ensures own { IfOk result (λ asked. match_of asked.own.now ≡ stated_by stated.entry) }
        ensures stands { IfOk result
            (λ asked. IsTrue asked.stands
            ↔ HasMatched self.now component stated.entry.digest.now stated.entry.size) }
    {
        if let Some(own) = self.used_last(component, stated) {
            return Ok(Asked { own, stands: true });
        }
        if let Some(told) = Match::told_last(memory, place, component, stated) {
            return Ok(self.recalled(memory, place, component, told));
        }
        if let Some(found) = self.found(memory, component, stated) {
            memory.keep_told(place, component, found.own, found.at)?;
            return Ok(Asked {
                own: found.own,
                stands: true,
            });
        }
        let own = Match::unsearched(memory, stated)?;
        memory.keep_told(place, component, own, usize::MAX)?;
        Ok(self.judged(memory, component, own))
    }

    /// Whether the same matches stand in both.
    pub(crate) fn same_matches(&self, other: &History<'a>) -> bool
        ensures { IsTrue result → SameMatches self.now other.now }
    {
        self.standing.is_same(&other.standing)
    }

    /// A fingerprint. If the same matches stand, it is the same, unless memory runs out.
    pub(crate) fn fingerprint(&self, salt: u64) -> u64 {
        self.standing.fingerprint(salt)
    }

    /// The cost of comparing the matches.
    pub(crate) fn cost(&self) -> u64 {
        self.standing.cost()
    }

    /// All events in order, if they were recorded.
    pub(crate) fn recorded(self) -> Option<Events>
        ensures { IfSome result (λ events. events ≡ self.entry) }
    {
        self.past.recorded()
    }
}
