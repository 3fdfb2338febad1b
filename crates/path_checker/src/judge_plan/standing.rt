//! The matches that stand.

ghost use Rattle.std.specs.Prelude.{◌≡◌, ◌↔◌, ◌<◌, ℕ, [], IsTrue, IfSome, IfOk, OnOk, length};
ghost use Rattle.path_checker.specs.Exploring.{In};
ghost use Rattle.path_checker.specs.Matches.{match_of, stated_by, SameMembers};
ghost use Rattle.path_checker.specs.Standing.{held_of, Gains, Loses, SameHeld};

use crate::judge_plan::fingerprint::mixed;
use crate::judge_plan::held::Held;
use crate::judge_plan::matches::{Found, Match};
use crate::judge_plan::memory::Memory;
use crate::judge_plan::stated::Stated;
use std::alloc::{AllocError, Global};
use std::cell::Cell;

// How many components there can be.
const ROOM: usize = 8;

/// The matches that stand, by component. Components after the last one with a match are left out.
#[derive(Drop)]
pub(crate) struct StandingMatches<'a> {
    of: Vec<Held<'a>>,
    // How many were added, whether or not they still stand.
    added: u32,
    // The index of the match of each component that `last` tries.
    last: Cell<[u16; ROOM]>,
}

impl<'a> StandingMatches<'a> {
    /// No matches. Does not allocate.
    pub(crate) fn none(alloc: Global) -> StandingMatches<'a>
        ensures { (component : ℕ) → held_of result component ≡ [] }
    {
        StandingMatches {
            of: Vec::new(alloc),
            added: 0,
            last: Cell::new([0; ROOM]),
        }
    }

    /// A copy that shares the matches.
    pub(crate) fn copy(&self, alloc: Global) -> Result<StandingMatches<'a>, AllocError>
        ensures { IfOk result (λ other. other.of.items ≡ self.now.of.items) }
    {
        let mut of = Vec::with_capacity(alloc, self.of.len())?;
        for held in self.of.as_slice() {
            of.push(held.copy()?)?;
        }
        Ok(StandingMatches {
            of,
            added: self.added,
            last: Cell::new(self.last.get()),
        })
    }

    /// Whether a match of a component stands.
    pub(crate) fn has(&self, memory: Memory<'_>, component: u32, wanted: &Match<'_>) -> bool
        ensures { IsTrue result ↔ In (match_of wanted.now) (held_of self.now component) }
    {
        match self.of.get(component as usize) {
            Some(held) => held.has(memory, component as usize, wanted),
            None => false,
        }
    }

    /// The match that stands and is the wanted one, if the search finds it. `last` tries it next.
    pub(crate) fn found(
        &self,
        memory: Memory<'_>,
        component: u32,
        wanted: &Match<'_>,
    ) -> Option<Found<'a>>
        ensures is { IfSome result (λ found. match_of found.own.now ≡ match_of wanted.now) }
        ensures stands { IfSome result
            (λ found. In (match_of wanted.now) (held_of self.now component)) }
    {
        let index = component as usize;
        let held = self.of.get(index)?;
        let found = held.found(memory, index, wanted)?;
        self.put_last(index, found.at);
        Some(found)
    }

    /// The match that stands and is for this digest and this size, if it is among the latest.
    pub(crate) fn latest(&self, component: u32, stated: Stated<'_>) -> Option<&'a Match<'a>>
        ensures { IfSome result (λ own. match_of own.now ≡ stated_by stated.entry) }
    {
        let held = self.of.get(component as usize)?;
        held.latest(stated)
    }

    /// The match of a component that `found` found or `note` noted last, if it is for this digest and this size.
    pub(crate) fn last(&self, component: u32, stated: Stated<'_>) -> Option<&'a Match<'a>>
        ensures is { IfSome result (λ own. match_of own.now ≡ stated_by stated.entry) }
        ensures stands { IfSome result
            (λ own. In (stated_by stated.entry) (held_of self.now component)) }
    {
        let index = component as usize;
        let held = self.of.get(index)?;
        let last = self.last.get();
        held.own_at(usize::from(last[index % ROOM]), stated)
    }

    // Puts down the index that `last` tries for a component, unless it is too large.
    fn put_last(&self, component: usize, at: usize) {
        if let Ok(at) = u16::try_from(at) {
            let mut last = self.last.get();
            last[component % ROOM] = at;
            self.last.set(last);
        }
    }

    /// Notes a match of a component that is used now and likely again in this state.
    pub(crate) fn note(&self, memory: Memory<'_>, component: u32, own: &Match<'_>) {
        self.put_last(component as usize, self.index_of(memory, component, own));
    }

    /// Whether a match of a component stands at this index of its list.
    pub(crate) fn is_at(&self, component: u32, at: usize, own: &Match<'_>) -> bool
        ensures { IsTrue result → In (match_of own.now) (held_of self.now component) }
    {
        let index = component as usize;
        match self.of.get(index) {
            Some(held) => held.is_at(at, own),
            None => false,
        }
    }

    /// The index of a match in the list of a component, if it is known.
    pub(crate) fn index_of(&self, memory: Memory<'_>, component: u32, own: &Match<'_>) -> usize {
        let index = component as usize;
        match self.of.get(index) {
            Some(held) => held.index_of(memory, index, own),
            None => usize::MAX,
        }
    }

    // Adds a component without matches.
    fn more(&mut self) -> Result<(), AllocError>
        ensures { OnOk result
            ((component : ℕ) → held_of self.new component ≡ held_of self.old component) }
    {
        self.of.push(Held::none())?;
        Ok(())
    }

    // Adds components without matches until the index is within the list. Returns an error if that takes more than
    // eight of them.
    fn widen(&mut self, index: usize) -> Result<(), AllocError>
        ensures room { OnOk result (index < length self.new.of.items) }
        ensures same { OnOk result
            ((component : ℕ) → held_of self.new component ≡ held_of self.old component) }
    {
        for _ in 0..ROOM {
            if index < self.of.len() {
                return Ok(());
            }
            self.more()?;
        }
        if index < self.of.len() {
            return Ok(());
        }
        Err(AllocError)
    }

    // Drops the components at the end that have no matches.
    fn narrow(&mut self)
        ensures { (component : ℕ) → held_of self.new component ≡ held_of self.old component }
    {
        let mut len = self.of.len();
        while len > 0 && self.of[len - 1].is_none() {
            len -= 1;
        }
        self.of.truncate(len);
    }

    /// Adds a match of a component.
    pub(crate) fn gain(
        &mut self,
        memory: Memory<'a>,
        component: u32,
        own: &'a Match<'a>,
    ) -> Result<(), AllocError>
        ensures { OnOk result (Gains self.old component (match_of own.now) self.new) }
    {
        let index = component as usize;
        self.widen(index)?;
        self.of[index].add(memory, index, own)?;
        self.added = self.added.saturating_add(1);
        Ok(())
    }

    /// Drops all matches of a component.
    pub(crate) fn lose(&mut self, component: u32)
        ensures { Loses self.old component self.new }
    {
        let index = component as usize;
        if index >= self.of.len() {
            return;
        }
        self.of[index] = Held::none();
        self.narrow();
    }

    /// Whether the same matches stand in both.
    pub(crate) fn is_same(&self, other: &StandingMatches<'a>) -> bool
        ensures { IsTrue result → (component : ℕ) → SameHeld self.now other.now component }
    {
        let (mine, others) = (self.of.as_slice(), other.of.as_slice());
        if mine.len() != others.len() {
            return false;
        }
        let mut index = 0;
        while index < mine.len() {
            if !is_same_held(&mine[index], &others[index]) {
                return false;
            }
            index += 1;
        }
        true
    }

    /// The cost of a comparison: an upper bound for the number of matches.
    pub(crate) fn cost(&self) -> u64 {
        u64::from(self.added)
    }

    /// A fingerprint. If the same matches stand, it is the same, unless memory runs out.
    pub(crate) fn fingerprint(&self, salt: u64) -> u64 {
        let mut print = 0;
        for held in self.of.as_slice() {
            print = mixed(print, held.sum(salt));
        }
        print
    }
}

// Whether the same matches of a component stand in both. `false` if a search misses one.
fn is_same_held<'a>(one: &Held<'a>, other: &Held<'a>) -> bool
    ensures { IsTrue result → SameMembers one.now other.now }
{
    if !one.may_be(other) {
        return false;
    }
    one.is_within(other) && other.is_within(one)
}
