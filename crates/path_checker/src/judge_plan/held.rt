//! The matches of one component. Copies share them until one is added.

ghost use Rattle.std.specs.Prelude.{◌≡◌, ◌↔◌, [], ◌∷◌, IsTrue, IfSome, IfOk, OnOk};
ghost use Rattle.path_checker.specs.Exploring.{In};
ghost use Rattle.path_checker.specs.Matches.{Match as TheMatch, stated_by, match_of, SameMembers};

use crate::judge_plan::matches::{ALL, Found, Match, Matches};
use crate::judge_plan::memory::Memory;
use crate::judge_plan::stated::Stated;
use std::alloc::AllocError;
use std::marker::Model;
use std::rc::Rc;

// No match or one, which take no memory of their own, or several, which copies share until one is added.
#[derive(Drop)]
enum Holding<'a> {
    Nothing,
    One(&'a Match<'a>),
    Several(Rc<Matches<'a>>),
}

/// The matches of a component, if there are any.
#[derive(Drop)]
pub(crate) struct Held<'a> {
    held: Holding<'a>,
}

impl<'a> Model for Held<'a> {
    ghost use Rattle.std.specs.Prelude.{List};
    ghost use Rattle.path_checker.specs.Matches.{Match as TheMatch};
    ghost use Rattle.path_checker.specs.Holding.{held_matches};

    ghost Value = { List TheMatch };

    ghost view = { λ a. held_matches a.held };
}

// Adds a match to a copy of a shared list.
#[inline(never)]
fn put_apart<'a>(
    held: &mut Rc<Matches<'a>>,
    memory: Memory<'a>,
    component: usize,
    own: &'a Match<'a>,
) -> Result<(), AllocError>
    ensures { OnOk result (SameMembers held.new.value (match_of own.now ∷ held.old.value)) }
{
    let mut all = held.copy(memory)?;
    all.put(memory, component, own)?;
    *held = Rc::new(memory.alloc, all)?;
    Ok(())
}

// Adds a match to a list, or to a copy of it if it is shared. A match that is known to be there is not added.
fn add_shared<'a>(
    held: &mut Rc<Matches<'a>>,
    memory: Memory<'a>,
    component: usize,
    own: &'a Match<'a>,
) -> Result<(), AllocError>
    ensures { OnOk result (SameMembers held.new.value (match_of own.now ∷ held.old.value)) }
{
    if held.may_hold(memory, component, own) {
        return Ok(());
    }
    match Rc::get_mut(held) {
        Some(all) => all.put(memory, component, own),
        None => put_apart(held, memory, component, own),
    }
}

// A list of two matches.
#[inline(never)]
fn both<'a>(
    memory: Memory<'a>,
    one: &'a Match<'a>,
    other: &'a Match<'a>,
) -> Result<Rc<Matches<'a>>, AllocError>
    ensures { IfOk result
        (λ held. SameMembers held.value (match_of other.now ∷ match_of one.now ∷ [])) }
{
    let mut all = Matches::none(memory.alloc, memory.last.salt);
    all.push(one)?;
    all.push(other)?;
    let held = Rc::new(memory.alloc, all)?;
    Ok(held)
}

impl<'a> Held<'a> {
    /// No matches.
    pub(crate) fn none() -> Held<'a>
        ensures { result ≡ [] }
    {
        Held {
            held: Holding::Nothing,
        }
    }

    fn of(own: &'a Match<'a>) -> Held<'a>
        ensures { result ≡ match_of own.now ∷ [] }
    {
        Held {
            held: Holding::One(own),
        }
    }

    /// Whether there are none. May be `false` even so.
    pub(crate) fn is_none(&self) -> bool
        ensures { IsTrue result → self.now ≡ [] }
    {
        match &self.held {
            Holding::Nothing => true,
            _ => false,
        }
    }

    /// A copy that shares the matches.
    pub(crate) fn copy(&self) -> Result<Held<'a>, AllocError>
        ensures { IfOk result (λ held. held ≡ self.now) }
    {
        match &self.held {
            Holding::Nothing => Ok(Held::none()),
            Holding::One(own) => Ok(Held::of(*own)),
            Holding::Several(all) => {
                let all = all.clone()?;
                Ok(Held {
                    held: Holding::Several(all),
                })
            }
        }
    }

    /// The sum of all fingerprints, in which equal matches count once.
    pub(crate) fn sum(&self, salt: u64) -> u64 {
        match &self.held {
            Holding::Nothing => 0,
            Holding::One(own) => own.print(salt),
            Holding::Several(all) => all.sum(),
        }
    }

    /// Whether both may have the same matches, by the fingerprints of several.
    pub(crate) fn may_be(&self, other: &Held<'_>) -> bool {
        match (&self.held, &other.held) {
            (Holding::Several(all), Holding::Several(others)) => all.sum() == others.sum(),
            _ => true,
        }
    }

    /// How many there are, where duplicates count.
    pub(crate) fn len(&self) -> usize {
        match &self.held {
            Holding::Nothing => 0,
            Holding::One(_) => 1,
            Holding::Several(all) => all.len(),
        }
    }

    // Whether a search finds a match.
    fn finds(&self, wanted: &Match<'_>) -> bool
        ensures { IsTrue result → In (match_of wanted.now) self.now }
    {
        match &self.held {
            Holding::Nothing => false,
            Holding::One(own) => own.is(wanted),
            Holding::Several(all) => all.finds(wanted),
        }
    }

    /// Whether a match of a component is among them. Looks at all of them only if a search does not find it.
    pub(crate) fn has(&self, memory: Memory<'_>, component: usize, wanted: &Match<'_>) -> bool
        ensures { IsTrue result ↔ In (match_of wanted.now) self.now }
    {
        match &self.held {
            Holding::Nothing => false,
            Holding::One(own) => own.is(wanted),
            Holding::Several(all) => {
                all.finds_of(memory, component, wanted) || all.is_among(wanted)
            }
        }
    }

    /// The match of a component that is the wanted one, if it is found.
    pub(crate) fn found(
        &self,
        memory: Memory<'_>,
        component: usize,
        wanted: &Match<'_>,
    ) -> Option<Found<'a>>
        ensures is { IfSome result (λ found. match_of found.own.now ≡ match_of wanted.now) }
        ensures among { IfSome result (λ found. In (match_of wanted.now) self.now) }
    {
        match &self.held {
            Holding::Several(all) => all.found(memory, component, wanted),
            Holding::One(own) if own.is(wanted) => Some(Found { own: *own, at: 0 }),
            _ => None,
        }
    }

    /// The match for this digest and this size, if it is the last one or there are few.
    pub(crate) fn latest(&self, stated: Stated<'_>) -> Option<&'a Match<'a>>
        ensures { IfSome result (λ own. match_of own.now ≡ stated_by stated.entry) }
    {
        match &self.held {
            Holding::Several(all) => all.latest(stated),
            Holding::One(own) if own.is_of(stated) => Some(*own),
            _ => None,
        }
    }

    /// The match at an index, if it is for this digest and this size.
    pub(crate) fn own_at(&self, at: usize, stated: Stated<'_>) -> Option<&'a Match<'a>>
        ensures is { IfSome result (λ own. match_of own.now ≡ stated_by stated.entry) }
        ensures among { IfSome result (λ own. In (stated_by stated.entry) self.now) }
    {
        match &self.held {
            Holding::Several(all) => all.own_at(at, stated),
            Holding::One(own) if own.is_of(stated) => Some(*own),
            _ => None,
        }
    }

    /// Whether a match is at this index.
    pub(crate) fn is_at(&self, at: usize, own: &Match<'_>) -> bool
        ensures { IsTrue result → In (match_of own.now) self.now }
    {
        match &self.held {
            Holding::Several(all) => all.is_own_at(at, own),
            Holding::One(one) => one.is_alike(own),
            Holding::Nothing => false,
        }
    }

    /// The index of a match, if it is known. A long list is not searched.
    pub(crate) fn index_of(&self, memory: Memory<'_>, component: usize, own: &Match<'_>) -> usize {
        match &self.held {
            Holding::Several(all) => all.index_of(memory, component, own),
            _ => 0,
        }
    }

    /// Whether each is found among others.
    pub(crate) fn is_within(&self, others: &Held<'_>) -> bool
        ensures { IsTrue result
            → (one : TheMatch) → In one self.now → In one others.now }
    {
        match &self.held {
            Holding::Nothing => true,
            Holding::One(own) => others.finds(own),
            Holding::Several(all) => match &others.held {
                Holding::Several(others) => all.is_within(others),
                _ => false,
            },
        }
    }

    /// A match in memory that states share: one of these, or a new one, which is added.
    pub(crate) fn lent(
        &mut self,
        memory: Memory<'a>,
        own: Match<'a>,
    ) -> Result<&'a Match<'a>, AllocError>
        ensures { IfOk result (λ lent. match_of lent.now ≡ match_of own.entry) }
    {
        match &mut self.held {
            Holding::Several(all) => {
                if let Some(all) = Rc::get_mut(all) {
                    return all.lent(memory, own);
                }
            }
            Holding::One(one) => {
                if one.is(&own) {
                    return Ok(*one);
                }
            }
            Holding::Nothing => {}
        }
        let lent = memory.last.arena.try_alloc(own)?;
        self.add(memory, ALL, lent)?;
        Ok(lent)
    }

    /// Adds a match of a component.
    pub(crate) fn add(
        &mut self,
        memory: Memory<'a>,
        component: usize,
        own: &'a Match<'a>,
    ) -> Result<(), AllocError>
        ensures { OnOk result (SameMembers self.new (match_of own.now ∷ self.old)) }
    {
        match &mut self.held {
            Holding::Nothing => {
                *self = Held::of(own);
                Ok(())
            }
            Holding::One(one) => {
                let one = *one;
                if !one.is(own) {
                    self.held = Holding::Several(both(memory, one, own)?);
                }
                Ok(())
            }
            Holding::Several(all) => add_shared(all, memory, component, own),
        }
    }
}
