//! Matches, and lists of them.

ghost use Rattle.std.specs.Prelude.{◌≡◌, ◌↔◌, [], ◌∷◌, IsTrue, IfSome, IfOk, OnOk};
ghost use Rattle.path_checker.specs.Exploring.{In};
ghost use Rattle.path_checker.specs.Matches.{Match as TheMatch, stated_by, match_of, all_lent, match_event, covered_event, SameMembers};

use crate::judge_plan::links::{Ended, Links, index_in, is_at};
use crate::judge_plan::mark::{Mark, bit_of, print_of};
use crate::judge_plan::memory::Memory;
use crate::judge_plan::stated::Stated;
use path_model::Event;
use std::alloc::{AllocError, Global};
use std::cell::Cell;
use std::marker::Model;
use suit_params::HashedDigest;

/// A digest and a size that a component was matched under, in 24 bytes, since there may be many.
#[derive(Drop)]
pub(crate) struct Match<'a> {
    digest: &'a HashedDigest,
    // The size, if `has_size`.
    number: u64,
    mark: Cell<Mark>,
    has_size: bool,
}

/// A match in a list.
#[derive(Clone, Copy)]
pub(crate) struct Lent<'a> {
    pub own: &'a Match<'a>,
}

/// A match that was found in a list, and its index.
#[derive(Clone, Copy)]
pub(crate) struct Found<'a> {
    pub own: &'a Match<'a>,
    pub at: usize,
}

/// Stands for all matches of a judgement, in place of a component.
pub(crate) const ALL: usize = 8;

// A list that is no longer than this is searched one by one, and no match is in it twice.
const FEW: usize = 16;

// A list that is longer than this grows by an eighth.
const LONG: usize = 256;

// Duplicates are removed for the first time when a list is this long. It is large, since that takes longer than adding
// them, and the width bounds how many there are.
const FULL: usize = 262_144;

impl<'a> Match<'a> {
    pub(crate) fn new(stated: Stated<'a>) -> Match<'a>
        ensures { match_of result ≡ stated_by stated.entry }
    {
        let (number, has_size) = match stated.size {
            Some(size) => (size, true),
            None => (0, false),
        };
        Match {
            digest: stated.digest,
            number,
            mark: Cell::new(Mark::nowhere()),
            has_size,
        }
    }

    /// The size, or 0 if it has none.
    pub(crate) fn number(&self) -> u64 {
        self.number
    }

    // The size, if it has one.
    fn size(&self) -> Option<u64>
        ensures { result ≡ (match_of self.now).1 }
    {
        if self.has_size {
            Some(self.number)
        } else {
            None
        }
    }

    // The digest and the size.
    fn stated(&self) -> Stated<'a>
        ensures { stated_by result ≡ match_of self.now }
    {
        Stated {
            digest: self.digest,
            size: self.size(),
        }
    }

    /// The event of a component that matched so.
    pub(crate) fn told(&self, component: u32) -> Event
        ensures { result ≡ match_event component (match_of self.now) }
    {
        Event::Matched {
            component,
            digest: *self.digest.get(),
            size: self.size(),
        }
    }

    /// The event of an invoke that it covers.
    pub(crate) fn invoked(&self, component: u32) -> Event
        ensures { result ≡ covered_event component (match_of self.now) }
    {
        Event::Invoked {
            component,
            digest: Some(*self.digest.get()),
            size: self.size(),
            passed: true,
        }
    }

    /// Whether it is for this digest and this size.
    pub(crate) fn is_of(&self, stated: Stated<'_>) -> bool
        ensures { IsTrue result ↔ (match_of self.now ≡ stated_by stated.entry) }
    {
        self.stated().is(stated)
    }

    /// Whether both are the same.
    pub(crate) fn is(&self, other: &Match<'_>) -> bool
        ensures { IsTrue result ↔ (match_of self.now ≡ match_of other.now) }
    {
        self.is_of(other.stated())
    }

    /// Whether both are the same. Nearly all that differ are told apart by their fingerprints, if both have one.
    pub(crate) fn is_alike(&self, other: &Match<'_>) -> bool
        ensures { IsTrue result → match_of self.now ≡ match_of other.now }
    {
        self.mark.get().may_be(other.mark.get()) && self.is(other)
    }

    /// The fingerprint, computed when it is first needed.
    pub(crate) fn print(&self, salt: u64) -> u64 {
        if let Some(print) = self.mark.get().print() {
            return print;
        }
        let mark = Mark::printed(self.whole_print(salt));
        self.mark.set(mark);
        mark.spread()
    }

    /// All 64 bits of the fingerprint, computed anew.
    pub(crate) fn whole_print(&self, salt: u64) -> u64 {
        print_of(self.stated(), salt)
    }

    // Computes the fingerprint. Returns whether there was none before.
    fn gets_print(&self, salt: u64) -> bool {
        if self.mark.get().print().is_some() {
            return false;
        }
        self.print(salt);
        true
    }

    // The index at which it was last found or put in a list of a component.
    fn place(&self, memory: Memory<'_>, component: usize) -> usize {
        let mark = self.mark.get();
        match mark.print() {
            Some(print) => memory.place(print, component),
            None => mark.index(component),
        }
    }

    // Records the index at which it is put in a list of a component.
    fn keep_place(&self, memory: Memory<'_>, component: usize, index: usize) {
        if self.mark.get().is_free(component) {
            self.mark.set(Mark::put(component, index));
        } else {
            memory.keep_place(self.print(memory.last.salt), component, index);
        }
    }

    /// The side of a tree on which it is at a depth, which so many bits choose: those of its fingerprint, and deeper down
    /// one of its digest.
    pub(crate) fn side(&self, print: u64, depth: u32, bits: u32) -> usize {
        let from = depth.wrapping_mul(bits).wrapping_add(1);
        if from < 60 && bits < 5 {
            return (print >> from) as usize & ((1 << bits) - 1);
        }
        bit_of(self.digest.get(), depth).unwrap_or(false) as usize
    }
}

/// A list of matches. If it is long, some may be in it twice.
#[derive(Drop)]
pub(crate) struct Matches<'a> {
    alloc: Global,
    // What is mixed into fingerprints.
    salt: u64,
    all: Vec<Lent<'a>>,
    links: Cell<Links>,
    // The sum of the fingerprints of the first `summed` matches.
    sum: Cell<u64>,
    summed: Cell<usize>,
    // Duplicates are removed when the list is this long.
    full: usize,
}

impl<'a> Model for Matches<'a> {
    ghost use Rattle.std.specs.Prelude.{List};
    ghost use Rattle.path_checker.specs.Matches.{Match as TheMatch, all_lent};

    ghost Value = { List TheMatch };

    ghost view = { λ a. all_lent a.all.items };
}

// How much room to reserve in a list. A full one doubles, a long one grows by an eighth, since many states hold lists.
fn room_after(len: usize, capacity: usize) -> usize {
    if len < capacity {
        return 0;
    }
    if len < LONG {
        return len.max(4);
    }
    len / 8 + 1
}

impl<'a> Matches<'a> {
    /// No matches.
    pub(crate) fn none(alloc: Global, salt: u64) -> Matches<'a>
        ensures { result ≡ [] }
    {
        Matches {
            alloc,
            salt,
            all: Vec::new(alloc),
            links: Cell::new(Links::none(alloc)),
            sum: Cell::new(0),
            summed: Cell::new(0),
            full: FULL,
        }
    }

    // No matches, with room for `count` of them.
    fn for_many(alloc: Global, salt: u64, count: usize) -> Result<Matches<'a>, AllocError>
        ensures { IfOk result (λ held. held ≡ []) }
    {
        let links = Links::for_many(alloc, count)?;
        Ok(Matches {
            alloc,
            salt,
            all: Vec::with_capacity(alloc, count.saturating_add(1))?,
            links: Cell::new(links),
            sum: Cell::new(0),
            summed: Cell::new(0),
            full: FULL,
        })
    }

    // A copy of the index, in memory of its own.
    fn links_copied(&self) -> Result<Links, AllocError> {
        let links = self.links.replace(Links::none(self.alloc));
        let copied = links.copy(self.alloc);
        self.links.set(links);
        copied
    }

    /// A copy in memory of its own, with room for one more. If many matches were made it is indexed anew once it is
    /// searched, since most copies are made for one more match.
    pub(crate) fn copy(&self, memory: Memory<'_>) -> Result<Matches<'a>, AllocError>
        ensures { IfOk result (λ held. held ≡ self.now) }
    {
        let mut all = Vec::with_capacity(self.alloc, self.all.len().saturating_add(1))?;
        all.extend_from_slice(&self.all)?;
        let links = if memory.has_plenty() {
            Links::none(self.alloc)
        } else {
            self.links_copied()?
        };
        Ok(Matches {
            alloc: self.alloc,
            salt: self.salt,
            all,
            links: Cell::new(links),
            sum: Cell::new(self.sum.get()),
            summed: Cell::new(self.summed.get()),
            full: self.full,
        })
    }

    // Searches for a match by the index, in which all are linked first. Without memory for that, it gives up.
    fn ended(&self, wanted: &Match<'_>) -> Ended
        ensures { IfSome result.found (λ at. In (match_of wanted.now) self.now) }
    {
        let all = self.all.as_slice();
        let mut links = self.links.replace(Links::none(self.alloc));
        let ended = match links.reach(self.alloc, all, self.salt) {
            Ok(()) => links.search(all, wanted, self.salt),
            Err(_) => Ended::lost(),
        };
        self.links.set(links);
        ended
    }

    // The index of a match, if a search finds it.
    fn search(&self, wanted: &Match<'_>) -> Option<usize>
        ensures { IfSome result (λ at. In (match_of wanted.now) self.now) }
    {
        if self.all.len() > FEW {
            return self.ended(wanted).found;
        }
        index_in(self.all.as_slice(), wanted)
    }

    /// Whether a search finds a match.
    pub(crate) fn finds(&self, wanted: &Match<'_>) -> bool
        ensures { IsTrue result → In (match_of wanted.now) self.now }
    {
        match self.search(wanted) {
            Some(_) => true,
            None => false,
        }
    }

    // Whether a match is where it was last found in a list of this component, in any state.
    fn is_there(&self, memory: Memory<'_>, component: usize, wanted: &Match<'_>) -> bool
        ensures { IsTrue result → In (match_of wanted.now) self.now }
    {
        let at = wanted.place(memory, component);
        is_at(self.all.as_slice(), at, wanted)
    }

    // Searches for a match, and records where it is.
    fn search_kept(&self, memory: Memory<'_>, component: usize, wanted: &Match<'_>) -> Option<usize>
        ensures { IfSome result (λ at. In (match_of wanted.now) self.now) }
    {
        let found = self.search(wanted);
        if let Some(at) = found {
            memory.keep_place(wanted.print(self.salt), component, at);
        }
        found
    }

    /// Whether a match is found: where it was last, or by a search.
    pub(crate) fn finds_of(&self, memory: Memory<'_>, component: usize, wanted: &Match<'_>) -> bool
        ensures { IsTrue result → In (match_of wanted.now) self.now }
    {
        if self.is_there(memory, component, wanted) {
            return true;
        }
        if wanted.gets_print(self.salt) && self.is_there(memory, component, wanted) {
            return true;
        }
        match self.search_kept(memory, component, wanted) {
            Some(_) => true,
            None => false,
        }
    }

    // Computes the fingerprints of the wanted match and of all others, so that nearly all of these are passed over.
    fn print_all(&self, wanted: &Match<'_>) {
        wanted.gets_print(self.salt);
        for lent in self.all.as_slice() {
            lent.own.gets_print(self.salt);
        }
    }

    // The match of the list that is the wanted one, if it is at this index.
    fn found_at(&self, at: usize, wanted: &Match<'_>) -> Option<Found<'a>>
        ensures is { IfSome result (λ found. match_of found.own.now ≡ match_of wanted.now) }
        ensures among { IfSome result (λ found. In (match_of wanted.now) self.now) }
    {
        let own = self.at(at, wanted)?;
        Some(Found { own, at })
    }

    /// The match of the list that is the wanted one, if it is found.
    pub(crate) fn found(
        &self,
        memory: Memory<'_>,
        component: usize,
        wanted: &Match<'_>,
    ) -> Option<Found<'a>>
        ensures is { IfSome result (λ found. match_of found.own.now ≡ match_of wanted.now) }
        ensures among { IfSome result (λ found. In (match_of wanted.now) self.now) }
    {
        if self.all.len() <= FEW {
            self.print_all(wanted);
            let at = index_in(self.all.as_slice(), wanted)?;
            return self.found_at(at, wanted);
        }
        let place = memory.place(wanted.print(self.salt), component);
        if let Some(found) = self.found_at(place, wanted) {
            return Some(found);
        }
        let at = self.search_kept(memory, component, wanted)?;
        self.found_at(at, wanted)
    }

    /// Whether a match is known to be in the list. A long list is not searched.
    pub(crate) fn may_hold(&self, memory: Memory<'_>, component: usize, wanted: &Match<'_>) -> bool
        ensures { IsTrue result → In (match_of wanted.now) self.now }
    {
        if self.is_there(memory, component, wanted) {
            return true;
        }
        self.all.len() <= FEW && self.finds(wanted)
    }

    /// The last match of the list, or any of a short one, if it is for this digest and this size.
    pub(crate) fn latest(&self, stated: Stated<'_>) -> Option<&'a Match<'a>>
        ensures { IfSome result (λ own. match_of own.now ≡ stated_by stated.entry) }
    {
        let all = self.all.as_slice();
        let from = if all.len() > FEW { all.len() - 1 } else { 0 };
        for lent in &all[from..] {
            if lent.own.is_of(stated) {
                return Some(lent.own);
            }
        }
        None
    }

    /// How many there are, where duplicates count.
    pub(crate) fn len(&self) -> usize {
        self.all.len()
    }

    /// The match at an index, if it is for this digest and this size.
    pub(crate) fn own_at(&self, at: usize, stated: Stated<'_>) -> Option<&'a Match<'a>>
        ensures is { IfSome result (λ own. match_of own.now ≡ stated_by stated.entry) }
        ensures among { IfSome result (λ own. In (stated_by stated.entry) self.now) }
    {
        let all = self.all.as_slice();
        if at >= all.len() {
            return None;
        }
        let made = all[at];
        if made.own.is_of(stated) {
            return Some(made.own);
        }
        None
    }

    /// Whether a match is at this index.
    pub(crate) fn is_own_at(&self, at: usize, own: &Match<'_>) -> bool
        ensures { IsTrue result → In (match_of own.now) self.now }
    {
        is_at(self.all.as_slice(), at, own)
    }

    /// The index of a match, if it is known. A long list is not searched.
    pub(crate) fn index_of(&self, memory: Memory<'_>, component: usize, own: &Match<'_>) -> usize {
        if self.all.len() > FEW {
            return own.place(memory, component);
        }
        index_in(self.all.as_slice(), own).unwrap_or(usize::MAX)
    }

    /// Adds a match.
    pub(crate) fn push(&mut self, own: &'a Match<'a>) -> Result<(), AllocError>
        ensures { OnOk result (SameMembers self.new (match_of own.now ∷ self.old)) }
    {
        let room = room_after(self.all.len(), self.all.capacity());
        self.all.reserve_exact(room)?;
        self.all.push(Lent { own })?;
        Ok(())
    }

    // Adds a match, unless a search finds it.
    fn push_once(&mut self, own: &'a Match<'a>) -> Result<(), AllocError>
        ensures { OnOk result (SameMembers self.new (match_of own.now ∷ self.old)) }
    {
        let ended = self.ended(own);
        match ended.found {
            Some(_) => Ok(()),
            None => {
                self.push(own)?;
                self.link_last(own, ended)
            }
        }
    }

    // A copy without the duplicates that are found.
    #[inline(never)]
    fn once(&self) -> Result<Matches<'a>, AllocError>
        ensures { IfOk result (λ held. SameMembers held self.now) }
    {
        let mut held = Matches::for_many(self.alloc, self.salt, self.all.len())?;
        for lent in self.all.as_slice() {
            held.push_once(lent.own)?;
        }
        let more = if held.all.len() < self.all.len() {
            4
        } else {
            16
        };
        held.full = held.all.len().saturating_mul(more).max(FULL);
        Ok(held)
    }

    // Removes duplicates, if the list is long enough.
    fn pack(&mut self) -> Result<(), AllocError>
        ensures { OnOk result (SameMembers self.new self.old) }
    {
        if self.all.len() < self.full {
            return Ok(());
        }
        let once = self.once()?;
        *self = once;
        Ok(())
    }

    /// Adds a match without a search for it.
    pub(crate) fn put(
        &mut self,
        memory: Memory<'a>,
        component: usize,
        own: &'a Match<'a>,
    ) -> Result<(), AllocError>
        ensures { OnOk result (SameMembers self.new (match_of own.now ∷ self.old)) }
    {
        self.pack()?;
        own.keep_place(memory, component, self.all.len());
        self.push(own)
    }

    // The sum of all fingerprints, for a short list.
    fn few_summed(&self) -> u64 {
        let mut sum = self.sum.get();
        let from = self.summed.get().min(self.all.len());
        for lent in &self.all[from..] {
            sum = sum.wrapping_add(lent.own.print(self.salt));
        }
        self.sum.set(sum);
        self.summed.set(self.all.len());
        sum
    }

    /// The sum of all fingerprints, in which equal matches count once. 0 if memory runs out.
    pub(crate) fn sum(&self) -> u64 {
        if self.all.len() <= FEW {
            return self.few_summed();
        }
        let mut links = self.links.replace(Links::none(self.alloc));
        let sum = match links.reach(self.alloc, self.all.as_slice(), self.salt) {
            Ok(()) => links.sum(),
            Err(_) => 0,
        };
        self.links.set(links);
        sum
    }

    // The match at an index, if it is the wanted one.
    fn at(&self, at: usize, wanted: &Match<'_>) -> Option<&'a Match<'a>>
        ensures is { IfSome result (λ made. match_of made.now ≡ match_of wanted.now) }
        ensures among { IfSome result (λ made. In (match_of wanted.now) self.now) }
    {
        let all = self.all.as_slice();
        if at >= all.len() {
            return None;
        }
        let made = all[at];
        if made.own.is_alike(wanted) {
            return Some(made.own);
        }
        None
    }

    // Links the last match where a search for it ended.
    fn link_last(&self, own: &Match<'_>, ended: Ended) -> Result<(), AllocError> {
        let mut links = self.links.replace(Links::none(self.alloc));
        let linked = links.link(own, ended, self.salt);
        self.links.set(links);
        linked
    }

    /// A match in memory that states share: one of these, or a new one, which is added.
    pub(crate) fn lent(
        &mut self,
        memory: Memory<'a>,
        own: Match<'a>,
    ) -> Result<&'a Match<'a>, AllocError>
        ensures { IfOk result (λ lent. match_of lent.now ≡ match_of own.entry) }
    {
        if let Some(made) = self.at(memory.place(own.print(self.salt), ALL), &own) {
            memory.count_found();
            return Ok(made);
        }
        let ended = self.ended(&own);
        if let Some(at) = ended.found {
            memory.keep_place(own.print(self.salt), ALL, at);
            memory.count_found();
            if let Some(made) = self.at(at, &own) {
                return Ok(made);
            }
        }
        let lent = memory.last.arena.try_alloc(own)?;
        self.push(lent)?;
        self.link_last(lent, ended)?;
        Ok(lent)
    }

    /// Whether a match is in the list, by a look at all of them.
    pub(crate) fn is_among(&self, wanted: &Match<'_>) -> bool
        ensures { IsTrue result ↔ In (match_of wanted.now) self.now }
    {
        for lent in self.all.as_slice() {
            if lent.own.is(wanted) {
                return true;
            }
        }
        false
    }

    // Whether a match is at this index, or else a search finds it.
    fn finds_from(&self, at: usize, wanted: &Match<'_>) -> bool
        ensures { IsTrue result → In (match_of wanted.now) self.now }
    {
        self.is_own_at(at, wanted) || self.finds(wanted)
    }

    /// Whether each is found among others, where most that are there have the same index.
    pub(crate) fn is_within(&self, others: &Matches<'_>) -> bool
        ensures { IsTrue result
            → (one : TheMatch) → In one self.now → In one others.now }
    {
        let all = self.all.as_slice();
        for at in 0..all.len() {
            let lent = all[at];
            if !others.finds_from(at, lent.own) {
                return false;
            }
        }
        true
    }
}
