//! The allocators of a judgement, its caches, and its limits on comparing.

use crate::judge_plan::facts::Shared;
use crate::judge_plan::fingerprint::mixed;
use crate::judge_plan::held::Held;
use crate::judge_plan::in_force::{InForce, Row};
use crate::judge_plan::made::Made;
use crate::judge_plan::matches::Match;
use bumpalo::Bump;
use std::alloc::{AllocError, Global};
use std::cell::Cell;

/// What may be spent in all on comparing states, where a match costs 1. Once it is spent, states are kept without being
/// compared, and the width alone bounds the work.
pub(crate) const COMPARED: u64 = 1_048_576;

// The base cost of comparing two states.
const LEAST: u64 = 32;

// More states than this share equal parameters and knowledge, even though finding equal ones takes comparisons.
const CROWD: usize = 4_096;

// How many bytes of parameters may be compared in all for sharing.
const READ: u64 = 1_073_741_824;

// At most this many recently used matches are kept. A power of two.
const USED: usize = 8_192;

// At most this many indices of matches are kept, in a part for each component. A power of two.
const SPOTS: usize = 1_048_576;

const PARTS: usize = 16;

// For at most this many pairs of a command and a component, the last two matches are kept. A power of two.
const STEPS: usize = 262_144;

// How many matches are passed to `keep_told` before any is kept.
const UNKEPT: usize = 16;

// At most this many matches are made in a row without a search for an equal one.
const UNSEARCHED: usize = 1_048_576;

// Once more than this many matches were made, more is spent on finding an equal one.
const PLENTY: usize = 262_144;

// How many entries a cache has at first. A power of two.
const FIRST: usize = 2;

// The factor by which a cache grows.
const MORE: usize = 16;

/// In how many places of `Made` a value may be kept.
pub(crate) const WAYS: u32 = 8;

/// The allocators of a judgement and what it may still compare, in one word that every step is passed.
#[derive(Clone, Copy)]
pub(crate) struct Memory<'a> {
    pub alloc: Global,
    /// Values that were made recently. The next state often makes the same ones, and shares them.
    pub last: &'a Last<'a>,
}

/// Values that were made recently, in any state.
#[derive(Drop)]
pub(crate) struct Last<'a> {
    /// Matches, what is left to run, and tables of recent values lie here. All of it is freed when the judgement ends.
    pub arena: &'a Bump,
    /// What is mixed into fingerprints.
    pub salt: u64,
    compared: &'a Cell<u64>,
    /// The matches that new ones are searched for among. They are forgotten once they are too many.
    pub matches: Cell<Held<'a>>,
    // How many were found by these searches since matches were last forgotten.
    found: Cell<usize>,
    // How many matches were made in all.
    made: Cell<usize>,
    // How many matches are still to be made without such a search, and how many there were when the pause began.
    unsearched: Cell<usize>,
    pause: Cell<usize>,
    // How many were found among the recently used ones, and whether those were so few that a pause skips these too.
    reused: Cell<usize>,
    few_reused: Cell<bool>,
    // The recently used matches, the number of each, and how many were used that were not among them.
    used: Cell<&'a [Cell<&'a Match<'a>>]>,
    numbers: Cell<&'a [Cell<u64>]>,
    searched: Cell<usize>,
    // The last two matches of each command at each component, one behind the other, and how often one was kept.
    told: Cell<&'a [Cell<&'a Match<'a>>]>,
    others: Cell<usize>,
    // For each of these the index at which it was last found in a list of its component, with bits that tell it from most
    // others.
    indices: Cell<&'a [Cell<u64>]>,
    // The index at which a match was last found in a list, with bits that identify the match, and how often one was
    // kept.
    places: Cell<&'a [Cell<u64>]>,
    sought: Cell<usize>,
    // How many states are kept at once.
    states: Cell<usize>,
    // How many bytes of parameters may still be compared for sharing.
    left: Cell<u64>,
    /// The parameters made last, and recent rows of them, each for one component.
    pub params: Cell<Option<InForce<'a>>>,
    pub rows: Cell<Option<Made<Row<'a>>>>,
    /// Recent knowledge of components, while many states are kept.
    pub known: Cell<Option<Made<Shared>>>,
    // The last knowledge of each component, once there is any.
    each: Cell<Option<&'a LastKnown>>,
}

/// A match that a command told, the index at which it was found in a list, and whether another one was told since.
#[derive(Clone, Copy)]
pub(crate) struct LastTold<'a> {
    pub own: &'a Match<'a>,
    pub at: usize,
    pub second: bool,
}

/// The last knowledge of each component, in any state.
#[derive(Drop)]
struct LastKnown {
    // After learning a value, and after ruling one out.
    having: [Cell<Option<Shared>>; 8],
    lacking: [Cell<Option<Shared>>; 8],
}

fn none_known() -> [Cell<Option<Shared>>; 8] {
    [
        Cell::new(None),
        Cell::new(None),
        Cell::new(None),
        Cell::new(None),
        Cell::new(None),
        Cell::new(None),
        Cell::new(None),
        Cell::new(None),
    ]
}

impl LastKnown {
    // No knowledge yet.
    fn new() -> LastKnown {
        LastKnown {
            having: none_known(),
            lacking: none_known(),
        }
    }

    // Frees the knowledge.
    fn release(&self) {
        for known in &self.having {
            known.set(None);
        }
        for known in &self.lacking {
            known.set(None);
        }
    }
}

impl<'a> Last<'a> {
    // No values yet.
    fn new(arena: &'a Bump, compared: &'a Cell<u64>, salt: u64) -> Last<'a> {
        Last {
            arena,
            salt,
            compared,
            matches: Cell::new(Held::none()),
            found: Cell::new(0),
            made: Cell::new(0),
            unsearched: Cell::new(0),
            pause: Cell::new(0),
            reused: Cell::new(0),
            few_reused: Cell::new(false),
            used: Cell::new(&[]),
            numbers: Cell::new(&[]),
            searched: Cell::new(0),
            told: Cell::new(&[]),
            others: Cell::new(0),
            indices: Cell::new(&[]),
            places: Cell::new(&[]),
            sought: Cell::new(0),
            states: Cell::new(0),
            left: Cell::new(READ),
            params: Cell::new(None),
            rows: Cell::new(None),
            known: Cell::new(None),
            each: Cell::new(None),
        }
    }
}

/// The place, out of `count`, for a value with a fingerprint. `way` chooses between its places. Two fingerprints share
/// all of these only by chance.
pub(crate) fn place_by(print: u64, way: u32, count: usize) -> usize {
    mixed(print, u64::from(way)) as usize & count.wrapping_sub(1)
}

// A hash for a match of a component. The low bits choose the place, and the high half is kept there to identify it.
fn spot_of(print: u64, component: usize) -> u64 {
    mixed(print, component as u64)
}

// The first of two places, out of `count`, for a match of a component. Each component has a part of its own.
fn spot_by(spot: u64, component: usize, count: usize) -> usize {
    let part = count / PARTS;
    let start = (component % PARTS).wrapping_mul(part);
    start.wrapping_add(spot as usize & part.wrapping_sub(2))
}

// The index that is kept at a place, if it is that of this match.
fn index_at(places: &[Cell<u64>], at: usize, spot: u64) -> Option<usize> {
    let kept = places.get(at)?.get();
    if (kept ^ spot) >> 32 == 0 {
        Some((kept & 0xffff_ffff) as usize)
    } else {
        None
    }
}

// The first of two places, out of `count`, for a command at a component. At one component, commands that are close
// together have places that are close together.
fn step_by(place: u64, component: u32, count: usize) -> usize {
    let apart = (component as usize).wrapping_mul(count / 8);
    let first = ((place / 8) as usize).wrapping_mul(2);
    first.wrapping_add(apart) & count.wrapping_sub(2)
}

// The first of two places, out of `count`, for a number.
fn pair_by(number: u64, count: usize) -> usize {
    number as usize & count.wrapping_sub(2)
}

// A tag by both halves of a size.
fn tag_of(size: u64) -> u64 {
    (size ^ size >> 32) & 0xffff_ffff
}

// An index in the low half of a word, and a tag in the other one. A larger index becomes one that is past any list.
fn word_of(at: usize, tag: u64) -> u64 {
    let low = match u32::try_from(at) {
        Ok(at) => u64::from(at),
        Err(_) => 0xffff_ffff,
    };
    tag << 32 | low
}

// The index of a word, if its match may have this size.
fn index_of(word: u64, size: u64) -> Option<usize> {
    if word >> 32 == tag_of(size) {
        Some((word & 0xffff_ffff) as usize)
    } else {
        None
    }
}

// How many places a cache has after it grows, which is at most `most`.
fn more_places(count: usize, most: usize) -> usize {
    count.wrapping_mul(MORE).max(FIRST).min(most)
}

impl<'a> Memory<'a> {
    /// The memory of a new judgement. `left` is what it may spend on comparing states.
    pub(crate) fn new(
        alloc: Global,
        arena: &'a Bump,
        left: &'a Cell<u64>,
        salt: u64,
    ) -> Result<Memory<'a>, AllocError> {
        let last = arena.try_alloc(Last::new(arena, left, salt))?;
        Ok(Memory { alloc, last })
    }

    /// Frees the values that were made recently.
    pub(crate) fn release(&self) {
        self.last.matches.set(Held::none());
        self.last.params.set(None);
        self.last.rows.set(None);
        self.last.known.set(None);
        if let Some(known) = self.last.each.get() {
            known.release();
        }
    }

    /// Notes that this many states are kept at once, unless more are noted already. Returns the previous note, for
    /// `keep`.
    pub(crate) fn gather(&self, states: usize) -> usize {
        let round = self.last.states.get();
        self.last.states.set(round.max(states));
        round
    }

    /// Notes that this many states are kept at once, whatever was noted before.
    pub(crate) fn keep(&self, states: usize) {
        self.last.states.set(states);
    }

    /// Whether so many states are kept at once that they are to share what they hold.
    pub(crate) fn is_crowded(&self) -> bool {
        self.last.states.get() > CROWD
    }

    /// Counts a match that was found among all.
    pub(crate) fn count_found(&self) {
        self.last.found.set(self.last.found.get().wrapping_add(1));
    }

    /// Whether the next match is made without a search among all. Each `true` shortens the pause by one.
    pub(crate) fn skips_search(&self) -> bool {
        match self.last.unsearched.get().checked_sub(1) {
            Some(left) => {
                self.last.unsearched.set(left);
                true
            }
            None => false,
        }
    }

    /// Notes that this many matches were forgotten. If fewer than three times as many were found among them, the next
    /// ones are made without a search: as many as were forgotten, or twice as many as in the last pause if that is
    /// more.
    pub(crate) fn pause_searches(&self, forgotten: usize) {
        let few = self.last.found.get() < forgotten.saturating_mul(3);
        let more = self.last.pause.get().saturating_mul(2).max(forgotten);
        let pause = if few { more.min(UNSEARCHED) } else { 0 };
        self.last.pause.set(pause);
        self.last.unsearched.set(pause);
        self.last.found.set(0);
        self.last
            .few_reused
            .set(self.last.reused.get() < forgotten / 8);
        self.last.reused.set(0);
    }

    /// Counts a match that is made.
    pub(crate) fn count_made(&self) {
        self.last.made.set(self.last.made.get().wrapping_add(1));
    }

    /// Whether so many matches were made that more is spent on finding an equal one.
    pub(crate) fn has_plenty(&self) -> bool {
        self.last.made.get() > PLENTY
    }

    /// Counts a match that was found among the recently used ones.
    pub(crate) fn count_reused(&self) {
        self.last.reused.set(self.last.reused.get().wrapping_add(1));
    }

    /// Whether the next match is made without any search, since few were found even among the recently used ones. Each
    /// `true` shortens the pause by one.
    pub(crate) fn passes_used(&self) -> bool {
        self.last.few_reused.get() && self.skips_search()
    }

    /// The match that was kept last, or second to last, for the command at a place and a component, in any state, if it
    /// may have this size. The caller has to compare it.
    pub(crate) fn told_at(
        &self,
        place: u64,
        component: u32,
        second: bool,
        size: u64,
    ) -> Option<LastTold<'a>> {
        let (told, indices) = (self.last.told.get(), self.last.indices.get());
        let index = step_by(place, component, told.len()) | second as usize;
        let at = index_of(indices.get(index)?.get(), size)?;
        let own = told.get(index)?.get();
        Some(LastTold { own, at, second })
    }

    /// Keeps the index at which a match of the command at a place was found in a list of a component.
    pub(crate) fn keep_index(&self, place: u64, component: u32, second: bool, at: usize) {
        let indices = self.last.indices.get();
        let index = step_by(place, component, indices.len()) | second as usize;
        if let Some(kept) = indices.get(index) {
            kept.set(word_of(at, kept.get() >> 32));
        }
    }

    /// Keeps a match for the command at a place and a component, and the index at which it was found. The cache grows
    /// with the number of calls.
    pub(crate) fn keep_told(
        &self,
        place: u64,
        component: u32,
        own: &'a Match<'a>,
        at: usize,
    ) -> Result<(), AllocError> {
        let (others, kept) = (self.last.others.get(), self.last.told.get().len() / 2);
        self.last.others.set(others.wrapping_add(1));
        if others >= kept.max(UNKEPT) && kept < STEPS {
            self.more_told(own, more_places(kept, STEPS).saturating_mul(2))?;
        }
        let (told, indices) = (self.last.told.get(), self.last.indices.get());
        let first = step_by(place, component, told.len());
        if let (Some(last), Some(before)) = (told.get(first), told.get(first | 1)) {
            before.set(last.get());
            last.set(own);
        }
        if let (Some(last), Some(before)) = (indices.get(first), indices.get(first | 1)) {
            before.set(last.get());
            last.set(word_of(at, tag_of(own.number())));
        }
        Ok(())
    }

    // Makes the cache of the matches of commands this large. It starts empty.
    fn more_told(&self, own: &'a Match<'a>, count: usize) -> Result<(), AllocError> {
        let told = self.all_of(own, count)?;
        let indices = self
            .last
            .arena
            .try_alloc_slice_fill_clone(count, Cell::new(u64::MAX))?;
        self.last.told.set(told);
        self.last.indices.set(indices);
        Ok(())
    }

    /// The match that was used last, or second to last, with this number.
    pub(crate) fn used(&self, number: u64, second: bool) -> Option<&'a Match<'a>> {
        let (used, numbers) = (self.last.used.get(), self.last.numbers.get());
        let index = pair_by(number, used.len()) | second as usize;
        match (used.get(index), numbers.get(index)) {
            (Some(at), Some(own)) if own.get() == number => Some(at.get()),
            _ => None,
        }
    }

    /// Keeps a match that was used, under its number. The cache grows with the number of calls.
    pub(crate) fn keep_used(&self, number: u64, own: &'a Match<'a>) -> Result<(), AllocError> {
        let (searched, kept) = (self.last.searched.get(), self.last.used.get().len());
        self.last.searched.set(searched.wrapping_add(1));
        if searched >= kept && kept < USED {
            self.keep_matches(own, more_places(kept, USED))?;
        }
        let (used, numbers) = (self.last.used.get(), self.last.numbers.get());
        let first = pair_by(number, used.len());
        if let (Some(last), Some(before)) = (used.get(first), used.get(first | 1)) {
            before.set(last.get());
            last.set(own);
        }
        if let (Some(last), Some(before)) = (numbers.get(first), numbers.get(first | 1)) {
            before.set(last.get());
            last.set(number);
        }
        Ok(())
    }

    /// The index at which a match with this fingerprint was last found among those of a component, in any state, or
    /// `usize::MAX`.
    pub(crate) fn place(&self, print: u64, component: usize) -> usize {
        let spot = spot_of(print, component);
        let places = self.last.places.get();
        let first = spot_by(spot, component, places.len());
        if let Some(index) = index_at(places, first, spot) {
            return index;
        }
        index_at(places, first | 1, spot).unwrap_or(usize::MAX)
    }

    /// Keeps the index at which a match with this fingerprint is found among those of a component. The cache grows with
    /// the number of calls.
    pub(crate) fn keep_place(&self, print: u64, component: usize, index: usize) {
        let (sought, kept) = (self.last.sought.get(), self.last.places.get().len());
        self.last.sought.set(sought.wrapping_add(1));
        if sought >= kept && kept < SPOTS {
            self.more_spots(more_places(kept, SPOTS));
        }
        let spot = spot_of(print, component);
        let places = self.last.places.get();
        let first = spot_by(spot, component, places.len());
        if let (Some(last), Some(before)) = (places.get(first), places.get(first | 1)) {
            if (last.get() ^ spot) >> 32 != 0 {
                before.set(last.get());
            }
            last.set(spot & 0xffff_ffff_0000_0000 | index as u64 & 0xffff_ffff);
        }
    }

    // Makes the cache of indices this large, if there is memory for it. It starts empty.
    fn more_spots(&self, count: usize) {
        if let Ok(places) = self
            .last
            .arena
            .try_alloc_slice_fill_clone(count, Cell::new(0))
        {
            self.last.places.set(places);
        }
    }

    // This many places, each with the same match.
    fn all_of(
        &self,
        own: &'a Match<'a>,
        count: usize,
    ) -> Result<&'a [Cell<&'a Match<'a>>], AllocError> {
        let places = self
            .last
            .arena
            .try_alloc_slice_fill_clone(count, Cell::new(own))?;
        Ok(places)
    }

    // Makes the cache of used matches this large. One match fills it at first, which is harmless, since matches are
    // compared.
    fn keep_matches(&self, own: &'a Match<'a>, count: usize) -> Result<(), AllocError> {
        let used = self.all_of(own, count)?;
        let numbers = self
            .last
            .arena
            .try_alloc_slice_fill_clone(count, Cell::new(0))?;
        self.last.used.set(used);
        self.last.numbers.set(numbers);
        Ok(())
    }

    // The last knowledge of each component. Allocated when it is first needed.
    fn known(&self) -> Result<&'a LastKnown, AllocError> {
        if let Some(known) = self.last.each.get() {
            return Ok(known);
        }
        let known = self.last.arena.try_alloc(LastKnown::new())?;
        self.last.each.set(Some(known));
        Ok(known)
    }

    /// The last knowledge of a component after learning a value.
    pub(crate) fn having(&self, component: usize) -> Result<&'a Cell<Option<Shared>>, AllocError> {
        let known = &self.known()?.having[..];
        Ok(&known[component % 8])
    }

    /// The last knowledge of a component after ruling a value out.
    pub(crate) fn lacking(&self, component: usize) -> Result<&'a Cell<Option<Shared>>, AllocError> {
        let known = &self.known()?.lacking[..];
        Ok(&known[component % 8])
    }

    /// Whether two states may be compared at this cost, which is then spent.
    pub(crate) fn may_compare(&self, cost: u64) -> bool {
        match self
            .last
            .compared
            .get()
            .checked_sub(cost.saturating_add(LEAST))
        {
            Some(left) => {
                self.last.compared.set(left);
                true
            }
            None => false,
        }
    }

    /// Whether this many bytes of parameters may be compared for sharing, which are then spent.
    pub(crate) fn may_read(&self, bytes: usize) -> bool {
        match self.last.left.get().checked_sub(bytes as u64) {
            Some(left) => {
                self.last.left.set(left);
                true
            }
            None => false,
        }
    }
}
