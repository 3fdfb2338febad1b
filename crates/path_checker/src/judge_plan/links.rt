//! An index of many matches: a hash table by some bits of their fingerprints, whose buckets are trees by the others.
//! Matches are linked lazily, all at once when one is searched. A missing or wrong link only costs time, since each match
//! that is found is compared.

ghost use Rattle.std.specs.Prelude.{◌≡◌, IsTrue, IfSome, None};
ghost use Rattle.path_checker.specs.Exploring.{In};
ghost use Rattle.path_checker.specs.Matches.{match_of, all_lent};

use crate::judge_plan::matches::{Lent, Match};
use std::alloc::{AllocError, Global};

// How deep a tree is searched.
const DEEPEST: u32 = 576;

// The first twelve bits of a mark choose the sides in a tree, and behind these all 64 bits of the fingerprint: many
// matches with the same mark can be found in minutes.
const DEEP: u32 = 12;

// With this many matches to a bucket on average, the index is built anew with more buckets.
const CROWD: usize = 4;

// The form of an index. That of a list that is not long has more links for each match, so its trees are less deep, and
// more bits in a link to tell matches apart.
#[derive(Clone, Copy)]
struct Form {
    // How many bits of a fingerprint choose a side.
    bits: u32,
    // The bits of a link that hold an index.
    indices: u32,
}

// A list that is no longer than this when it is indexed gets the form with four sides, and keeps it while it is shorter
// than four times this, since only then there are too few buckets. So 18 bits hold an index.
const SHORT: usize = 65_536;

impl Form {
    // The form for so many matches.
    fn for_many(count: usize) -> Form {
        if count > SHORT {
            Form {
                bits: 1,
                indices: 0x00ff_ffff,
            }
        } else {
            Form {
                bits: 2,
                indices: 0x0003_ffff,
            }
        }
    }

    // How many sides there are.
    fn sides(self) -> usize {
        1_usize.wrapping_shl(self.bits)
    }

    // The depth from which on all bits of the fingerprint choose the side.
    fn deep(self) -> u32 {
        DEEP / self.bits.max(1)
    }
}

// A link to a match: its index plus 1, or 0 for none, in the low bits, and the highest bits of its fingerprint above.
#[derive(Clone, Copy)]
struct Link {
    bits: u32,
}

// The bits of a fingerprint that choose the bucket.
fn middle_of(print: u64) -> usize {
    ((print >> 32) & 0x00ff_ffff) as usize
}

// The half of a fingerprint whose highest bits are in links.
fn high_of(print: u64) -> u32 {
    (print >> 32) as u32
}

impl Link {
    fn none() -> Link {
        Link { bits: 0 }
    }

    // A link to an index, unless it is too large.
    fn to(index: usize, print: u64, form: Form) -> Link {
        match u32::try_from(index) {
            Ok(index) if index < form.indices => Link {
                bits: high_of(print) & !form.indices | index + 1,
            },
            _ => Link::none(),
        }
    }

    fn index(self, form: Form) -> Option<usize> {
        let index = (self.bits & form.indices).checked_sub(1)?;
        Some(index as usize)
    }

    fn may_be(self, print: u64, form: Form) -> bool {
        (self.bits ^ high_of(print)) & !form.indices == 0
    }
}

// Where a match is linked, or would be.
#[derive(Clone, Copy)]
enum Place {
    // At the root of a bucket.
    First,
    // Below the match at an index, on a side.
    Below { at: usize, side: usize },
    // Nowhere: the search gave up.
    Lost,
}

/// The end of a search: the index of the wanted match, or the place where it would be linked.
#[derive(Clone, Copy)]
pub(crate) struct Ended {
    pub found: Option<usize>,
    place: Place,
}

impl Ended {
    /// A search that gave up.
    pub(crate) fn lost() -> Ended
        ensures { result.found ≡ None }
    {
        Ended {
            found: None,
            place: Place::Lost,
        }
    }
}

/// An index over the first matches of a list. The others are linked when one is searched.
#[derive(Drop)]
pub(crate) struct Links {
    form: Form,
    // The roots of the buckets: none, or a power of two.
    first: Vec<Link>,
    // The links to the children of each match, one for each side.
    below: Vec<Link>,
    // How many matches are linked.
    count: usize,
    // The sum of the fingerprints of all linked matches, in which equal matches count once.
    sum: u64,
}

/// Whether the wanted match is at an index.
pub(crate) fn is_at(all: &[Lent<'_>], at: usize, wanted: &Match<'_>) -> bool
    ensures { IsTrue result → In (match_of wanted.now) (all_lent all.now) }
{
    if at >= all.len() {
        return false;
    }
    let lent = all[at];
    lent.own.is_alike(wanted)
}

/// The index of a match in a list, by a linear search.
pub(crate) fn index_in(all: &[Lent<'_>], wanted: &Match<'_>) -> Option<usize>
    ensures { IfSome result (λ at. In (match_of wanted.now) (all_lent all.now)) }
{
    for at in 0..all.len() {
        if is_at(all, at, wanted) {
            return Some(at);
        }
    }
    None
}

// How much room to reserve in a list. A full one grows by an eighth, since many states hold lists.
fn room_after(len: usize, capacity: usize) -> usize {
    if len < capacity { 0 } else { len / 8 + 1 }
}

// Empty buckets, more than `count` of them, but at most 2^24.
fn first_links(alloc: Global, count: usize) -> Result<Vec<Link>, AllocError> {
    let mut first = Vec::new(alloc);
    first.push(Link::none())?;
    for _ in 0..24_u32 {
        if first.len() > count {
            break;
        }
        let mut more = Vec::from_slice(alloc, &first)?;
        first.append(&mut more)?;
    }
    Ok(first)
}

impl Links {
    /// An empty index without buckets. Does not allocate.
    pub(crate) fn none(alloc: Global) -> Links {
        Links {
            form: Form::for_many(0),
            first: Vec::new(alloc),
            below: Vec::new(alloc),
            count: 0,
            sum: 0,
        }
    }

    /// An empty index with room for `count` matches.
    pub(crate) fn for_many(alloc: Global, count: usize) -> Result<Links, AllocError> {
        let form = Form::for_many(count);
        Ok(Links {
            form,
            first: first_links(alloc, count / 2)?,
            below: Vec::with_capacity(alloc, count.saturating_mul(form.sides()))?,
            count: 0,
            sum: 0,
        })
    }

    /// A copy in memory of its own.
    pub(crate) fn copy(&self, alloc: Global) -> Result<Links, AllocError> {
        Ok(Links {
            form: self.form,
            first: Vec::from_slice(alloc, &self.first)?,
            below: Vec::from_slice(alloc, &self.below)?,
            count: self.count,
            sum: self.sum,
        })
    }

    /// The sum of the fingerprints of all linked matches, in which equal matches count once.
    pub(crate) fn sum(&self) -> u64 {
        self.sum
    }

    // The bucket for a fingerprint.
    fn first_of(&self, print: u64) -> usize {
        middle_of(print) & self.first.len().wrapping_sub(1)
    }

    // The root of the bucket for a fingerprint.
    fn first_link(&self, print: u64) -> Link {
        match self.first.get(self.first_of(print)) {
            Some(link) => *link,
            None => Link::none(),
        }
    }

    // Where the links to the children of the match at an index begin.
    fn below(&self, at: usize) -> usize {
        at.wrapping_shl(self.form.bits)
    }

    // The link to a child of the match at an index. It does not branch by the side, which no processor could foresee.
    fn next(&self, at: usize, side: usize) -> Link {
        match self.below.get(self.below(at).wrapping_add(side)) {
            Some(link) => *link,
            None => Link::none(),
        }
    }

    /// Searches for a match among those that are linked.
    pub(crate) fn search(&self, all: &[Lent<'_>], wanted: &Match<'_>, salt: u64) -> Ended
        ensures { IfSome result.found (λ at. In (match_of wanted.now) (all_lent all.now)) }
    {
        let (form, print) = (self.form, wanted.print(salt));
        let mut bits = print;
        let mut link = self.first_link(print);
        let mut place = Place::First;
        for depth in 0..DEEPEST {
            if depth == form.deep() {
                bits = wanted.whole_print(salt);
            }
            let Some(at) = link.index(form) else {
                return Ended { found: None, place };
            };
            if link.may_be(print, form) && is_at(all, at, wanted) {
                return Ended {
                    found: Some(at),
                    place,
                };
            }
            let side = wanted.side(bits, depth, form.bits);
            place = Place::Below { at, side };
            link = self.next(at, side);
        }
        Ended::lost()
    }

    // Sets the link at a place.
    fn lead(&mut self, print: u64, place: Place, link: Link) {
        match place {
            Place::First => {
                let index = self.first_of(print);
                if let Some(first) = self.first.get_mut(index) {
                    *first = link;
                }
            }
            Place::Below { at, side } => {
                let index = self.below(at).wrapping_add(side);
                if let Some(below) = self.below.get_mut(index) {
                    *below = link;
                }
            }
            Place::Lost => {}
        }
    }

    /// Links the next match of the list at the place where a search for it ended. If the search found one, this match
    /// is there twice, and only the first is linked.
    pub(crate) fn link(
        &mut self,
        own: &Match<'_>,
        ended: Ended,
        salt: u64,
    ) -> Result<(), AllocError> {
        let print = own.print(salt);
        let link = Link::to(self.count, print, self.form);
        let room = room_after(self.below.len(), self.below.capacity());
        self.below.reserve_exact(room)?;
        for _ in 0..self.form.sides() {
            self.below.push(Link::none())?;
        }
        self.count = self.count.saturating_add(1);
        if ended.found.is_none() {
            self.sum = self.sum.wrapping_add(print);
            self.lead(print, ended.place, link);
        }
        Ok(())
    }

    // Starts anew with more buckets, if there are too few for `count` matches.
    fn widen(&mut self, alloc: Global, count: usize) -> Result<(), AllocError> {
        if count / CROWD >= self.first.len() {
            *self = Links::for_many(alloc, count)?;
        }
        Ok(())
    }

    /// Links all matches of a list that are not linked yet.
    pub(crate) fn reach(
        &mut self,
        alloc: Global,
        all: &[Lent<'_>],
        salt: u64,
    ) -> Result<(), AllocError> {
        self.widen(alloc, all.len())?;
        let linked = self.count.min(all.len());
        for lent in &all[linked..] {
            let ended = self.search(all, lent.own, salt);
            self.link(lent.own, ended, salt)?;
        }
        Ok(())
    }
}
