//! Components with the same identifier.

ghost use Rattle.std.specs.Prelude.{◌≤◌, ◌<◌, length, MatchOption};
ghost use Rattle.suit_params.specs.Alike.{HasNoLike, IsFirstLike, TellsAlike};

use crate::Identifier;

/// Something with a component identifier.
pub trait Identified {
    ghost use Rattle.std.specs.Prelude.{◌≡◌, ℕ, List};

    ghost id: { Self → List (List ℕ) };

    fn identifier(&self) -> &Identifier
        ensures { result.now ≡ id self.now };
}

impl Identified for Identifier {
    ghost id = { λ parts. parts };

    fn identifier(&self) -> &Identifier {
        self
    }
}

/// A list of things with identifiers, by their numbers.
pub trait IdentifiedList {
    ghost use Rattle.std.specs.Prelude.{◌≡◌, ◌<◌, ℕ, List, length, MatchBool};
    ghost use Rattle.suit_params.specs.Alike.{HaveOneId, HaveOtherIds};

    type Item;

    ghost items: { Self → List Self.Item };

    ghost id_of: { Self.Item → List (List ℕ) };

    /// Whether these two have the same identifier.
    fn are_same(&mut self, one: usize, other: usize) -> bool
        requires one { one < length (items self.old) }
        requires other { other < length (items self.old) }
        ensures told { MatchBool result
            (HaveOneId id_of (items self.old) one other)
            (HaveOtherIds id_of (items self.old) one other) }
        ensures kept { self.new ≡ self.old };
}

impl<'a, T: Identified> IdentifiedList for &'a [T] {
    type Item = T;

    ghost items = { λ all. all.now };

    ghost id_of = { T.id };

    fn are_same(&mut self, one: usize, other: usize) -> bool {
        self[one].identifier().is_same(self[other].identifier())
    }
}

/// The number of the first thing before `last` with the same identifier, if there is one.
pub fn first_like<L: IdentifiedList + Drop>(mut all: L, last: usize) -> Option<usize>
    requires { last < length (L.items all) }
    ensures { MatchOption result
        (HasNoLike L.id_of (L.items all) last)
        (IsFirstLike L.id_of (L.items all) last) }
{
    for i in 0..last {
        if all.are_same(i, last) {
            return Some(i);
        }
    }
    None
}

/// The numbers of the first two of at most eight things with the same identifier: the second is as
/// low as possible, and then the first.
pub fn first_alike<T: Identified>(all: &[T]) -> Option<(u32, u32)>
    requires { length all.now ≤ 8 }
    ensures { TellsAlike T.id all.now result }
{
    for last in 0..all.len() {
        if let Some(first) = first_like(all, last) {
            return Some((first as u32, last as u32));
        }
    }
    None
}
