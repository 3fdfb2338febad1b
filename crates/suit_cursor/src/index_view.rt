//! The components that a set component index selects.

ghost use Rattle.std.specs.Prelude.{◌≡◌, ◌<◌, ◌^◌, length, slice_index};
ghost use Rattle.suit_commands.specs.Selections.{selected_by};
ghost use Rattle.suit_cursor.specs.Chosen.{IsListed, listed_in};
ghost use Rattle.suit_cursor.specs.Lending.{selection_of};

use crate::{LentIndices, LentSelection};
use det_cbor::Cursor;
use std::marker::Model;
use suit_params::bytes_left;

// A list of component indices: its elements, which begin at `place`, the place of the list, and the
// number of components.
#[derive(Clone, Copy)]
pub(crate) struct ListedIndices<'a> {
    bytes: &'a [u8],
    place: u64,
    elements: u32,
    list: u64,
    count: u32,
}

#[derive(Clone, Copy)]
pub(crate) enum Chosen<'a> {
    One(u32),
    // All components, of which there are this many.
    All(u32),
    Listed(ListedIndices<'a>),
}

/// The components that a set component index selects, in their order (draft-ietf-suit-manifest-25,
/// section 8.4.10.1).
#[derive(Drop)]
pub struct IndexView<'a> {
    chosen: Chosen<'a>,
}

impl<'a> Model for IndexView<'a> {
    ghost use Rattle.std.specs.Prelude.{List, ℕ};

    ghost Value = { List ℕ };

    ghost use Rattle.suit_cursor.specs.Chosen.{chosen_indices, IsChosen};

    ghost view = { λ s. chosen_indices s.chosen };

    ghost invariant = { λ s. IsChosen s.chosen };
}

impl<'a> ListedIndices<'a> {
    fn of(indices: LentIndices<'a>) -> ListedIndices<'a>
        requires { length indices < 2 ^ 32 }
        ensures listed { IsListed result }
        ensures same { listed_in result ≡ indices.entry }
    {
        let place = indices.cursor.place();
        ListedIndices {
            elements: indices.left as u32,
            list: indices.list,
            count: indices.count,
            bytes: bytes_left(indices.cursor),
            place,
        }
    }

    fn indices(self) -> LentIndices<'a>
        requires { IsListed self }
        ensures { result ≡ listed_in self.entry }
    {
        LentIndices {
            cursor: Cursor::new(self.bytes, self.place),
            left: self.elements as u64,
            list: self.list,
            count: self.count,
        }
    }
}

impl<'a> IndexView<'a> {
    /// The components that an argument selects, of `count` components.
    pub(crate) fn of(selection: LentSelection<'a>, count: u32) -> IndexView<'a>
        requires { length (selected_by (selection_of selection) count) < 2 ^ 32 }
        ensures { result ≡ selected_by (selection_of selection.entry) count }
    {
        let chosen = match selection {
            LentSelection::One(component) => Chosen::One(component),
            LentSelection::All => Chosen::All(count),
            LentSelection::Listed(indices) => Chosen::Listed(ListedIndices::of(indices)),
        };
        IndexView { chosen }
    }

    /// How many components are selected. One that is listed twice counts twice.
    pub fn count(&self) -> u32
        ensures { result ≡ length self.now }
    {
        match self.chosen {
            Chosen::One(_) => 1,
            Chosen::All(count) => count,
            Chosen::Listed(list) => list.elements,
        }
    }

    /// The index of the n-th selected component, counted from 0. Goes through all that come before
    /// it.
    pub fn at(&self, n: u32) -> u32
        requires { n < length self.now }
        ensures { result ≡ slice_index self.now n }
    {
        match self.chosen {
            Chosen::One(component) => component,
            Chosen::All(_) => n,
            Chosen::Listed(list) => list.indices().at(n),
        }
    }
}
