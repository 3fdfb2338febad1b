//! Lists of component indices.

ghost use Rattle.std.specs.Prelude.{◌≡◌, ◌<◌, length, slice_index, IsOk, Ok};
ghost use Rattle.suit_commands.specs.SequenceReading.{indices_from};
ghost use Rattle.suit_cursor.specs.Lending.{LendsIndex};

use det_cbor::Cursor;
use std::marker::Model;
use suit_commands::read_element;
use suit_params::same_place;

/// The indices of a list that are left, in the order in which they are selected, borrowed from
/// bytes that were judged.
#[derive(Drop)]
pub struct LentIndices<'a> {
    pub(crate) cursor: Cursor<'a>,
    pub(crate) left: u64,
    pub(crate) list: u64,
    pub(crate) count: u32,
}

impl<'a> Model for LentIndices<'a> {
    ghost use Rattle.std.specs.Prelude.{List, ℕ};

    ghost Value = { List ℕ };

    ghost use Rattle.suit_cursor.specs.LentParts.{lent_indices, AreIndices};

    ghost view = { λ s. lent_indices s.count s.list s.left s.cursor };

    ghost invariant = { λ s. AreIndices s.count s.list s.left s.cursor };
}

/// Borrows the next `elements` indices of the list whose place is `list`, and moves the cursor past
/// them.
pub(crate) fn lend_indices<'a>(
    cursor: &mut Cursor<'a>,
    list: u64,
    elements: u64,
    count: u32,
) -> LentIndices<'a>
    requires { IsOk (indices_from count list elements cursor.old) }
    ensures { indices_from count list elements cursor.old ≡ Ok (result, cursor.new) }
{
    let indices = LentIndices {
        cursor: same_place(cursor),
        left: elements,
        list,
        count,
    };
    for _ in 0..elements {
        read_element(cursor, list, count).unwrap();
    }
    indices
}

impl<'a> LentIndices<'a> {
    /// The number of indices left.
    pub fn len(&self) -> u64
        ensures { result ≡ length self.now }
    {
        self.left
    }

    /// A copy, which borrows the same indices.
    pub fn copy(&mut self) -> LentIndices<'a>
        ensures copied { result ≡ self.old }
        ensures same { self.new ≡ self.old }
    {
        LentIndices {
            cursor: same_place(&mut self.cursor),
            left: self.left,
            list: self.list,
            count: self.count,
        }
    }

    /// The next index, or `None` at the end.
    pub fn next(&mut self) -> Option<u32>
        ensures { LendsIndex self.old self.new result }
    {
        if self.left == 0 {
            return None;
        }
        let index = read_element(&mut self.cursor, self.list, self.count).unwrap();
        self.left -= 1;
        Some(index)
    }

    /// The n-th index, counted from 0.
    pub(crate) fn at(mut self, n: u32) -> u32
        requires { n < length self }
        ensures { result ≡ slice_index self.entry n }
    {
        for _ in 0..n {
            self.next();
        }
        self.next().unwrap()
    }
}
