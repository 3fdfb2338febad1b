//! Borrowed identifiers of components.

ghost use Rattle.std.specs.Prelude.{◌≡◌, length};
ghost use Rattle.manifest_view.specs.Lending.{LendsIdentifier, LendsPart};

use det_cbor::Cursor;
use std::marker::Model;
use suit_params::{bytes_left, read_array, read_content, read_item, same_place};

/// The identifiers of components that are left (draft-ietf-suit-manifest-25, section 8.4.5),
/// borrowed from bytes that were judged.
#[derive(Drop)]
pub struct LentIdentifiers<'a> {
    pub(crate) cursor: Cursor<'a>,
    pub(crate) left: u64,
}

impl<'a> Model for LentIdentifiers<'a> {
    ghost use Rattle.std.specs.Prelude.{List, ℕ};

    ghost Value = { List (List (List ℕ)) };

    ghost use Rattle.manifest_view.specs.LentParts.{lent_identifiers, AreIdentifiers};

    ghost view = { λ s. lent_identifiers s.left s.cursor };

    ghost invariant = { λ s. AreIdentifiers s.left s.cursor };
}

/// The byte strings of an identifier that are left, borrowed.
#[derive(Drop)]
pub struct LentIdentifier<'a> {
    cursor: Cursor<'a>,
    left: u64,
}

impl<'a> Model for LentIdentifier<'a> {
    ghost use Rattle.std.specs.Prelude.{List, ℕ};

    ghost Value = { List (List ℕ) };

    ghost use Rattle.manifest_view.specs.LentParts.{lent_parts, AreParts};

    ghost view = { λ s. lent_parts s.left s.cursor };

    ghost invariant = { λ s. AreParts s.left s.cursor };
}

impl<'a> LentIdentifiers<'a> {
    /// The number of identifiers left.
    pub fn len(&self) -> u64
        ensures { result ≡ length self.now }
    {
        self.left
    }

    /// A copy, which borrows the same identifiers.
    pub fn copy(&mut self) -> LentIdentifiers<'a>
        ensures copied { result ≡ self.old }
        ensures same { self.new ≡ self.old }
    {
        LentIdentifiers {
            cursor: same_place(&mut self.cursor),
            left: self.left,
        }
    }

    /// The next identifier, or `None` at the end.
    pub fn next(&mut self) -> Option<LentIdentifier<'a>>
        ensures { LendsIdentifier self.old self.new result }
    {
        if self.left == 0 {
            return None;
        }
        let mut item = read_item(&mut self.cursor).unwrap();
        let parts = read_array(&mut item).unwrap();
        self.left -= 1;
        Some(LentIdentifier {
            cursor: item,
            left: parts,
        })
    }
}

impl<'a> LentIdentifier<'a> {
    /// The content of the next byte string, or `None` at the end.
    pub fn next(&mut self) -> Option<&'a [u8]>
        ensures { LendsPart self.old self.new result }
    {
        if self.left == 0 {
            return None;
        }
        let mut item = read_item(&mut self.cursor).unwrap();
        let content = read_content(&mut item).unwrap();
        self.left -= 1;
        Some(bytes_left(content))
    }
}
