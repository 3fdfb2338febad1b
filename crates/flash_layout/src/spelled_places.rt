//! Finding components in a layout by the spelling of their identifiers.

ghost use Rattle.std.specs.Prelude.{◌≡◌, ◌≤◌, ◌↔◌, ℕ, List, length, Ok, IsOk, IsTrue, IfOk, IfErr, MatchOption};
ghost use Rattle.det_cbor.specs.DataItem.{ArrayOf, spell};
ghost use Rattle.suit_params.specs.Identifiers.{identifier_items};
ghost use Rattle.flash_layout.specs.PageReading.{identifier_at, parts_from};
ghost use Rattle.flash_layout.specs.Placement.{ArePlaces, HasPlace, HaveOtherPlaces, IsFirstUnknown, IsUnknown};

use crate::frame::MOST_ENTRIES;
use crate::place::MAX_COMPONENTS;
use crate::{Entry, Layout, Places, Unknown};
use det_cbor::{Bytes, Cursor};
use suit_params::{Identifier, bytes_left, read_array, read_content, read_item};

// Whether the next byte strings are these parts.
fn are_parts(parts: &[Bytes], mut items: Cursor<'_>) -> bool
    requires { IsOk (parts_from (length parts.now) items) }
    ensures { IsTrue result ↔ (parts_from (length parts.now) items.entry ≡ Ok parts.now) }
{
    for part in parts {
        let content = read_content(&mut items).unwrap();
        if bytes_left(content) != part.as_slice() {
            return false;
        }
    }
    true
}

// Whether the bytes spell this identifier.
fn is_spelled(identifier: &Identifier, bytes: &[u8]) -> bool
    requires { IsOk (identifier_at bytes.now) }
    ensures { IsTrue result ↔ (identifier_at bytes.now ≡ Ok identifier.now) }
{
    let mut item = Cursor::new(bytes, 0);
    let count = read_array(&mut item).unwrap();
    count == identifier.len() as u64 && are_parts(identifier.as_slice(), item)
}

// The index of the component whose identifier the bytes spell, if there is one.
fn find_spelled(entries: &[Entry], bytes: &[u8]) -> Option<usize>
    requires { IsOk (identifier_at bytes.now) }
    ensures { (id : List (List ℕ)) → identifier_at bytes.now ≡ Ok id
        → MatchOption result (IsUnknown entries.now id) (HasPlace entries.now id) }
{
    for i in 0..entries.len() {
        if is_spelled(&entries[i].identifier, bytes) {
            return Some(i);
        }
    }
    None
}

/// Finds a manifest's components in a layout, or else the first one that the layout does not have.
/// Their identifiers are given as the spelling of their array, as it is in a manifest
/// (draft-ietf-suit-manifest-25, section 8.4.5). Allocates nothing.
pub fn places_spelled(layout: &Layout, identifiers: &[u8]) -> Result<Places, Unknown>
    requires entries { length layout.now ≤ MOST_ENTRIES }
    requires components { (ids : List (List (List ℕ)))
        × (identifiers.now ≡ spell (ArrayOf (identifier_items ids))) × (length ids ≤ MAX_COMPONENTS) }
    ensures ok { (ids : List (List (List ℕ)))
        → identifiers.now ≡ spell (ArrayOf (identifier_items ids))
        → IfOk result (ArePlaces layout.now ids) }
    ensures other { (ids : List (List (List ℕ)))
        → identifiers.now ≡ spell (ArrayOf (identifier_items ids))
        → IfOk result (HaveOtherPlaces ids) }
    ensures unknown { (ids : List (List (List ℕ)))
        → identifiers.now ≡ spell (ArrayOf (identifier_items ids))
        → IfErr result (λ u. IsFirstUnknown layout.now ids u.component) }
{
    let entries = layout.as_slice();
    let mut items = Cursor::new(identifiers, 0);
    let count = read_array(&mut items).unwrap() as usize;
    let mut layout_index = [0u32; MAX_COMPONENTS];
    for k in 0..count {
        let item = read_item(&mut items).unwrap();
        match find_spelled(entries, bytes_left(item)) {
            Some(i) => layout_index[k] = i as u32,
            None => return Err(Unknown {
                component: k as u32,
            }),
        }
    }
    Ok(Places {
        count: count as u32,
        layout_index,
    })
}
