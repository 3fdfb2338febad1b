//! Whether a data item has a spelling at all (RFC 8949, section 4.2.1, with at most 16 levels).

ghost use Rattle.std.specs.Prelude.{◌≡◌, ℕ, ◌+◌, ◌^◌, ◌<◌, ◌≤◌, ◌↔◌, length, IsTrue, IfSome, option_map};
ghost use Rattle.std.specs.Str.{IsUtf8};
ghost use Rattle.det_cbor.specs.DataItem.{IsString, IsAbove, IsValid, IsValidWithin, AreValidWithin, ArePairsWithin, spell, item_count, pair_count};
ghost use Rattle.det_cbor.specs.DataLists.{items_of, pairs_of};
ghost use Rattle.det_cbor.specs.ItemTree.{tree_of};

use crate::compare::compare_spellings;
use crate::{Item, Items, Pairs};
use std::cmp::Ordering;

// How deep arrays, maps and tags may nest.
pub(crate) const MAX_LEVELS: u8 = 16;

/// Whether an item is valid: the keys of each map ascend in the bytewise order of their spellings,
/// texts are UTF-8, and arrays, maps and tags nest at most 16 deep.
///
/// Allocates nothing, and looks no deeper than the 17th level.
pub fn valid(item: &Item) -> bool
    ensures { IsTrue result ↔ IsValid (tree_of item.now) }
{
    is_valid_within(0, item)
}

// Whether a head can hold the number. Any `u64` fits; the proof needs it said.
fn is_number(number: u64) -> bool
    ensures { IsTrue result ↔ (number < 2 ^ 64) }
{
    number <= u64::MAX
}

// Whether a head can hold the number of bytes, which it always can.
fn is_string(bytes: &[u8]) -> bool
    ensures { IsTrue result ↔ IsString bytes.now }
{
    is_number(bytes.len() as u64)
}

fn is_text(text: &str) -> bool
    ensures { IsTrue result ↔ (IsString text.now × IsUtf8 text.now) }
{
    is_string(text.as_bytes())
}

// Whether a head can hold the number of items, which it always can.
#[tactic(auto, using(crate::proofs::Counts::items_counted))]
fn is_item_count(items: &Items) -> bool
    ensures { IsTrue result ↔ (item_count (items_of items.now) < 2 ^ 64) }
{
    is_number(items.len() as u64)
}

#[tactic(auto, using(crate::proofs::Counts::pairs_counted))]
fn is_pair_count(pairs: &Pairs) -> bool
    ensures { IsTrue result ↔ (pair_count (pairs_of pairs.now) < 2 ^ 64) }
{
    is_number(pairs.len() as u64)
}

// Whether a key sorts above the key before it.
fn is_above(before: Option<&Item>, key: &Item) -> bool
    requires key { IsValid (tree_of key.now) }
    requires before { IfSome before (λ x. IsValid (tree_of x.now)) }
    ensures { IsTrue result
        ↔ IsAbove (option_map (λ x. spell (tree_of x.now)) before.entry) (spell (tree_of key.now)) }
{
    match before {
        None => true,
        Some(before) => compare_spellings(before, key) == Ordering::Less,
    }
}

// Whether an item is valid inside `levels` arrays, maps and tags.
#[cycle(valid)]
fn is_valid_within(levels: u8, item: &Item) -> bool
    ensures { IsTrue result ↔ IsValidWithin levels (tree_of item.now) }
{
    match item {
        Item::Unsigned(number) => is_number(*number),
        Item::Negative(number) => is_number(*number),
        Item::Bytes(bytes) => is_string(bytes.as_slice()),
        Item::Text(text) => is_text(text.as_str()),
        Item::Array(items) => levels < MAX_LEVELS
            && is_item_count(items)
            && are_items_valid(levels + 1, items),
        Item::Map(pairs) => levels < MAX_LEVELS
            && is_pair_count(pairs)
            && are_pairs_valid(levels + 1, pairs),
        Item::Tagged(tag, inner) => levels < MAX_LEVELS
            && is_number(*tag)
            && is_valid_within(levels + 1, &inner.held),
        Item::Bool(_) | Item::Null => true,
    }
}

#[cycle(valid)]
fn are_items_valid(levels: u8, items: &Items) -> bool
    ensures { IsTrue result ↔ AreValidWithin levels (items_of items.now) }
{
    for item in &items.held {
        if !is_valid_within(levels, item) {
            return false;
        }
    }
    true
}

#[cycle(valid)]
#[tactic(auto, using(crate::specs::LevelLaws::valid_alone))]
fn are_pairs_valid(levels: u8, pairs: &Pairs) -> bool
    ensures { IsTrue result ↔ ArePairsWithin levels None (pairs_of pairs.now) }
{
    let mut before: Option<&Item> = None;
    for (key, value) in &pairs.held {
        if !is_valid_within(levels, key)
            || !is_above(before, key)
            || !is_valid_within(levels, value)
        {
            return false;
        }
        before = Some(key);
    }
    true
}
