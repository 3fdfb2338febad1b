//! The bytewise order of the spellings of data items, found without spelling them.

ghost use Rattle.std.specs.Prelude.{◌≡◌};
ghost use Rattle.std.specs.Ordering.{nat_cmp};
ghost use Rattle.std.specs.Cmp.Lexicographic.{slice_cmp};
ghost use Rattle.det_cbor.specs.DataItem.{spell, IsValid};
ghost use Rattle.det_cbor.specs.DataLists.{items_of, pairs_of};
ghost use Rattle.det_cbor.specs.ItemOrder.{head_order, parts_order, items_order, pairs_order, item_order, pair_order};
ghost use Rattle.det_cbor.specs.ItemTree.{tree_of, pair_of};

use crate::head_writing::{argument, major_type};
use crate::item_head::head_of;
use crate::{Item, Items, Pairs};
use std::cmp::Ordering;

fn compare_heads(left: &Item, right: &Item) -> Ordering
    ensures { result ≡ head_order (tree_of left.now) (tree_of right.now) }
{
    let left = head_of(left);
    let right = head_of(right);
    match major_type(left.kind).cmp(&major_type(right.kind)) {
        Ordering::Equal => argument(left).cmp(&argument(right)),
        decided => decided,
    }
}

#[cycle(compare)]
fn compare_by_parts(left: &Item, right: &Item) -> Ordering
    ensures { result ≡ item_order (tree_of left.now) (tree_of right.now) }
{
    match compare_heads(left, right) {
        Ordering::Equal => compare_parts(left, right),
        decided => decided,
    }
}

// Compares what follows the heads of two items whose heads are equal.
#[cycle(compare)]
fn compare_parts(left: &Item, right: &Item) -> Ordering
    ensures { result ≡ parts_order (tree_of left.now) (tree_of right.now) }
{
    match (left, right) {
        (Item::Bytes(left), Item::Bytes(right)) => left.as_slice().cmp(right.as_slice()),
        (Item::Text(left), Item::Text(right)) => left.as_str().cmp(right.as_str()),
        (Item::Array(left), Item::Array(right)) => compare_items(left, right),
        (Item::Map(left), Item::Map(right)) => compare_pairs(left, right),
        (Item::Tagged(_, left), Item::Tagged(_, right)) => compare_by_parts(
            &left.held,
            &right.held,
        ),
        _ => Ordering::Equal,
    }
}

#[cycle(compare)]
fn compare_items(left: &Items, right: &Items) -> Ordering
    ensures { result ≡ items_order (items_of left.now) (items_of right.now) }
{
    for (index, item) in left.held.iter().enumerate() {
        let Some(other) = right.held.get(index) else {
            return Ordering::Equal;
        };
        match compare_by_parts(item, other) {
            Ordering::Equal => {}
            decided => return decided,
        }
    }
    Ordering::Equal
}

#[cycle(compare)]
fn compare_pair(left: &(Item, Item), right: &(Item, Item)) -> Ordering
    ensures { result ≡ pair_order (pair_of left.now) (pair_of right.now) }
{
    match compare_by_parts(&left.0, &right.0) {
        Ordering::Equal => compare_by_parts(&left.1, &right.1),
        decided => decided,
    }
}

#[cycle(compare)]
#[tactic(auto, using(crate::proofs::Cuts::first_decides))]
fn compare_pairs(left: &Pairs, right: &Pairs) -> Ordering
    ensures { result ≡ pairs_order (pairs_of left.now) (pairs_of right.now) }
{
    for (index, pair) in left.held.iter().enumerate() {
        let Some(other) = right.held.get(index) else {
            return Ordering::Equal;
        };
        match compare_pair(pair, other) {
            Ordering::Equal => {}
            decided => return decided,
        }
    }
    Ordering::Equal
}

/// Compares the spellings of two valid items byte by byte, without spelling them.
pub(crate) fn compare_spellings(left: &Item, right: &Item) -> Ordering
    requires left { IsValid (tree_of left.now) }
    requires right { IsValid (tree_of right.now) }
    ensures { result ≡ slice_cmp nat_cmp (spell (tree_of left.now)) (spell (tree_of right.now)) }
{
    compare_by_parts(left, right)
}
