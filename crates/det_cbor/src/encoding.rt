//! Writing data items to the end of a list of bytes.

ghost use Rattle.std.specs.Prelude.{◌≡◌, ◌++◌, OnOk, OnErr, IfOk};
ghost use Rattle.det_cbor.specs.DataItem.{spell, spell_items, spell_pairs, IsValid, Spells};
ghost use Rattle.det_cbor.specs.DataLists.{items_of, pairs_of};
ghost use Rattle.det_cbor.specs.OneReading.{ReadsBack};
ghost use Rattle.det_cbor.specs.Prefix.{IsPrefix};
ghost use Rattle.det_cbor.specs.Heads.{head_bytes};
ghost use Rattle.det_cbor.specs.ItemOrder.{major_type, head_argument, spell_parts};
ghost use Rattle.det_cbor.specs.ItemTree.{tree_of};

use crate::item_head::head_of;
use crate::{Bytes, Item, Items, Pairs, push_head};
use std::alloc::{AllocError, Global};

/// Encodes a valid item in its one spelling. `decode` gives the item back, whatever bytes follow.
#[tactic(auto, using(crate::proofs::ReadingBack::reads_back))]
pub fn encode(alloc: Global, item: &Item) -> Result<Bytes, AllocError>
    requires { IsValid (tree_of item.now) }
    ensures spells { IfOk result (λ bytes. Spells (tree_of item.now) bytes) }
    ensures spelling { IfOk result (λ bytes. bytes ≡ spell (tree_of item.now)) }
    ensures reads_back { IfOk result (ReadsBack (tree_of item.now)) }
{
    let mut out = Bytes::new(alloc);
    push_item(&mut out, item)?;
    Ok(out)
}

// Appends an item's head.
fn push_item_head(out: &mut Bytes, item: &Item) -> Result<(), AllocError>
    ensures ok { OnOk result
        (out.new
        ≡ out.old
        ++ head_bytes (major_type (tree_of item.now)) (head_argument (tree_of item.now))) }
    ensures err { OnErr result (IsPrefix out.old out.new) }
{
    push_head(out, head_of(item))
}

/// Appends an item's spelling. If memory runs out, a part of it may have been appended.
///
/// Recurses as deep as the item nests, which is at most 16 levels for a valid item.
#[cycle(push)]
pub fn push_item(out: &mut Bytes, item: &Item) -> Result<(), AllocError>
    ensures ok { OnOk result (out.new ≡ out.old ++ spell (tree_of item.now)) }
    ensures err { OnErr result (IsPrefix out.old out.new) }
{
    push_item_head(out, item)?;
    push_parts(out, item)
}

// Appends what follows an item's head.
#[cycle(push)]
fn push_parts(out: &mut Bytes, item: &Item) -> Result<(), AllocError>
    ensures ok { OnOk result (out.new ≡ out.old ++ spell_parts (tree_of item.now)) }
    ensures err { OnErr result (IsPrefix out.old out.new) }
{
    match item {
        Item::Bytes(bytes) => out.extend(bytes.as_slice()),
        Item::Text(text) => out.extend(text.as_str().as_bytes()),
        Item::Array(items) => push_items(out, items),
        Item::Map(pairs) => push_pairs(out, pairs),
        Item::Tagged(_, inner) => push_item(out, &inner.held),
        Item::Unsigned(_) | Item::Negative(_) | Item::Bool(_) | Item::Null => Ok(()),
    }
}

#[cycle(push)]
fn push_items(out: &mut Bytes, items: &Items) -> Result<(), AllocError>
    ensures ok { OnOk result (out.new ≡ out.old ++ spell_items (items_of items.now)) }
    ensures err { OnErr result (IsPrefix out.old out.new) }
{
    for item in &items.held {
        push_item(out, item)?;
    }
    Ok(())
}

#[cycle(push)]
fn push_pairs(out: &mut Bytes, pairs: &Pairs) -> Result<(), AllocError>
    ensures ok { OnOk result (out.new ≡ out.old ++ spell_pairs (pairs_of pairs.now)) }
    ensures err { OnErr result (IsPrefix out.old out.new) }
{
    for (key, value) in &pairs.held {
        push_item(out, key)?;
        push_item(out, value)?;
    }
    Ok(())
}
