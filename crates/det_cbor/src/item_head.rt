//! The head of an item.

ghost use Rattle.std.specs.Prelude.{◌≡◌};
ghost use Rattle.det_cbor.specs.HeadSpelling.{major_of, argument_of, IsValueOf};
ghost use Rattle.det_cbor.specs.ItemOrder.{major_type, head_argument};
ghost use Rattle.det_cbor.specs.ItemTree.{tree_of};

use crate::{Head, HeadKind, Item};

// Short for the struct, so that each kind of item below fits on one line.
fn head(kind: HeadKind, value: u64) -> Head
    ensures { result ≡ record { kind = kind; value = value } }
{
    Head { kind, value }
}

/// The head that the item's spelling begins with.
#[tactic(auto, using(crate::proofs::Counts::items_counted, crate::proofs::Counts::pairs_counted))]
pub(crate) fn head_of(item: &Item) -> Head
    ensures whole { IsValueOf result.kind result.value }
    ensures major { major_of result.kind ≡ major_type (tree_of item.now) }
    ensures argument { argument_of result.kind result.value ≡ head_argument (tree_of item.now) }
{
    match item {
        Item::Unsigned(number) => head(HeadKind::Unsigned, *number),
        Item::Negative(number) => head(HeadKind::Negative, *number),
        Item::Bytes(bytes) => head(HeadKind::Bytes, bytes.len() as u64),
        Item::Text(text) => head(HeadKind::Text, text.len() as u64),
        Item::Array(items) => head(HeadKind::Array, items.len() as u64),
        Item::Map(pairs) => head(HeadKind::Map, pairs.len() as u64),
        Item::Tagged(tag, _) => head(HeadKind::Tag, *tag),
        Item::Bool(false) => head(HeadKind::Bool, 0),
        Item::Bool(true) => head(HeadKind::Bool, 1),
        Item::Null => head(HeadKind::Null, 0),
    }
}
