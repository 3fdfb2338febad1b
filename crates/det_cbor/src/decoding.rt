//! Decoding of one item.

ghost use Rattle.std.specs.Prelude.{◌≡◌, ℕ, None, IfOk, IfErr};
ghost use Rattle.det_cbor.specs.declared.reason.Reason.{Reason};
ghost use Rattle.det_cbor.specs.DataItem.{DataItem, TaggedItem};
ghost use Rattle.det_cbor.specs.Decoding.{Gives, IsFaultOf, IsDecoded, IsRefusedAt};
ghost use Rattle.det_cbor.specs.Faults.{Faulty};
ghost use Rattle.det_cbor.specs.ItemReading.{items_by, pairs_by, item_at};
ghost use Rattle.det_cbor.specs.ItemTree.{tree_of};
ghost use Rattle.det_cbor.specs.OneReading.{StartsWithItem};

use crate::parts::{first_head, order, part_levels, read_before, string_in, text_in};
use crate::read_fault::ReadFault;
use crate::validity::MAX_LEVELS;
use crate::{Bytes, CborFault, HeadKind, Inner, Item, Items, Pairs, Reason, Text};
use std::alloc::Global;

// Reads one item that nests at most `levels` deep.
#[cycle(read)]
#[tactic(auto, using(crate::proofs::ReadingSteps::item_at_is))]
fn read_item(alloc: Global, bytes: &[u8], levels: u8) -> Result<(Item, &[u8]), ReadFault>
    ensures { Gives (λ x. (tree_of x.0, x.1.now)) result (item_at levels bytes.now) }
{
    let (head, rest) = first_head(bytes)?;
    match head.kind {
        HeadKind::Unsigned => Ok((Item::Unsigned(head.value), rest)),
        HeadKind::Negative => Ok((Item::Negative(head.value), rest)),
        HeadKind::Bytes => {
            let (string, rest) = string_in(bytes, head.value, rest)?;
            Ok((Item::Bytes(Bytes::from_slice(alloc, string)?), rest))
        }
        HeadKind::Text => {
            let (text, rest) = text_in(bytes, head.value, rest)?;
            Ok((Item::Text(Text::from_str(alloc, text)?), rest))
        }
        HeadKind::Array => {
            let (items, rest) = read_items(alloc, head.value, rest, part_levels(bytes, levels)?)?;
            Ok((Item::Array(items), rest))
        }
        HeadKind::Map => {
            let (pairs, rest) = read_pairs(alloc, head.value, rest, part_levels(bytes, levels)?)?;
            Ok((Item::Map(pairs), rest))
        }
        HeadKind::Tag => {
            let (item, rest) = read_item(alloc, rest, part_levels(bytes, levels)?)?;
            Ok((Item::Tagged(head.value, Inner::new(alloc, item)?), rest))
        }
        HeadKind::Bool => Ok((Item::Bool(head.value == 1), rest)),
        HeadKind::Null => Ok((Item::Null, rest)),
    }
}

#[cycle(read)]
fn read_items(
    alloc: Global,
    count: u64,
    bytes: &[u8],
    levels: u8,
) -> Result<(Items, &[u8]), ReadFault>
    ensures { Gives (λ x. (x.0, x.1.now)) result (items_by (item_at levels) count bytes.now) }
{
    let mut items = Items::new(alloc);
    let mut rest = bytes;
    for _ in 0..count {
        let (item, after) = read_item(alloc, rest, levels)?;
        items.push(item)?;
        rest = after;
    }
    Ok((items, rest))
}

#[cycle(read)]
fn read_pairs(
    alloc: Global,
    count: u64,
    bytes: &[u8],
    levels: u8,
) -> Result<(Pairs, &[u8]), ReadFault>
    ensures { Gives (λ x. (x.0, x.1.now)) result (pairs_by (item_at levels) None count bytes.now) }
{
    let mut pairs = Pairs::new(alloc);
    let mut rest = bytes;
    let mut before = None;
    for _ in 0..count {
        let (key, after_key) = read_item(alloc, rest, levels)?;
        let spelled = read_before(rest, after_key);
        order(rest, before, spelled)?;
        let (value, after) = read_item(alloc, after_key, levels)?;
        pairs.push(key, value)?;
        before = Some(spelled);
        rest = after;
    }
    Ok((pairs, rest))
}

/// Decodes the item at the front of the bytes, and returns it with the number of bytes that it
/// takes (RFC 8949, section 4.2.1). Bytes after it are ignored. Allocates only for the item, and
/// frees all of it after a fault.
pub fn decode(alloc: Global, bytes: &[u8]) -> Result<(Item, usize), CborFault>
    ensures item { IfOk result (λ r. StartsWithItem bytes.now (tree_of r.0) r.1) }
    ensures fault { IfErr result (IsFaultOf bytes.now) }
    ensures every_item { (x : DataItem) (used : ℕ) → StartsWithItem bytes.now x used
        → IsDecoded x used result }
    ensures every_fault { (place : ℕ) (reason : Reason) → Faulty 0 bytes.now place reason
        → IsRefusedAt place reason result }
{
    match read_item(alloc, bytes, MAX_LEVELS) {
        Ok((item, rest)) => Ok((item, bytes.len().saturating_sub(rest.len()))),
        Err(ReadFault::Stopped(stop)) => Err(CborFault::Refused {
            place: bytes.len().saturating_sub(stop.left) as u64,
            reason: stop.reason,
        }),
        Err(ReadFault::NoMemory) => Err(CborFault::NoMemory),
    }
}
