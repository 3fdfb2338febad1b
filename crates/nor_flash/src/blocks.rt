//! Blocks of a device, one at a time.

ghost use Rattle.nor_flash.specs.Blocks.{IsErased, OutsideBlock, name_in, named, named_by};
ghost use Rattle.nor_flash.specs.NorDisks.{ReadCounts, blocks_of};
ghost use Rattle.std.specs.Prelude.{◌≡◌, ◌+◌, ◌*◌, ◌<◌, ◌≤◌, ◌^◌, IfSome, IsTrue};
ghost use Rattle.suit_edge.specs.Edge.{IfDone};
ghost use Rattle.suit_edge.specs.Faults.{EdgeCounts};
ghost use Rattle.suit_edge.specs.Flash.{Grows, IsSame, Keeps};

use crate::{BLOCK, Nor};
use lane_bytes::first_other;
use suit_edge::Edge;

/// The number of blocks of the disk: all of the device's but the last four.
pub(crate) fn count<N: Nor>(nor: &N) -> u64
    ensures count { result ≡ blocks_of (N.extent nor.now) }
    ensures few { result + 4 < 2 ^ 52 }
    ensures all { 4096 * (result + 4) ≡ N.extent nor.now }
{
    nor.size() / BLOCK as u64 - 4
}

/// Erases a block, unless it is erased already.
pub(crate) fn erase<N: Nor>(nor: &mut N, block: u64) -> Edge
    requires { 4096 * block + 4096 ≤ N.extent nor.old }
    ensures size { N.extent nor.new ≡ N.extent nor.old }
    ensures counts { EdgeCounts result (N.faults nor.old) (N.faults nor.new) }
    ensures erased { IsTrue N.told → IfDone result (IsErased block (N.flash nor.new).reads) }
    ensures keeps { IsTrue N.told
        → Keeps (OutsideBlock block) (N.flash nor.old) (N.flash nor.new) }
    ensures grows { IsTrue N.told → Grows (N.flash nor.old) (N.flash nor.new) }
    ensures spared { IsTrue N.told → IsErased block (N.flash nor.old).reads
        → N.erases nor.new ≡ N.erases nor.old }
{
    let _size = nor.size();
    let mut room = [0; BLOCK];
    match nor.read_at(BLOCK as u64 * block, &mut room) {
        Edge::Failed => Edge::Failed,
        Edge::Done => match first_other(&room, 0xff) {
            None => Edge::Done,
            Some(_) => nor.erase(block),
        },
    }
}

/// The number that a block begins with, or `None` if the device failed.
pub(crate) fn name<N: Nor>(nor: &mut N, block: u64) -> Option<u64>
    requires { 4096 * block + 4096 ≤ N.extent nor.old }
    ensures size { N.extent nor.new ≡ N.extent nor.old }
    ensures counts { ReadCounts result (N.faults nor.old) (N.faults nor.new) }
    ensures exact { IsTrue N.told
        → IfSome result (λ name. name ≡ name_in block (N.flash nor.old).reads) }
    ensures same { IsTrue N.told → IsSame (N.flash nor.old) (N.flash nor.new) }
    ensures grows { IsTrue N.told → Grows (N.flash nor.old) (N.flash nor.new) }
{
    let _size = nor.size();
    let mut bytes = [0; 8];
    match nor.read_at(BLOCK as u64 * block, &mut bytes) {
        Edge::Failed => None,
        Edge::Done => Some(u64::from_be_bytes(bytes)),
    }
}

/// The block that the names name, if any. The outer `None` means that the device failed.
pub(crate) fn named_block<N: Nor>(nor: &mut N) -> Option<Option<u64>>
    ensures size { N.extent nor.new ≡ N.extent nor.old }
    ensures counts { ReadCounts result (N.faults nor.old) (N.faults nor.new) }
    ensures within { IfSome result (λ found. IfSome found
        (λ block. block < blocks_of (N.extent nor.old))) }
    ensures exact { IsTrue N.told → IfSome result
        (λ found. found ≡ named (blocks_of (N.extent nor.old)) (N.flash nor.old).reads) }
    ensures same { IsTrue N.told → IsSame (N.flash nor.old) (N.flash nor.new) }
    ensures grows { IsTrue N.told → Grows (N.flash nor.old) (N.flash nor.new) }
{
    let image = count(nor);
    let first = match name(nor, image + 1) {
        None => return None,
        Some(name) => name,
    };
    let second = match name(nor, image + 2) {
        None => return None,
        Some(name) => name,
    };
    let third = match name(nor, image + 3) {
        None => return None,
        Some(name) => name,
    };
    Some(one_name(first, second, third, image))
}

/// The block that all three names name, if they agree and the disk has it.
fn one_name(first: u64, second: u64, third: u64, blocks: u64) -> Option<u64>
    ensures value { result ≡ named_by blocks first second third }
    ensures within { IfSome result (λ block. block < blocks) }
{
    if first == second && second == third && first < blocks {
        Some(first)
    } else {
        None
    }
}
