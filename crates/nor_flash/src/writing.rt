//! Writing the disk.

ghost use Rattle.lane_bytes.specs.Bytes.{OnlyClears};
ghost use Rattle.nor_flash.specs.Blocks.{plain};
ghost use Rattle.nor_flash.specs.NorDisks.{AreErased, Knows, ReadCounts, Writes, blocks_of, nor_flash};
ghost use Rattle.nor_flash.specs.declared.phase.Phase.TheVariants as phases;
ghost use Rattle.std.specs.Prelude.{◌≡◌, ◌↔◌, ◌+◌, ◌*◌, ◌%◌, ◌≤◌, IfSome, IsTrue, length, slice_range};
ghost use Rattle.suit_edge.specs.Edge.{IfDone};
ghost use Rattle.suit_edge.specs.Faults.{EdgeCounts};
ghost use Rattle.suit_edge.specs.Flash.{Grows, IsSame};
ghost use Rattle.suit_edge.specs.Ranges.{written};

use crate::replacing::replace;
use crate::settling::settle;
use crate::{BLOCK, Nor, Phase, blocks};
use lane_bytes::only_clears;
use suit_edge::Edge;

/// Programs bytes of a settled disk that only clear bits of what is there.
fn clear_bits<N: Nor>(nor: &mut N, place: u64, bytes: &[u8]) -> Edge
    requires fits { place + length bytes.now ≤ 4096 * blocks_of (N.extent nor.old) }
    requires block { place % 4096 + length bytes.now ≤ 4096 }
    requires erased { IsTrue N.told
        → AreErased (blocks_of (N.extent nor.old)) (N.flash nor.old).reads }
    requires clears { IsTrue N.told
        → OnlyClears (slice_range (N.flash nor.old).reads place (place + length bytes.now))
        bytes.now }
    ensures size { N.extent nor.new ≡ N.extent nor.old }
    ensures counts { EdgeCounts result (N.faults nor.old) (N.faults nor.new) }
    ensures erased { IsTrue N.told
        → AreErased (blocks_of (N.extent nor.old)) (N.flash nor.new).reads }
    ensures writes { IsTrue N.told → Writes result place bytes.now
        (nor_flash (blocks_of (N.extent nor.old)) phases.Settled (N.flash nor.old))
        (nor_flash (blocks_of (N.extent nor.old)) phases.Settled (N.flash nor.new)) }
    ensures erases { IsTrue N.told → N.erases nor.new ≡ N.erases nor.old }
{
    let _image = blocks::count(nor);
    nor.program(place, bytes)
}

/// Whether the bytes only clear bits of what is there, or `None` if the device failed.
fn clears<N: Nor>(nor: &mut N, place: u64, bytes: &[u8]) -> Option<bool>
    requires fits { place + length bytes.now ≤ N.extent nor.old }
    requires block { length bytes.now ≤ 4096 }
    ensures size { N.extent nor.new ≡ N.extent nor.old }
    ensures counts { ReadCounts result (N.faults nor.old) (N.faults nor.new) }
    ensures exact { IsTrue N.told → IfSome result (λ yes. IsTrue yes
        ↔ OnlyClears (slice_range (N.flash nor.old).reads place (place + length bytes.now))
        bytes.now) }
    ensures same { IsTrue N.told → IsSame (N.flash nor.old) (N.flash nor.new) }
    ensures grows { IsTrue N.told → Grows (N.flash nor.old) (N.flash nor.new) }
    ensures erases { IsTrue N.told → N.erases nor.new ≡ N.erases nor.old }
{
    let mut room = [0; BLOCK];
    let old = &mut room[..bytes.len()];
    match nor.read_at(place, old) {
        Edge::Failed => None,
        Edge::Done => Some(only_clears(old, bytes)),
    }
}

/// Copies the bytes into the room.
#[tactic(auto, unfolding(suit_edge::specs::Ranges::written))]
fn put(room: &mut [u8], from: usize, bytes: &[u8])
    requires { from + length bytes.now ≤ length room.old }
    ensures { room.new ≡ written room.old from bytes.now }
{
    room[from..from + bytes.len()].copy_from_slice(bytes);
}

/// Replaces the block that the bytes lie in, on a settled disk.
fn replace_range<N: Nor>(nor: &mut N, phase: &mut Phase, place: u64, bytes: &[u8]) -> Edge
    requires fits { place + length bytes.now ≤ 4096 * blocks_of (N.extent nor.old) }
    requires some { 1 ≤ length bytes.now }
    requires block { place % 4096 + length bytes.now ≤ 4096 }
    requires settled { phase.old ≡ phases.Settled }
    requires erased { IsTrue N.told
        → AreErased (blocks_of (N.extent nor.old)) (N.flash nor.old).reads }
    ensures size { N.extent nor.new ≡ N.extent nor.old }
    ensures counts { EdgeCounts result (N.faults nor.old) (N.faults nor.new) }
    ensures settled { IfDone result (phase.new ≡ phases.Settled) }
    ensures knows { Knows N.told (blocks_of (N.extent nor.old)) phase.new (N.flash nor.new).reads }
    ensures writes { IsTrue N.told → Writes result place bytes.now
        (nor_flash (blocks_of (N.extent nor.old)) phases.Settled (N.flash nor.old))
        (nor_flash (blocks_of (N.extent nor.old)) phase.new (N.flash nor.new)) }
{
    let _image = blocks::count(nor);
    let block = place / BLOCK as u64;
    let mut room = [0; BLOCK];
    match nor.read_at(BLOCK as u64 * block, &mut room) {
        Edge::Failed => return Edge::Failed,
        Edge::Done => {}
    }
    put(&mut room, (place % BLOCK as u64) as usize, bytes);
    replace(nor, phase, block, &room)
}

/// Writes bytes that lie in one block, on a settled disk.
fn write_piece<N: Nor>(nor: &mut N, phase: &mut Phase, place: u64, bytes: &[u8]) -> Edge
    requires fits { place + length bytes.now ≤ 4096 * blocks_of (N.extent nor.old) }
    requires some { 1 ≤ length bytes.now }
    requires block { place % 4096 + length bytes.now ≤ 4096 }
    requires settled { phase.old ≡ phases.Settled }
    requires erased { IsTrue N.told
        → AreErased (blocks_of (N.extent nor.old)) (N.flash nor.old).reads }
    ensures size { N.extent nor.new ≡ N.extent nor.old }
    ensures counts { EdgeCounts result (N.faults nor.old) (N.faults nor.new) }
    ensures settled { IfDone result (phase.new ≡ phases.Settled) }
    ensures knows { Knows N.told (blocks_of (N.extent nor.old)) phase.new (N.flash nor.new).reads }
    ensures writes { IsTrue N.told → Writes result place bytes.now
        (nor_flash (blocks_of (N.extent nor.old)) phases.Settled (N.flash nor.old))
        (nor_flash (blocks_of (N.extent nor.old)) phase.new (N.flash nor.new)) }
    ensures erases { IsTrue N.told
        → OnlyClears (slice_range (plain (blocks_of (N.extent nor.old)) (N.flash nor.old).reads)
        place (place + length bytes.now)) bytes.now
        → N.erases nor.new ≡ N.erases nor.old }
{
    let _image = blocks::count(nor);
    match clears(nor, place, bytes) {
        None => Edge::Failed,
        Some(true) => clear_bits(nor, place, bytes),
        Some(false) => replace_range(nor, phase, place, bytes),
    }
}

/// How many of `count` bytes from `place` on lie in the block of the first.
fn piece_length(place: u64, count: usize) -> usize
    requires { 1 ≤ count }
    ensures some { 1 ≤ result }
    ensures within { result ≤ count }
    ensures block { place % 4096 + result ≤ 4096 }
{
    count.min(BLOCK - (place % BLOCK as u64) as usize)
}

/// Writes the bytes block by block, on a settled disk.
fn write_settled<N: Nor>(nor: &mut N, phase: &mut Phase, place: u64, bytes: &[u8]) -> Edge
    requires fits { place + length bytes.now ≤ 4096 * blocks_of (N.extent nor.old) }
    requires settled { phase.old ≡ phases.Settled }
    requires erased { IsTrue N.told
        → AreErased (blocks_of (N.extent nor.old)) (N.flash nor.old).reads }
    ensures size { N.extent nor.new ≡ N.extent nor.old }
    ensures counts { EdgeCounts result (N.faults nor.old) (N.faults nor.new) }
    ensures settled { IfDone result (phase.new ≡ phases.Settled) }
    ensures knows { Knows N.told (blocks_of (N.extent nor.old)) phase.new (N.flash nor.new).reads }
    ensures writes { IsTrue N.told → Writes result place bytes.now
        (nor_flash (blocks_of (N.extent nor.old)) phases.Settled (N.flash nor.old))
        (nor_flash (blocks_of (N.extent nor.old)) phase.new (N.flash nor.new)) }
    ensures erases { IsTrue N.told
        → OnlyClears (slice_range (plain (blocks_of (N.extent nor.old)) (N.flash nor.old).reads)
        place (place + length bytes.now)) bytes.now
        → N.erases nor.new ≡ N.erases nor.old }
{
    let _image = blocks::count(nor);
    let mut at = 0;
    while at < bytes.len() {
        let start = place + at as u64;
        let end = at + piece_length(start, bytes.len() - at);
        match write_piece(nor, phase, start, &bytes[at..end]) {
            Edge::Failed => return Edge::Failed,
            Edge::Done => {}
        }
        at = end;
    }
    Edge::Done
}

/// Settles the disk, then writes the bytes from `place` on.
pub(crate) fn write<N: Nor>(nor: &mut N, phase: &mut Phase, place: u64, bytes: &[u8]) -> Edge
    requires fits { place + length bytes.now ≤ 4096 * blocks_of (N.extent nor.old) }
    requires knows { Knows N.told (blocks_of (N.extent nor.old)) phase.old (N.flash nor.old).reads }
    ensures size { N.extent nor.new ≡ N.extent nor.old }
    ensures counts { EdgeCounts result (N.faults nor.old) (N.faults nor.new) }
    ensures settled { IfDone result (phase.new ≡ phases.Settled) }
    ensures knows { Knows N.told (blocks_of (N.extent nor.old)) phase.new (N.flash nor.new).reads }
    ensures writes { IsTrue N.told → Writes result place bytes.now
        (nor_flash (blocks_of (N.extent nor.old)) phase.old (N.flash nor.old))
        (nor_flash (blocks_of (N.extent nor.old)) phase.new (N.flash nor.new)) }
    ensures erases { IsTrue N.told → phase.old ≡ phases.Settled
        → OnlyClears (slice_range (plain (blocks_of (N.extent nor.old)) (N.flash nor.old).reads)
        place (place + length bytes.now)) bytes.now
        → N.erases nor.new ≡ N.erases nor.old }
{
    let _image = blocks::count(nor);
    match settle(nor, phase) {
        Edge::Failed => Edge::Failed,
        Edge::Done => write_settled(nor, phase, place, bytes),
    }
}
