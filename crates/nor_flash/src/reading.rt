//! Reading the disk.

ghost use Rattle.nor_flash.specs.Blocks.{front, with_block};
ghost use Rattle.nor_flash.specs.NorDisks.{IsSteady, Knows, blocks_of, seen};
ghost use Rattle.std.specs.Prelude.{◌≡◌, ◌+◌, ◌-◌, ◌*◌, ◌<◌, ◌≤◌, IsTrue, length, slice_range};
ghost use Rattle.suit_edge.specs.Edge.{IfDone};
ghost use Rattle.suit_edge.specs.Faults.{EdgeCounts};
ghost use Rattle.suit_edge.specs.Flash.{Grows, IsSame};
ghost use Rattle.suit_edge.specs.Ranges.{written};

use crate::settling::settle;
use crate::{BLOCK, Nor, Phase, blocks};
use suit_edge::Edge;

/// Settles the disk, unless a rewrite was given up: then its blocks are read as they are.
fn ready<N: Nor>(nor: &mut N, phase: &mut Phase) -> Edge
    requires knows { Knows N.told (blocks_of (N.extent nor.old)) phase.old (N.flash nor.old).reads }
    ensures size { N.extent nor.new ≡ N.extent nor.old }
    ensures counts { EdgeCounts result (N.faults nor.old) (N.faults nor.new) }
    ensures knows { Knows N.told (blocks_of (N.extent nor.old)) phase.new (N.flash nor.new).reads }
    ensures stands { IsTrue N.told → IfDone result
        (seen (blocks_of (N.extent nor.old)) phase.new (N.flash nor.new).reads
        ≡ front (blocks_of (N.extent nor.old)) (N.flash nor.new).reads) }
    ensures steady { IsTrue N.told
        → IsSteady (blocks_of (N.extent nor.old)) phase.old (N.flash nor.old) phase.new
        (N.flash nor.new) }
{
    let _image = blocks::count(nor);
    match *phase {
        Phase::GivenUp => Edge::Done,
        _ => settle(nor, phase),
    }
}

/// Reads bytes of the device into `room[from..to]`.
#[tactic(auto, unfolding(suit_edge::specs::Ranges::written))]
fn read_into<N: Nor>(nor: &mut N, place: u64, room: &mut [u8], from: usize, to: usize) -> Edge
    requires order { from ≤ to }
    requires within { to ≤ length room.old }
    requires fits { place + (to - from) ≤ N.extent nor.old }
    ensures size { N.extent nor.new ≡ N.extent nor.old }
    ensures counts { EdgeCounts result (N.faults nor.old) (N.faults nor.new) }
    ensures bytes { IsTrue N.told → IfDone result (room.new ≡ written room.old from
        (slice_range (N.flash nor.old).reads place (place + (to - from)))) }
    ensures same { IsTrue N.told → IsSame (N.flash nor.old) (N.flash nor.new) }
    ensures grows { IsTrue N.told → Grows (N.flash nor.old) (N.flash nor.new) }
{
    let part = &mut room[from..to];
    nor.read_at(place, part)
}

/// Reads the disk while a block is named: the bytes of that block are in the image block.
fn read_named<N: Nor>(nor: &mut N, block: u64, place: u64, room: &mut [u8]) -> Edge
    requires fits { place + length room.old ≤ 4096 * blocks_of (N.extent nor.old) }
    requires within { block < blocks_of (N.extent nor.old) }
    ensures size { N.extent nor.new ≡ N.extent nor.old }
    ensures counts { EdgeCounts result (N.faults nor.old) (N.faults nor.new) }
    ensures bytes { IsTrue N.told → IfDone result
        (room.new
        ≡ slice_range (with_block (blocks_of (N.extent nor.old)) block (N.flash nor.old).reads)
        place (place + length room.old)) }
    ensures same { IsTrue N.told → IsSame (N.flash nor.old) (N.flash nor.new) }
    ensures grows { IsTrue N.told → Grows (N.flash nor.old) (N.flash nor.new) }
{
    let image = blocks::count(nor);
    match nor.read_at(place, room) {
        Edge::Failed => return Edge::Failed,
        Edge::Done => {}
    }
    let start = BLOCK as u64 * block;
    let from = place.max(start);
    let to = (place + room.len() as u64).min(start + BLOCK as u64);
    if to <= from {
        return Edge::Done;
    }
    let stored = BLOCK as u64 * image + (from - start);
    read_into(
        nor,
        stored,
        room,
        (from - place) as usize,
        (to - place) as usize,
    )
}

/// Fills `room` with the bytes of the disk from `place` on.
pub(crate) fn read<N: Nor>(nor: &mut N, phase: &mut Phase, place: u64, room: &mut [u8]) -> Edge
    requires fits { place + length room.old ≤ 4096 * blocks_of (N.extent nor.old) }
    requires knows { Knows N.told (blocks_of (N.extent nor.old)) phase.old (N.flash nor.old).reads }
    ensures size { N.extent nor.new ≡ N.extent nor.old }
    ensures counts { EdgeCounts result (N.faults nor.old) (N.faults nor.new) }
    ensures knows { Knows N.told (blocks_of (N.extent nor.old)) phase.new (N.flash nor.new).reads }
    ensures bytes { IsTrue N.told → IfDone result
        (room.new
        ≡ slice_range (seen (blocks_of (N.extent nor.old)) phase.old (N.flash nor.old).reads)
        place (place + length room.old)) }
    ensures steady { IsTrue N.told
        → IsSteady (blocks_of (N.extent nor.old)) phase.old (N.flash nor.old) phase.new
        (N.flash nor.new) }
{
    let _image = blocks::count(nor);
    if let Phase::Rewriting(block) = *phase {
        return read_named(nor, block, place, room);
    }
    match ready(nor, phase) {
        Edge::Failed => Edge::Failed,
        Edge::Done => nor.read_at(place, room),
    }
}
