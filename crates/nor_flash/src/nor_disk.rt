//! A disk over NOR flash.

ghost use Rattle.lane_bytes.specs.Bytes.{OnlyClears};
ghost use Rattle.nor_flash.specs.NorDisks.{blocks_of, nor_flash, seen};
ghost use Rattle.nor_flash.specs.NorLaws.{nor_obeys};
ghost use Rattle.nor_flash.specs.declared.phase.Phase.TheVariants as phases;
ghost use Rattle.std.specs.Prelude.{◌≡◌, ◌+◌, ◌*◌, ◌≤◌, IsTrue, length, slice_range};
ghost use Rattle.suit_edge.specs.Edge.{IfDone};
ghost use Rattle.suit_edge.specs.Faults.{EdgeCounts};
ghost use Rattle.suit_edge.specs.Flash.{Grows, IsSame, IsSettled, Keeps};
ghost use Rattle.suit_edge.specs.Ranges.{Outside, written};

use crate::reading::read;
use crate::settling::settle;
use crate::writing::write;
use crate::{BLOCK, Nor, Phase, blocks};
use std::marker::Model;
use suit_edge::{Disk, Edge};

/// A disk over NOR flash. It has all blocks of the device but the last four, which are an image
/// block and three names. The new bytes of a block are stored in the image block, and the names are
/// set to the block's number until it is rewritten. So a power loss leaves either the old block or
/// the new one.
#[derive(Drop)]
pub struct NorDisk<N: Nor + Drop> {
    nor: N,
    phase: Phase,
}

impl<N: Nor + Drop> Model for NorDisk<N> {
    ghost use Rattle.std.specs.Prelude.{IsTrue};
    ghost use Rattle.nor_flash.specs.declared.phase.Phase.{Phase};
    ghost use Rattle.nor_flash.specs.NorDisks.{HoldsPhase, IsOfDisk, blocks_of};

    ghost Value = { N × Phase };

    ghost view = { λ d. (d.nor, d.phase) };

    ghost invariant = { λ d.
        IsOfDisk (blocks_of (N.extent d.nor)) d.phase
        × (IsTrue N.told
        → HoldsPhase (blocks_of (N.extent d.nor)) d.phase (N.flash d.nor).reads) };
}

impl<N: Nor + Drop> NorDisk<N> {
    /// A disk over the device, of whose names nothing is known yet. Makes no call of the device.
    pub fn new(nor: N) -> NorDisk<N>
        ensures { result ≡ (nor, phases.Unsettled) }
    {
        NorDisk {
            nor,
            phase: Phase::Unsettled,
        }
    }

    /// Returns the device inside, as the calls left it.
    pub fn into_nor(self) -> N
        ensures { result ≡ self.0 }
    {
        self.nor
    }
}

impl<N: Nor + Drop> Disk for NorDisk<N> {
    ghost told = { N.told };

    ghost flash = { λ d. nor_flash (blocks_of (N.extent d.0)) d.1 (N.flash d.0) };

    ghost extent = { λ d. 4096 * blocks_of (N.extent d.0) };

    ghost faults = { λ d. N.faults d.0 };

    ghost obeys = { λ d t.
        nor_obeys (N.extent d.0) d.1 (N.flash d.0) (N.obeys d.0 t) (N.rests d.0 t)
        (N.cells d.0 t) };

    fn size(&self) -> u64
        ensures { result ≡ 4096 * blocks_of (N.extent self.now.0) }
    {
        BLOCK as u64 * blocks::count(&self.nor)
    }

    fn read_at(&mut self, place: u64, room: &mut [u8]) -> Edge {
        read(&mut self.nor, &mut self.phase, place, room)
    }

    fn write_at(&mut self, place: u64, bytes: &[u8]) -> Edge
        requires { place + length bytes.now ≤ 4096 * blocks_of (N.extent self.old.0) }
        ensures size { 4096 * blocks_of (N.extent self.new.0)
            ≡ 4096 * blocks_of (N.extent self.old.0) }
        ensures counts { EdgeCounts result (N.faults self.old.0) (N.faults self.new.0) }
        ensures written { IsTrue N.told → IfDone result
            (seen (blocks_of (N.extent self.new.0)) self.new.1 (N.flash self.new.0).reads
            ≡ written (seen (blocks_of (N.extent self.old.0)) self.old.1 (N.flash self.old.0).reads)
            place bytes.now) }
        ensures keeps { IsTrue N.told → Keeps (Outside place (length bytes.now))
            (nor_flash (blocks_of (N.extent self.old.0)) self.old.1 (N.flash self.old.0))
            (nor_flash (blocks_of (N.extent self.new.0)) self.new.1 (N.flash self.new.0)) }
        ensures grows { IsTrue N.told
            → Grows (nor_flash (blocks_of (N.extent self.old.0)) self.old.1 (N.flash self.old.0))
            (nor_flash (blocks_of (N.extent self.new.0)) self.new.1 (N.flash self.new.0)) }
        ensures settles { IfDone result (self.new.1 ≡ phases.Settled) }
        ensures erases { IsTrue N.told → self.old.1 ≡ phases.Settled
            → OnlyClears (slice_range
            (seen (blocks_of (N.extent self.old.0)) self.old.1 (N.flash self.old.0).reads) place
            (place + length bytes.now)) bytes.now
            → N.erases self.new.0 ≡ N.erases self.old.0 }
    {
        write(&mut self.nor, &mut self.phase, place, bytes)
    }

    fn sync(&mut self) -> Edge
        ensures size { 4096 * blocks_of (N.extent self.new.0)
            ≡ 4096 * blocks_of (N.extent self.old.0) }
        ensures counts { EdgeCounts result (N.faults self.old.0) (N.faults self.new.0) }
        ensures settled { IsTrue N.told → IfDone result (IsSettled
            (nor_flash (blocks_of (N.extent self.new.0)) self.new.1 (N.flash self.new.0))) }
        ensures same { IsTrue N.told
            → IsSame (nor_flash (blocks_of (N.extent self.old.0)) self.old.1 (N.flash self.old.0))
            (nor_flash (blocks_of (N.extent self.new.0)) self.new.1 (N.flash self.new.0)) }
        ensures grows { IsTrue N.told
            → Grows (nor_flash (blocks_of (N.extent self.old.0)) self.old.1 (N.flash self.old.0))
            (nor_flash (blocks_of (N.extent self.new.0)) self.new.1 (N.flash self.new.0)) }
        ensures settles { IfDone result (self.new.1 ≡ phases.Settled) }
    {
        settle(&mut self.nor, &mut self.phase)
    }
}
