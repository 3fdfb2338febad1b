//! A disk whose power fails after a number of calls.

ghost use Rattle.std.specs.Bool.{OnFalse, OnTrue};
ghost use Rattle.std.specs.Prelude.{◌≡◌, ◌+◌, ◌≤◌, true, IsTrue, length, slice_range};
ghost use Rattle.suit_edge.specs.Edge.{IfDone};
ghost use Rattle.suit_edge.specs.Faults.{EdgeCounts};
ghost use Rattle.suit_edge.specs.Flash.{Grows, IsSame, IsSettled, Keeps};
ghost use Rattle.suit_edge.specs.FuseDisk.{BurnsExactly, FuseState, counts_answer};
ghost use Rattle.suit_edge.specs.MemoryDisk.{ReadsExactly, StepsExactly, memory_flash, write_of};
ghost use Rattle.suit_edge.specs.MemoryLaws.{memory_obeys};
ghost use Rattle.suit_edge.specs.Ranges.{Outside, written};
ghost use Rattle.suit_edge.specs.declared.step.Step.TheVariants as step;

use crate::{Disk, Edge, MemoryDisk};
use std::marker::Model;

/// A disk in memory that serves a number of calls and then fails every one, as if its power were
/// gone. `size` is not counted.
#[derive(Drop)]
pub struct FuseDisk {
    disk: MemoryDisk,
    passes: u64,
    faults: u64,
}

impl Model for FuseDisk {
    ghost Value = { FuseState };

    ghost view = { λ f. record { disk = f.disk; passes = f.passes; faults = f.faults } };
}

impl FuseDisk {
    /// A disk that serves `passes` more calls.
    pub fn new(disk: MemoryDisk, passes: u64) -> FuseDisk
        ensures { result ≡ record { disk = disk; passes = passes; faults = 0 } }
    {
        FuseDisk {
            disk,
            passes,
            faults: 0,
        }
    }

    /// Returns the disk inside, as the calls left it.
    pub fn into_disk(self) -> MemoryDisk
        ensures { result ≡ self.disk }
    {
        self.disk
    }

    /// How many calls of the disk failed because memory ran out.
    pub fn starved(&self) -> u64
        ensures { result ≡ self.now.disk.calls.starved }
    {
        self.disk.starved()
    }
}

// Uses up a pass, if one is left.
fn takes_pass(passes: &mut u64) -> bool
    ensures taken { OnTrue result (passes.old ≡ passes.new + 1) }
    ensures none { OnFalse result ((passes.old ≡ 0) × (passes.new ≡ 0)) }
{
    if *passes == 0 {
        return false;
    }
    *passes -= 1;
    true
}

// Counts the answer if it is a fault.
fn counts(faults: &mut u64, answer: Edge) -> Edge
    ensures same { result ≡ answer }
    ensures value { faults.new ≡ counts_answer answer faults.old }
    ensures counts { EdgeCounts answer faults.old faults.new }
{
    match answer {
        Edge::Done => Edge::Done,
        Edge::Failed => {
            *faults = faults.saturating_add(1);
            Edge::Failed
        }
    }
}

impl Disk for FuseDisk {
    ghost told = { true };

    ghost flash = { λ f. memory_flash f.disk };

    ghost extent = { λ f. length f.disk.first };

    ghost faults = { λ f. f.faults };

    ghost obeys = { λ f t. memory_obeys f.disk };

    fn size(&self) -> u64
        ensures { result ≡ length self.now.disk.first }
    {
        self.disk.size()
    }

    fn read_at(&mut self, place: u64, room: &mut [u8]) -> Edge
        requires { place + length room.old ≤ length self.old.disk.first }
        ensures size { length self.new.disk.first ≡ length self.old.disk.first }
        ensures counts { EdgeCounts result self.old.faults self.new.faults }
        ensures bytes { IsTrue true
            → IfDone result
            (room.new
            ≡ slice_range (memory_flash self.old.disk).reads place
            (place + length room.old)) }
        ensures same { IsTrue true
            → IsSame (memory_flash self.old.disk) (memory_flash self.new.disk) }
        ensures grows { IsTrue true
            → Grows (memory_flash self.old.disk) (memory_flash self.new.disk) }
        ensures exact { BurnsExactly result self.old self.new
            (λ before now. ReadsExactly result before now place room.old room.new) }
    {
        if !takes_pass(&mut self.passes) {
            return counts(&mut self.faults, Edge::Failed);
        }
        let answer = self.disk.read_at(place, room);
        counts(&mut self.faults, answer)
    }

    fn write_at(&mut self, place: u64, bytes: &[u8]) -> Edge
        requires { place + length bytes.now ≤ length self.old.disk.first }
        ensures size { length self.new.disk.first ≡ length self.old.disk.first }
        ensures counts { EdgeCounts result self.old.faults self.new.faults }
        ensures written { IsTrue true
            → IfDone result
            ((memory_flash self.new.disk).reads
            ≡ written (memory_flash self.old.disk).reads place bytes.now) }
        ensures keeps { IsTrue true
            → Keeps (Outside place (length bytes.now)) (memory_flash self.old.disk)
            (memory_flash self.new.disk) }
        ensures grows { IsTrue true
            → Grows (memory_flash self.old.disk) (memory_flash self.new.disk) }
        ensures exact { BurnsExactly result self.old self.new
            (λ before now. StepsExactly result before now (write_of place bytes.now)) }
    {
        if !takes_pass(&mut self.passes) {
            return counts(&mut self.faults, Edge::Failed);
        }
        let answer = self.disk.write_at(place, bytes);
        counts(&mut self.faults, answer)
    }

    fn sync(&mut self) -> Edge
        ensures size { length self.new.disk.first ≡ length self.old.disk.first }
        ensures counts { EdgeCounts result self.old.faults self.new.faults }
        ensures settled { IsTrue true → IfDone result (IsSettled (memory_flash self.new.disk)) }
        ensures same { IsTrue true
            → IsSame (memory_flash self.old.disk) (memory_flash self.new.disk) }
        ensures grows { IsTrue true
            → Grows (memory_flash self.old.disk) (memory_flash self.new.disk) }
        ensures exact { BurnsExactly result self.old self.new
            (λ before now. StepsExactly result before now step.Synced) }
    {
        if !takes_pass(&mut self.passes) {
            return counts(&mut self.faults, Edge::Failed);
        }
        let answer = self.disk.sync();
        counts(&mut self.faults, answer)
    }
}
