//! NOR flash whose power fails after a number of calls.

ghost use Rattle.nor_flash.specs.Blocks.{IsDeviceSize, IsErased, OutsideBlock, cleared};
ghost use Rattle.nor_flash.specs.FuseNor.{BurnsExactly, FuseState};
ghost use Rattle.nor_flash.specs.MemoryNor.{ReadsExactly, StepsExactly, memory_nor, program_of};
ghost use Rattle.nor_flash.specs.MemoryNorLaws.{memory_cells, memory_obeys, memory_rests};
ghost use Rattle.nor_flash.specs.Rises.{Rises};
ghost use Rattle.nor_flash.specs.declared.step.Step.TheVariants as step;
ghost use Rattle.std.specs.Bool.{OnFalse, OnTrue};
ghost use Rattle.std.specs.Prelude.{◌≡◌, ◌+◌, ◌*◌, ◌%◌, ◌≤◌, true, IsTrue, length, slice_range};
ghost use Rattle.suit_edge.specs.Edge.{IfDone};
ghost use Rattle.suit_edge.specs.Faults.{EdgeCounts, counted};
ghost use Rattle.suit_edge.specs.Flash.{Grows, IsSame, Keeps};
ghost use Rattle.suit_edge.specs.FuseDisk.{counts_answer};
ghost use Rattle.suit_edge.specs.Ranges.{Outside};

use crate::{MemoryNor, Nor};
use std::marker::Model;
use suit_edge::Edge;

/// NOR flash in memory that serves a number of calls, and then fails every one and changes nothing,
/// as if its power were gone. `size` is not counted. It counts its own erases, including those that
/// it does not pass on.
#[derive(Drop)]
pub struct FuseNor {
    nor: MemoryNor,
    passes: u64,
    faults: u64,
    erases: u64,
}

impl Model for FuseNor {
    ghost Value = { FuseState };

    ghost view = { λ f.
        record { nor = f.nor; passes = f.passes; faults = f.faults; erases = f.erases } };
}

impl FuseNor {
    /// A device that serves `passes` more calls.
    pub fn new(nor: MemoryNor, passes: u64) -> FuseNor
        ensures { result ≡ record { nor = nor; passes = passes; faults = 0; erases = 0 } }
    {
        FuseNor {
            nor,
            passes,
            faults: 0,
            erases: 0,
        }
    }

    /// Returns the device inside, as the calls left it.
    pub fn into_nor(self) -> MemoryNor
        ensures { result ≡ self.nor }
    {
        self.nor
    }

    /// How many calls of the device failed because memory ran out.
    pub fn starved(&self) -> u64
        ensures { result ≡ self.now.nor.calls.starved }
    {
        self.nor.starved()
    }
}

/// Uses up a pass, if one is left.
fn takes_pass(passes: &mut u64) -> bool
    ensures taken { OnTrue result (passes.old ≡ passes.new + 1) }
    ensures none { OnFalse result ((passes.old ≡ 0) × (passes.new ≡ 0)) }
{
    if *passes == 0 {
        return false;
    }
    *passes -= 1;
    true
}

/// Counts the answer if it is a fault.
fn counts(faults: &mut u64, answer: Edge) -> Edge
    ensures same { result ≡ answer }
    ensures value { faults.new ≡ counts_answer answer faults.old }
    ensures counts { EdgeCounts answer faults.old faults.new }
{
    match answer {
        Edge::Done => Edge::Done,
        Edge::Failed => {
            *faults = faults.saturating_add(1);
            Edge::Failed
        }
    }
}

impl Nor for FuseNor {
    ghost told = { true };

    ghost flash = { λ f. memory_nor f.nor };

    ghost extent = { λ f. 4096 * f.nor.blocks };

    ghost faults = { λ f. f.faults };

    ghost erases = { λ f. f.erases };

    ghost obeys = { λ f t. memory_obeys f.nor };

    ghost rests = { λ f t. memory_rests f.nor };

    ghost cells = { λ f t. memory_cells f.nor };

    fn size(&self) -> u64
        ensures value { result ≡ 4096 * self.now.nor.blocks }
        ensures shape { IsDeviceSize (4096 * self.now.nor.blocks) }
    {
        self.nor.size()
    }

    fn read_at(&mut self, place: u64, room: &mut [u8]) -> Edge
        requires { place + length room.old ≤ 4096 * self.old.nor.blocks }
        ensures size { 4096 * self.new.nor.blocks ≡ 4096 * self.old.nor.blocks }
        ensures counts { EdgeCounts result self.old.faults self.new.faults }
        ensures bytes { IsTrue true
            → IfDone result
            (room.new
            ≡ slice_range (memory_nor self.old.nor).reads place (place + length room.old)) }
        ensures same { IsTrue true → IsSame (memory_nor self.old.nor) (memory_nor self.new.nor) }
        ensures grows { IsTrue true → Grows (memory_nor self.old.nor) (memory_nor self.new.nor) }
        ensures erases { IsTrue true → self.new.erases ≡ self.old.erases }
        ensures exact { BurnsExactly result self.old self.new
            (λ before now. ReadsExactly result before now place room.old room.new) }
    {
        if !takes_pass(&mut self.passes) {
            return counts(&mut self.faults, Edge::Failed);
        }
        let answer = self.nor.read_at(place, room);
        counts(&mut self.faults, answer)
    }

    fn program(&mut self, place: u64, bytes: &[u8]) -> Edge
        requires fits { place + length bytes.now ≤ 4096 * self.old.nor.blocks }
        requires block { place % 4096 + length bytes.now ≤ 4096 }
        ensures size { 4096 * self.new.nor.blocks ≡ 4096 * self.old.nor.blocks }
        ensures counts { EdgeCounts result self.old.faults self.new.faults }
        ensures cleared { IsTrue true
            → IfDone result
            ((memory_nor self.new.nor).reads
            ≡ cleared (memory_nor self.old.nor).reads place bytes.now) }
        ensures keeps { IsTrue true
            → Keeps (Outside place (length bytes.now)) (memory_nor self.old.nor)
            (memory_nor self.new.nor) }
        ensures grows { IsTrue true → Grows (memory_nor self.old.nor) (memory_nor self.new.nor) }
        ensures erases { IsTrue true → self.new.erases ≡ self.old.erases }
        ensures exact { BurnsExactly result self.old self.new
            (λ before now. StepsExactly result before now (program_of place bytes.now)) }
    {
        if !takes_pass(&mut self.passes) {
            return counts(&mut self.faults, Edge::Failed);
        }
        let answer = self.nor.program(place, bytes);
        counts(&mut self.faults, answer)
    }

    fn erase(&mut self, block: u64) -> Edge
        requires { 4096 * block + 4096 ≤ 4096 * self.old.nor.blocks }
        ensures size { 4096 * self.new.nor.blocks ≡ 4096 * self.old.nor.blocks }
        ensures counts { EdgeCounts result self.old.faults self.new.faults }
        ensures erased { IsTrue true
            → IfDone result (IsErased block (memory_nor self.new.nor).reads) }
        ensures keeps { IsTrue true
            → Keeps (OutsideBlock block) (memory_nor self.old.nor) (memory_nor self.new.nor) }
        ensures grows { IsTrue true → Grows (memory_nor self.old.nor) (memory_nor self.new.nor) }
        ensures erases { IsTrue true → Rises self.old.erases self.new.erases }
        ensures counted { self.new.erases ≡ counted self.old.erases }
        ensures exact { BurnsExactly result self.old self.new
            (λ before now. StepsExactly result before now (step.Erased block)) }
    {
        self.erases = self.erases.saturating_add(1);
        if !takes_pass(&mut self.passes) {
            return counts(&mut self.faults, Edge::Failed);
        }
        let answer = self.nor.erase(block);
        counts(&mut self.faults, answer)
    }
}
