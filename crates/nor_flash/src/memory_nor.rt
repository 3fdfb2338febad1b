//! NOR flash in memory.

ghost use Rattle.nor_flash.specs.Blocks.{IsDeviceSize, IsErased, OutsideBlock, ands, cleared};
ghost use Rattle.nor_flash.specs.MemoryNor.{ReadsExactly, Spoils, StepsExactly, memory_nor, program_of, spoiled};
ghost use Rattle.nor_flash.specs.MemoryNorLaws.{memory_cells, memory_obeys, memory_rests};
ghost use Rattle.nor_flash.specs.Rises.{Rises};
ghost use Rattle.nor_flash.specs.declared.step.Step.TheVariants as step;
ghost use Rattle.std.specs.Prelude.{◌≡◌, ◌+◌, ◌*◌, ◌%◌, ◌≤◌, [], ◌∷◌, ◌++◌, true, IfOk, OnOk, OnErr, IsTrue, length, replicate, slice_range, vec_len};
ghost use Rattle.suit_edge.specs.Calls.{uncalled};
ghost use Rattle.suit_edge.specs.Edge.{IfDone};
ghost use Rattle.suit_edge.specs.Faults.{EdgeCounts, counted};
ghost use Rattle.suit_edge.specs.Flash.{Grows, IsSame, Keeps};
ghost use Rattle.suit_edge.specs.Ranges.{Outside, written};
ghost use Rattle.suit_edge.specs.declared.edge.Edge.TheVariants as edge;

use crate::calls::Calls;
use crate::step::{Program, Span, Step};
use crate::{BLOCK, Nor};
use det_cbor::Bytes;
use std::alloc::{AllocError, Global};
use std::marker::Model;
use suit_edge::Edge;

/// What a failed program or erase leaves in every second byte of its range.
const SPOILED: u8 = 0x55;

/// NOR flash in memory. It remembers each program and erase, so both allocate. If memory runs out,
/// they fail and change nothing.
#[derive(Drop)]
pub struct MemoryNor {
    alloc: Global,
    blocks: usize,
    steps: Vec<Step>,
    bytes: Vec<u8>,
    erases: u64,
    calls: Calls,
}

impl Model for MemoryNor {
    ghost use Rattle.nor_flash.specs.MemoryNor.{IsDevice, NorState};

    ghost Value = { NorState };

    ghost view = { λ d.
        record { blocks = d.blocks; steps = d.steps.items; erases = d.erases; calls = d.calls } };

    ghost invariant = { λ d. IsDevice d.blocks d.steps.items d.bytes.items };
}

impl MemoryNor {
    /// A device of `blocks` blocks, all of whose bytes are 0xFF. Every call but `size` is counted,
    /// from 0, and those whose numbers are in `fails` fail. A program or an erase that fails for
    /// its number leaves 0x55 in the bytes 0, 2, 4 and so on of its range.
    pub fn new(alloc: Global, blocks: usize, fails: &[u64]) -> Result<MemoryNor, AllocError>
        requires five { 5 ≤ blocks }
        requires fits { 4096 * blocks ≤ usize.MAX }
        ensures { IfOk result
            (λ nor. nor
            ≡ record { blocks = blocks; steps = []; erases = 0; calls = uncalled fails.now }) }
    {
        Ok(MemoryNor {
            alloc,
            blocks,
            steps: Vec::new(alloc),
            bytes: vec![in alloc; 0xff; BLOCK * blocks]?,
            erases: 0,
            calls: Calls::new(alloc, fails)?,
        })
    }

    /// How many erases were attempted.
    pub fn erases(&self) -> u64
        ensures { result ≡ self.now.erases }
    {
        self.erases
    }

    /// How many calls failed because memory ran out.
    pub fn starved(&self) -> u64
        ensures { result ≡ self.now.calls.starved }
    {
        self.calls.starved()
    }

    /// Fails the call that was counted last, and spoils `size` bytes from `place` on if there is
    /// memory to remember that.
    fn fail_at(&mut self, place: usize, size: usize) -> Edge
        requires { place + size ≤ 4096 * self.old.blocks }
        ensures failed { result ≡ edge.Failed }
        ensures spoils { Spoils self.old self.new
            (step.Spoiled (record { place = place; size = size })) }
        ensures erases { self.new.erases ≡ self.old.erases }
    {
        match note_spoiled(&mut self.steps, place, size) {
            Ok(()) => {
                spoil_at(&mut self.bytes, place, size);
                self.calls.fail();
                Edge::Failed
            }
            Err(AllocError) => {
                self.calls.starve();
                Edge::Failed
            }
        }
    }

    /// Programs bytes: clears, from `place` on, the bits that are not set in `bytes`.
    fn program_at(&mut self, place: usize, bytes: &[u8]) -> Edge
        requires { place + length bytes.now ≤ 4096 * self.old.blocks }
        ensures exact { StepsExactly result self.old self.new (program_of place bytes.now) }
        ensures erases { self.new.erases ≡ self.old.erases }
    {
        if self.calls.next_fails() {
            return self.fail_at(place, bytes.len());
        }
        match note_program(self.alloc, &mut self.steps, place, bytes) {
            Ok(()) => {
                clear_at(&mut self.bytes, place, bytes);
                Edge::Done
            }
            Err(AllocError) => {
                self.calls.starve();
                Edge::Failed
            }
        }
    }

    /// Sets all bits of a block.
    fn erase_block(&mut self, block: usize) -> Edge
        requires { 4096 * block + 4096 ≤ 4096 * self.old.blocks }
        ensures exact { StepsExactly result self.old self.new (step.Erased block) }
        ensures erases { self.new.erases ≡ self.old.erases }
    {
        if self.calls.next_fails() {
            return self.fail_at(BLOCK * block, BLOCK);
        }
        match note_erase(&mut self.steps, block) {
            Ok(()) => {
                set_block(&mut self.bytes, block);
                Edge::Done
            }
            Err(AllocError) => {
                self.calls.starve();
                Edge::Failed
            }
        }
    }
}

/// Clears the bits that are not set in `bytes`.
fn clear(room: &mut [u8], bytes: &[u8])
    requires { length room.old ≡ length bytes.now }
    ensures { room.new ≡ ands room.old bytes.now }
{
    for (i, byte) in room.iter_mut().enumerate() {
        *byte &= bytes[i];
    }
}

/// Leaves 0x55 in every second byte.
fn spoil(room: &mut [u8])
    ensures { room.new ≡ spoiled room.old }
{
    for (i, byte) in room.iter_mut().enumerate() {
        if i % 2 == 0 {
            *byte = SPOILED;
        }
    }
}

/// Clears, from `place` on, the bits that are not set in `bytes`.
#[tactic(auto, unfolding(crate::specs::Blocks::cleared, suit_edge::specs::Ranges::written))]
fn clear_at(device: &mut [u8], place: usize, bytes: &[u8])
    requires { place + length bytes.now ≤ length device.old }
    ensures { device.new ≡ cleared device.old place bytes.now }
{
    clear(&mut device[place..place + bytes.len()], bytes);
}

/// Overwrites the bytes from `place` on.
#[tactic(auto, unfolding(suit_edge::specs::Ranges::written))]
fn put(device: &mut [u8], place: usize, bytes: &[u8])
    requires { place + length bytes.now ≤ length device.old }
    ensures { device.new ≡ written device.old place bytes.now }
{
    device[place..place + bytes.len()].copy_from_slice(bytes);
}

/// Sets all bits of a block.
fn set_block(device: &mut [u8], block: usize)
    requires { 4096 * block + 4096 ≤ length device.old }
    ensures { device.new ≡ written device.old (4096 * block) (replicate 4096 255) }
{
    put(device, BLOCK * block, &[0xff; BLOCK]);
}

/// Spoils `size` bytes from `place` on.
#[tactic(auto, unfolding(suit_edge::specs::Ranges::written))]
fn spoil_at(device: &mut [u8], place: usize, size: usize)
    requires { place + size ≤ length device.old }
    ensures { device.new
        ≡ written device.old place (spoiled (slice_range device.old place (place + size))) }
{
    spoil(&mut device[place..place + size]);
}

/// Remembers a program.
fn note_program(
    alloc: Global,
    steps: &mut Vec<Step>,
    place: usize,
    bytes: &[u8],
) -> Result<(), AllocError>
    ensures ok { OnOk result
        (steps.new.items ≡ steps.old.items ++ program_of place bytes.now ∷ []) }
    ensures err { OnErr result (steps.new.items ≡ steps.old.items) }
{
    let bytes = Bytes::from_slice(alloc, bytes)?;
    steps.push(Step::Programmed(Program { place, bytes }))?;
    Ok(())
}

/// Remembers an erase.
fn note_erase(steps: &mut Vec<Step>, block: usize) -> Result<(), AllocError>
    ensures ok { OnOk result (steps.new.items ≡ steps.old.items ++ step.Erased block ∷ []) }
    ensures err { OnErr result (steps.new.items ≡ steps.old.items) }
{
    steps.push(Step::Erased(block))?;
    Ok(())
}

/// Remembers that a range was spoiled.
fn note_spoiled(steps: &mut Vec<Step>, place: usize, size: usize) -> Result<(), AllocError>
    ensures ok { OnOk result
        (steps.new.items
        ≡ steps.old.items ++ step.Spoiled (record { place = place; size = size }) ∷ []) }
    ensures err { OnErr result (steps.new.items ≡ steps.old.items) }
{
    steps.push(Step::Spoiled(Span { place, size }))?;
    Ok(())
}

impl Nor for MemoryNor {
    ghost told = { true };

    ghost flash = { memory_nor };

    ghost extent = { λ d. 4096 * d.blocks };

    ghost faults = { λ d. d.calls.faults };

    ghost erases = { λ d. d.erases };

    ghost obeys = { λ d t. memory_obeys d };

    ghost rests = { λ d t. memory_rests d };

    ghost cells = { λ d t. memory_cells d };

    fn size(&self) -> u64
        ensures value { result ≡ 4096 * self.now.blocks }
        ensures shape { IsDeviceSize (4096 * self.now.blocks) }
    {
        self.bytes.len() as u64
    }

    fn read_at(&mut self, place: u64, room: &mut [u8]) -> Edge
        requires { place + length room.old ≤ 4096 * self.old.blocks }
        ensures size { 4096 * self.new.blocks ≡ 4096 * self.old.blocks }
        ensures counts { EdgeCounts result self.old.calls.faults self.new.calls.faults }
        ensures bytes { IsTrue true
            → IfDone result
            (room.new ≡ slice_range (memory_nor self.old).reads place (place + length room.old)) }
        ensures same { IsTrue true → IsSame (memory_nor self.old) (memory_nor self.new) }
        ensures grows { IsTrue true → Grows (memory_nor self.old) (memory_nor self.new) }
        ensures erases { IsTrue true → self.new.erases ≡ self.old.erases }
        ensures exact { ReadsExactly result self.old self.new place room.old room.new }
    {
        if self.calls.next_fails() {
            self.calls.fail();
            return Edge::Failed;
        }
        let place = place as usize;
        room.copy_from_slice(&self.bytes[place..place + room.len()]);
        Edge::Done
    }

    fn program(&mut self, place: u64, bytes: &[u8]) -> Edge
        requires fits { place + length bytes.now ≤ 4096 * self.old.blocks }
        requires block { place % 4096 + length bytes.now ≤ 4096 }
        ensures size { 4096 * self.new.blocks ≡ 4096 * self.old.blocks }
        ensures counts { EdgeCounts result self.old.calls.faults self.new.calls.faults }
        ensures cleared { IsTrue true
            → IfDone result
            ((memory_nor self.new).reads ≡ cleared (memory_nor self.old).reads place bytes.now) }
        ensures keeps { IsTrue true
            → Keeps (Outside place (length bytes.now)) (memory_nor self.old) (memory_nor self.new) }
        ensures grows { IsTrue true → Grows (memory_nor self.old) (memory_nor self.new) }
        ensures erases { IsTrue true → self.new.erases ≡ self.old.erases }
        ensures exact { StepsExactly result self.old self.new (program_of place bytes.now) }
    {
        self.program_at(place as usize, bytes)
    }

    fn erase(&mut self, block: u64) -> Edge
        requires { 4096 * block + 4096 ≤ 4096 * self.old.blocks }
        ensures size { 4096 * self.new.blocks ≡ 4096 * self.old.blocks }
        ensures counts { EdgeCounts result self.old.calls.faults self.new.calls.faults }
        ensures erased { IsTrue true → IfDone result (IsErased block (memory_nor self.new).reads) }
        ensures keeps { IsTrue true
            → Keeps (OutsideBlock block) (memory_nor self.old) (memory_nor self.new) }
        ensures grows { IsTrue true → Grows (memory_nor self.old) (memory_nor self.new) }
        ensures erases { IsTrue true → Rises self.old.erases self.new.erases }
        ensures counted { self.new.erases ≡ counted self.old.erases }
        ensures exact { StepsExactly result self.old self.new (step.Erased block) }
    {
        self.erases = self.erases.saturating_add(1);
        self.erase_block(block as usize)
    }
}
