//! A disk in memory.

ghost use Rattle.std.specs.Prelude.{◌≡◌, ◌+◌, ◌≤◌, [], ◌∷◌, ◌++◌, cond, true, IfOk, OnOk, OnErr, IsTrue, length, replicate, slice_range, vec_len};
ghost use Rattle.suit_edge.specs.Calls.{uncalled};
ghost use Rattle.suit_edge.specs.Edge.{IfDone};
ghost use Rattle.suit_edge.specs.Faults.{EdgeCounts};
ghost use Rattle.suit_edge.specs.Flash.{Grows, IsSame, IsSettled, Keeps, Now};
ghost use Rattle.suit_edge.specs.MemoryDisk.{ReadsExactly, StepsExactly, memory_flash, moment_now, write_of, writes_of};
ghost use Rattle.suit_edge.specs.MemoryLaws.{memory_obeys};
ghost use Rattle.suit_edge.specs.Moment.{after_write, has_bit, kept, lost};
ghost use Rattle.suit_edge.specs.Ranges.{AreBytes, Outside, written};
ghost use Rattle.suit_edge.specs.declared.step.Step.TheVariants as step;

use crate::calls::Calls;
use crate::step::{Step, Write};
use crate::{Disk, Edge};
use det_cbor::Bytes;
use std::alloc::{AllocError, Global};
use std::marker::Model;

/// A disk in memory that can show what a power loss would leave. It remembers each write and sync,
/// so both allocate, and fail if memory runs out.
#[derive(Drop)]
pub struct MemoryDisk {
    alloc: Global,
    first: Vec<u8>,
    steps: Vec<Step>,
    settled: Vec<u8>,
    bytes: Vec<u8>,
    since: usize,
    calls: Calls,
}

impl Model for MemoryDisk {
    ghost use Rattle.suit_edge.specs.MemoryDisk.{DiskState, IsMoment};

    ghost Value = { DiskState };

    ghost view = { λ d. record { first = d.first.items; steps = d.steps.items; calls = d.calls } };

    ghost invariant = { λ d.
        IsMoment d.first.items d.steps.items d.settled.items d.bytes.items d.since };
}

impl MemoryDisk {
    /// A disk of `size` zero bytes with nothing pending. Every call but `size` is counted, from 0,
    /// and those whose numbers are in `fails` fail.
    pub fn new(alloc: Global, size: usize, fails: &[u64]) -> Result<MemoryDisk, AllocError>
        ensures state { IfOk result
            (λ disk. disk
            ≡ record { first = replicate size 0; steps = []; calls = uncalled fails.now }) }
        ensures settled { IfOk result (λ disk. IsSettled (memory_flash disk)) }
    {
        let bytes = vec![in alloc; 0; size]?;
        let calls = Calls::new(alloc, fails)?;
        MemoryDisk::of(alloc, bytes, calls)
    }

    // A disk of these bytes with nothing pending.
    fn of(alloc: Global, bytes: Vec<u8>, calls: Calls) -> Result<MemoryDisk, AllocError>
        ensures state { IfOk result
            (λ disk. disk ≡ record { first = bytes.items; steps = []; calls = calls }) }
        ensures settled { IfOk result (λ disk. IsSettled (memory_flash disk)) }
    {
        let first = bytes.to_vec(alloc)?;
        let settled = bytes.to_vec(alloc)?;
        Ok(MemoryDisk {
            alloc,
            first,
            steps: Vec::new(alloc),
            settled,
            bytes,
            since: 0,
            calls,
        })
    }

    /// The disk that a power loss now may leave, with nothing pending and no calls that fail. Of
    /// the writes since the last sync, the n-th, counted from 0, survives if bit n modulo 64 of
    /// `choice` is set.
    pub fn after_loss(&self, alloc: Global, choice: u64) -> Result<MemoryDisk, AllocError>
        ensures left { IfOk result
            (λ disk. disk
            ≡
            record {
              first = lost choice (moment_now self.now);
              steps = [];
              calls = uncalled [];
            }) }
        ensures may { IfOk result (λ disk. Now (memory_flash self.now) disk.first) }
        ensures size { IfOk result (λ disk. length disk.first ≡ length self.now.first) }
        ensures settled { IfOk result (λ disk. IsSettled (memory_flash disk)) }
    {
        let mut bytes = self.settled.to_vec(alloc)?;
        keep(&mut bytes, &self.steps[self.since..], choice);
        are_bytes(bytes.as_slice());
        let calls = Calls::new(alloc, &[])?;
        MemoryDisk::of(alloc, bytes, calls)
    }

    /// How many calls failed because memory ran out.
    pub fn starved(&self) -> u64
        ensures { result ≡ self.now.calls.starved }
    {
        self.calls.starved()
    }
}

fn are_bytes(bytes: &[u8])
    ensures { AreBytes bytes.now }
{
    let _ = bytes;
}

// Whether `choice` keeps the n-th write.
fn is_kept(choice: u64, n: usize) -> bool
    ensures { result ≡ has_bit choice n }
{
    (choice >> (n % 64)) % 2 == 1
}

// Applies the pending writes that `choice` keeps.
fn keep(bytes: &mut Vec<u8>, pending: &[Step], choice: u64)
    ensures { bytes.new.items ≡ kept choice 0 bytes.old.items (writes_of pending.now) }
{
    let mut n: usize = 0;
    for step in pending {
        match step {
            Step::Wrote(write) => {
                keep_one(bytes, write, is_kept(choice, n));
                n += 1;
            }
            Step::Synced => {}
        }
    }
}

// Applies the write if it is kept.
fn keep_one(bytes: &mut Vec<u8>, write: &Write, keeps: bool)
    ensures { bytes.new.items ≡ cond keeps (after_write bytes.old.items write.now) bytes.old.items }
{
    if keeps {
        put_write(bytes, write);
    }
}

// Applies the write if it fits.
fn put_write(bytes: &mut Vec<u8>, write: &Write)
    ensures { bytes.new.items ≡ after_write bytes.old.items write.now }
{
    if bytes.len() < write.bytes.len() {
        return;
    }
    if bytes.len() - write.bytes.len() < write.place {
        return;
    }
    put(bytes, write.place, write.bytes.as_slice());
}

// Overwrites a range of the vector.
fn put(bytes: &mut Vec<u8>, place: usize, piece: &[u8])
    requires { place + length piece.now ≤ vec_len bytes.old }
    ensures { bytes.new.items ≡ written bytes.old.items place piece.now }
{
    put_in(bytes, place, piece);
}

#[tactic(auto, unfolding(crate::specs::Ranges::written))]
fn put_in(room: &mut [u8], place: usize, piece: &[u8])
    requires { place + length piece.now ≤ length room.old }
    ensures { room.new ≡ written room.old place piece.now }
{
    room[place..place + piece.len()].copy_from_slice(piece);
}

// Remembers a write.
fn note_write(
    alloc: Global,
    steps: &mut Vec<Step>,
    place: usize,
    bytes: &[u8],
) -> Result<(), AllocError>
    ensures ok { OnOk result (steps.new.items ≡ steps.old.items ++ write_of place bytes.now ∷ []) }
    ensures err { OnErr result (steps.new.items ≡ steps.old.items) }
{
    let bytes = Bytes::from_slice(alloc, bytes)?;
    steps.push(Step::Wrote(Write { place, bytes }))?;
    Ok(())
}

// Remembers a sync.
fn note_sync(steps: &mut Vec<Step>) -> Result<(), AllocError>
    ensures ok { OnOk result (steps.new.items ≡ steps.old.items ++ step.Synced ∷ []) }
    ensures err { OnErr result (steps.new.items ≡ steps.old.items) }
{
    steps.push(Step::Synced)?;
    Ok(())
}

impl Disk for MemoryDisk {
    ghost told = { true };

    ghost flash = { memory_flash };

    ghost extent = { λ d. length d.first };

    ghost faults = { λ d. d.calls.faults };

    ghost obeys = { λ d t. memory_obeys d };

    fn size(&self) -> u64
        ensures { result ≡ length self.now.first }
    {
        self.bytes.len() as u64
    }

    fn read_at(&mut self, place: u64, room: &mut [u8]) -> Edge
        requires { place + length room.old ≤ length self.old.first }
        ensures size { length self.new.first ≡ length self.old.first }
        ensures counts { EdgeCounts result self.old.calls.faults self.new.calls.faults }
        ensures bytes { IsTrue true
            → IfDone result
            (room.new
            ≡ slice_range (memory_flash self.old).reads place (place + length room.old)) }
        ensures same { IsTrue true → IsSame (memory_flash self.old) (memory_flash self.new) }
        ensures grows { IsTrue true → Grows (memory_flash self.old) (memory_flash self.new) }
        ensures exact { ReadsExactly result self.old self.new place room.old room.new }
    {
        if self.calls.next_fails() {
            return Edge::Failed;
        }
        let place = place as usize;
        room.copy_from_slice(&self.bytes[place..place + room.len()]);
        Edge::Done
    }

    fn write_at(&mut self, place: u64, bytes: &[u8]) -> Edge
        requires { place + length bytes.now ≤ length self.old.first }
        ensures size { length self.new.first ≡ length self.old.first }
        ensures counts { EdgeCounts result self.old.calls.faults self.new.calls.faults }
        ensures written { IsTrue true
            → IfDone result
            ((memory_flash self.new).reads
            ≡ written (memory_flash self.old).reads place bytes.now) }
        ensures keeps { IsTrue true
            → Keeps (Outside place (length bytes.now)) (memory_flash self.old)
            (memory_flash self.new) }
        ensures grows { IsTrue true → Grows (memory_flash self.old) (memory_flash self.new) }
        ensures exact { StepsExactly result self.old self.new (write_of place bytes.now) }
    {
        if self.calls.next_fails() {
            return Edge::Failed;
        }
        let place = place as usize;
        match note_write(self.alloc, &mut self.steps, place, bytes) {
            Ok(()) => {
                put(&mut self.bytes, place, bytes);
                Edge::Done
            }
            Err(AllocError) => {
                self.calls.starve();
                Edge::Failed
            }
        }
    }

    fn sync(&mut self) -> Edge
        ensures size { length self.new.first ≡ length self.old.first }
        ensures counts { EdgeCounts result self.old.calls.faults self.new.calls.faults }
        ensures settled { IsTrue true → IfDone result (IsSettled (memory_flash self.new)) }
        ensures same { IsTrue true → IsSame (memory_flash self.old) (memory_flash self.new) }
        ensures grows { IsTrue true → Grows (memory_flash self.old) (memory_flash self.new) }
        ensures exact { StepsExactly result self.old self.new step.Synced }
    {
        if self.calls.next_fails() {
            return Edge::Failed;
        }
        match note_sync(&mut self.steps) {
            Ok(()) => {
                self.settled.copy_from_slice(&self.bytes);
                self.since = self.steps.len();
                Edge::Done
            }
            Err(_) => {
                self.calls.starve();
                Edge::Failed
            }
        }
    }
}
