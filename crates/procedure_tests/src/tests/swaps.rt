//! Swaps that lose power at each call of the disk, and are then completed.

ghost use Rattle.std.specs.Prelude.{◌≡◌, ◌≤◌, ◌+◌, IfOk, length};
ghost use Rattle.swap_journal.specs.Swaps.{ArePlaced, ArePlacedAll, HasRoom, IsJournal};

use crate::tests::quiet::Quiet;
use flash_layout::Slot;
use std::alloc::{AllocError, Global};
use suit_edge::{Disk, Edge, FuseDisk, MemoryDisk};
use swap_journal::{Journal, Progress, Swap, close, complete, exchange, read_progress};

const SIZE: usize = 24_576;

const TAG: u64 = 7;

// A loss keeps no pending write, every one, or every second one.
const CHOICES: [u64; 3] = [0, u64::MAX, 0xAAAA_AAAA_AAAA_AAAA];

// A journal and a swap.
fn swap(first_length: u64, second_length: u64) -> (Journal, Swap)
    requires first { first_length ≤ 4097 }
    requires second { second_length ≤ 4097 }
    ensures journal { IsJournal result.0 SIZE }
    ensures slots { ArePlaced result.0 SIZE result.1.first result.1.second }
    ensures room { HasRoom result.1 }
    ensures places { (result.1.first.start ≡ 8192) × (result.1.second.start ≡ 16384) }
{
    let journal = Journal {
        page: 0,
        scratch: 4096,
    };
    let swap = Swap {
        tag: TAG,
        first: Slot {
            start: 8192,
            capacity: 4097,
        },
        second: Slot {
            start: 16_384,
            capacity: 8000,
        },
        first_length,
        second_length,
    };
    (journal, swap)
}

// A content of `size` bytes.
fn content(alloc: Global, size: u64, mask: u8) -> Result<Vec<u8>, AllocError>
    ensures { IfOk result (λ bytes. length bytes.items ≡ size) }
{
    let mut bytes = Vec::new(alloc);
    for i in 0..size {
        bytes.push((i % 251) as u8 ^ mask)?;
    }
    Ok(bytes)
}

// Puts a content into a slot, on a disk that does not fail.
fn fill(disk: &mut MemoryDisk, slot: Slot, bytes: &[u8]) -> Result<(), AllocError>
    requires size { length disk.old.first ≡ SIZE }
    requires fits { slot.start + 8 + length bytes.now ≤ 24576 }
    ensures { length disk.new.first ≡ SIZE }
{
    let size = bytes.len() as u64;
    match disk.write_at(slot.start, &size.to_be_bytes()) {
        Edge::Failed => return Err(AllocError),
        Edge::Done => {}
    }
    match disk.write_at(slot.start + 8, bytes) {
        Edge::Failed => Err(AllocError),
        Edge::Done => Ok(()),
    }
}

// Whether the slot has this content.
fn holds(alloc: Global, disk: &mut Quiet, slot: Slot, bytes: &[u8]) -> Result<bool, AllocError>
    requires size { length disk.old.disk.disk.first ≡ SIZE }
    requires fits { slot.start + 8 + length bytes.now ≤ 24576 }
    ensures { length disk.new.disk.disk.first ≡ SIZE }
{
    let mut size = [0u8; 8];
    let mut room = vec![in alloc; 0u8; bytes.len()]?;
    match disk.read_at(slot.start, &mut size) {
        Edge::Failed => return Err(AllocError),
        Edge::Done => {}
    }
    match disk.read_at(slot.start + 8, room.as_mut_slice()) {
        Edge::Failed => Err(AllocError),
        Edge::Done => Ok(
            u64::from_be_bytes(size) == bytes.len() as u64 && room.as_slice() == bytes,
        ),
    }
}

// A disk whose power fails after `passes` calls.
fn quiet(disk: MemoryDisk, passes: u64) -> Quiet
    ensures { result.disk.disk ≡ disk }
{
    Quiet {
        disk: FuseDisk::new(disk, passes),
    }
}

// Whether a swap is done.
fn exchanges(disk: &mut Quiet, journal: &Journal, swap: &Swap) -> bool
    requires size { length disk.old.disk.disk.first ≡ SIZE }
    requires journal { IsJournal journal.now SIZE }
    requires slots { ArePlaced journal.now SIZE swap.now.first swap.now.second }
    requires room { HasRoom swap.now }
    ensures { length disk.new.disk.disk.first ≡ SIZE }
{
    let mut room = [0u8; 4096];
    exchange(disk, journal, swap, &mut room).is_ok()
}

// Both slots, the second one first.
fn both_slots(journal: &Journal, swap: &Swap) -> [Slot; 2]
    requires { ArePlaced journal.now SIZE swap.now.first swap.now.second }
    ensures { ArePlacedAll journal.now SIZE result }
{
    let _journal = journal;
    [swap.second, swap.first]
}

// A disk whose slots have these contents.
fn prepared(
    alloc: Global,
    swap: &Swap,
    first: &[u8],
    second: &[u8],
) -> Result<MemoryDisk, AllocError>
    requires first { swap.now.first.start + 8 + length first.now ≤ 24576 }
    requires second { swap.now.second.start + 8 + length second.now ≤ 24576 }
    ensures { IfOk result (λ disk. length disk.first ≡ SIZE) }
{
    let mut disk = MemoryDisk::new(alloc, SIZE, &[])?;
    fill(&mut disk, swap.first, first)?;
    fill(&mut disk, swap.second, second)?;
    disk.after_loss(alloc, u64::MAX)
}

// The tag of the swap that was completed, if one was open. `None` if a call fails.
fn completed(disk: &mut Quiet, journal: &Journal, swap: &Swap) -> Option<Option<u64>>
    requires size { length disk.old.disk.disk.first ≡ SIZE }
    requires journal { IsJournal journal.now SIZE }
    requires slots { ArePlaced journal.now SIZE swap.now.first swap.now.second }
    ensures { length disk.new.disk.disk.first ≡ SIZE }
{
    let mut room = [0u8; 4096];
    let slots = both_slots(journal, swap);
    let tag = complete(disk, journal, &slots, &mut room).ok()?;
    close(disk, journal).ok()?;
    match complete(disk, journal, &slots, &mut room) {
        Ok(None) => Some(tag),
        _ => None,
    }
}

// Whether the slots have these contents.
fn hold(
    alloc: Global,
    disk: &mut Quiet,
    swap: &Swap,
    one: &[u8],
    other: &[u8],
) -> Result<bool, AllocError>
    requires size { length disk.old.disk.disk.first ≡ SIZE }
    requires one { swap.now.first.start + 8 + length one.now ≤ 24576 }
    requires other { swap.now.second.start + 8 + length other.now ≤ 24576 }
{
    Ok(holds(alloc, disk, swap.first, one)? && holds(alloc, disk, swap.second, other)?)
}

// Whether a swap of these contents, done or not, is completed, and leaves both contents or exchanges both, as its tag
// says.
fn is_completed(
    alloc: Global,
    disk: &mut Quiet,
    journal: &Journal,
    swap: &Swap,
    first: &[u8],
    second: &[u8],
    is_done: bool,
) -> Result<bool, AllocError>
    requires size { length disk.old.disk.disk.first ≡ SIZE }
    requires journal { IsJournal journal.now SIZE }
    requires slots { ArePlaced journal.now SIZE swap.now.first swap.now.second }
    requires places { (swap.now.first.start ≡ 8192) × (swap.now.second.start ≡ 16384) }
    requires first { length first.now ≤ 4097 }
    requires second { length second.now ≤ 4097 }
{
    match completed(disk, journal, swap) {
        Some(None) => Ok(!is_done && hold(alloc, disk, swap, first, second)?),
        Some(Some(tag)) => Ok(tag == TAG && hold(alloc, disk, swap, second, first)?),
        None => Ok(false),
    }
}

// Whether the swap is completed after a loss with this choice of pending writes.
fn is_completed_after(
    alloc: Global,
    left: &MemoryDisk,
    choice: u64,
    first: &[u8],
    second: &[u8],
    is_done: bool,
) -> Result<bool, AllocError>
    requires size { length left.now.first ≡ SIZE }
    requires first { length first.now ≤ 4097 }
    requires second { length second.now ≤ 4097 }
{
    let (journal, swap) = swap(first.len() as u64, second.len() as u64);
    let mut disk = quiet(left.after_loss(alloc, choice)?, u64::MAX);
    is_completed(alloc, &mut disk, &journal, &swap, first, second, is_done)
}

// Whether a swap of these contents that loses power after `passes` calls is completed, with each choice of pending
// writes.
fn survives(alloc: Global, first: &[u8], second: &[u8], passes: u64) -> Result<bool, AllocError>
    requires first { length first.now ≤ 4097 }
    requires second { length second.now ≤ 4097 }
{
    let (journal, swap) = swap(first.len() as u64, second.len() as u64);
    let mut disk = quiet(prepared(alloc, &swap, first, second)?, passes);
    let is_done = exchanges(&mut disk, &journal, &swap);
    let left = disk.disk.into_disk();
    for choice in &CHOICES {
        if !is_completed_after(alloc, &left, *choice, first, second, is_done)? {
            return Ok(false);
        }
    }
    Ok(true)
}

// Whether the swap is completed after a loss at each of the first `calls` calls.
fn survives_each(alloc: Global, first: &[u8], second: &[u8], calls: u64) -> Result<bool, AllocError>
    requires first { length first.now ≤ 4097 }
    requires second { length second.now ≤ 4097 }
{
    for passes in 0..calls {
        if !survives(alloc, first, second, passes)? {
            return Ok(false);
        }
    }
    Ok(true)
}

fn survives_beside(
    alloc: Global,
    first: &[u8],
    second_length: u64,
    calls: u64,
) -> Result<bool, AllocError>
    requires first { length first.now ≤ 4097 }
    requires second { second_length ≤ 4097 }
{
    let second = content(alloc, second_length, 0xff)?;
    survives_each(alloc, first, second.as_slice(), calls)
}

// Whether a swap of contents with these lengths is completed after a loss at each of the first `calls` calls, which is
// at least as many as it makes.
fn cuts(
    alloc: Global,
    first_length: u64,
    second_length: u64,
    calls: u64,
) -> Result<bool, AllocError>
    requires first { first_length ≤ 4097 }
    requires second { second_length ≤ 4097 }
{
    let first = content(alloc, first_length, 0)?;
    survives_beside(alloc, first.as_slice(), second_length, calls)
}

#[test]
fn a_swap_that_is_cut_is_completed(rt: HostRuntime) -> Result<(), AllocError> {
    assert!(rt; cuts(rt.alloc(), 3, 2, 41)?);
    assert!(rt; cuts(rt.alloc(), 0, 5, 41)?);
    assert!(rt; cuts(rt.alloc(), 4096, 1, 41)?);
    assert!(rt; cuts(rt.alloc(), 4097, 4096, 71)?);
    Ok(())
}

// Whether a swap of short contents copies three pieces, and exchanges the contents.
fn are_exchanged(
    alloc: Global,
    disk: &mut Quiet,
    journal: &Journal,
    swap: &Swap,
) -> Result<bool, AllocError>
    requires size { length disk.old.disk.disk.first ≡ SIZE }
    requires journal { IsJournal journal.now SIZE }
    requires slots { ArePlaced journal.now SIZE swap.now.first swap.now.second }
    requires room { HasRoom swap.now }
    requires places { (swap.now.first.start ≡ 8192) × (swap.now.second.start ≡ 16384) }
{
    if !exchanges(disk, journal, swap) {
        return Ok(false);
    }
    match read_progress(disk, 0) {
        Some(Progress { made: 3, .. }) => hold(alloc, disk, swap, b"xy", b"abc"),
        _ => Ok(false),
    }
}

fn short_are_exchanged(alloc: Global) -> Result<bool, AllocError> {
    let (journal, swap) = swap(3, 2);
    let mut disk = quiet(prepared(alloc, &swap, b"abc", b"xy")?, u64::MAX);
    are_exchanged(alloc, &mut disk, &journal, &swap)
}

#[test]
fn three_copies_exchange_short_contents(rt: HostRuntime) -> Result<(), AllocError> {
    assert!(rt; short_are_exchanged(rt.alloc())?);
    Ok(())
}
