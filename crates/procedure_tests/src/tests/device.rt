//! A device with three components: two in flash, and one in working memory.

ghost use Rattle.std.specs.Prelude.{◌≡◌, ◌≤◌, ◌+◌, [], ℕ, IfSome, IsTrue, List, length};
ghost use Rattle.step_machine.specs.Programs.{program_tree};
ghost use Rattle.suit_commands.specs.Allowed.{IsPlan};
ghost use Rattle.suit_commands.specs.Numbers.{work_number};

use crate::tests::player::{CAPACITIES, FILE, VENDOR};
use det_cbor::{Bytes, Text};
use flash_layout::{
    Entry, Layout, MOST_ENTRIES, Memory, NoTrail, Places, Trail, VERSION_1, is_layout,
};
use std::alloc::{AllocError, Global};
use step_machine::{PlanEnd, Program, SlotChoice, Uris, World, run_plan};
use suit_edge::{Disk, Edge, Host, Launcher, MemoryDisk, MemoryHost};
use suit_params::Identifier;

// Where the slots of the components in flash begin.
const STARTS: [u64; 2] = [49_152, 53_248];

const SIZE: usize = 57_344;

const PLACES: Places = Places {
    count: 3,
    layout_index: [0, 1, 2, 0, 0, 0, 0, 0],
};

const SLOTS: SlotChoice = SlotChoice {
    number: [0; MOST_ENTRIES],
};

fn identifier_of(alloc: Global, byte: u8) -> Result<Identifier, AllocError> {
    let mut part = Bytes::new(alloc);
    part.push(byte)?;
    let mut identifier = Identifier::new(alloc);
    identifier.push(part)?;
    Ok(identifier)
}

// Adds a component whose identifier is this one byte.
fn push_component(
    alloc: Global,
    byte: u8,
    memory: Memory,
    start: u64,
    capacity: u64,
    layout: &mut Layout,
) -> Result<(), AllocError> {
    let entry = Entry {
        identifier: identifier_of(alloc, byte)?,
        memory,
        slots: 1,
        starts: [start, 0],
        capacity,
        vendor: Some(VENDOR),
        class: None,
        device: None,
    };
    layout.push(entry)?;
    Ok(())
}

fn layout_of_three(alloc: Global) -> Result<Layout, AllocError> {
    let mut layout = Layout::new(alloc);
    push_component(
        alloc,
        0,
        Memory::Flash,
        STARTS[0],
        CAPACITIES[0],
        &mut layout,
    )?;
    push_component(
        alloc,
        1,
        Memory::Flash,
        STARTS[1],
        CAPACITIES[1],
        &mut layout,
    )?;
    push_component(alloc, 2, Memory::Ram, 0, CAPACITIES[2], &mut layout)?;
    Ok(layout)
}

// The one file has the name of its URI.
fn uris_of_one(alloc: Global) -> Result<Uris, AllocError> {
    let uri = Text::from_str(alloc, FILE.0)?;
    let mut uris = Uris::new(alloc);
    uris.push((uri, Text::from_str(alloc, FILE.0)?))?;
    Ok(uris)
}

/// A host with one file.
pub(crate) fn host_of_one(alloc: Global) -> Result<MemoryHost, AllocError> {
    let mut host = MemoryHost::new(alloc, &[])?;
    host.add(FILE.0, FILE.1)?;
    Ok(host)
}

/// An empty disk.
pub(crate) fn empty_disk(alloc: Global) -> Result<MemoryDisk, AllocError> {
    MemoryDisk::new(alloc, SIZE, &[])
}

// Runs a procedure on the components of this layout.
fn run_on<H: Host, D: Disk, L: Launcher, T: Trail>(
    alloc: Global,
    program: Program<'_>,
    layout: &Layout,
    host: &mut H,
    disk: &mut D,
    launcher: &mut L,
    trail: &mut T,
) -> Result<PlanEnd, AllocError>
    requires plan { IsPlan (program_tree program) }
    requires count { program.count ≡ 3 }
    requires ranges { T.ranges trail.old ≡ [] }
    requires holds { (image : List ℕ) → T.holds trail.old (T.list trail.old) image }
    requires room { IsTrue T.told → IfSome (T.room trail.old)
        (λ room. length (T.list trail.old) + work_number (program_tree program) ≤ room) }
{
    if layout.len() != 3 {
        return Err(AllocError);
    }
    if !is_layout(VERSION_1, disk.size(), layout) {
        return Err(AllocError);
    }
    let uris = uris_of_one(alloc)?;
    let mut world = World::new(alloc, layout, VERSION_1, &PLACES, &SLOTS, &uris, None)?;
    Ok(run_plan(host, disk, launcher, &mut world, program, trail))
}

/// Runs a procedure with these objects.
pub(crate) fn run<H: Host, D: Disk, L: Launcher>(
    alloc: Global,
    program: Program<'_>,
    host: &mut H,
    disk: &mut D,
    launcher: &mut L,
) -> Result<PlanEnd, AllocError>
    requires plan { IsPlan (program_tree program) }
    requires count { program.count ≡ 3 }
{
    let layout = layout_of_three(alloc)?;
    run_on(alloc, program, &layout, host, disk, launcher, &mut NoTrail)
}

/// Whether the slot of a component in flash has this content.
pub(crate) fn has<D: Disk>(disk: &mut D, component: usize, content: &[u8]) -> bool {
    let Some(start) = STARTS.get(component) else {
        return false;
    };
    let length = content.len();
    if length > 4 || disk.size() < SIZE as u64 {
        return false;
    }
    let stored = (length as u64).to_be_bytes();
    let mut room = [0u8; 12];
    let read = disk.read_at(*start, &mut room);
    read == Edge::Done && &room[..8] == &stored[..] && &room[8..8 + length] == content
}
