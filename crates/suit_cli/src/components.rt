//! The lines of the components of a flash.

ghost use Rattle.std.specs.Prelude.{◌≡◌, ◌≤◌, ◌<◌, ◌++◌, All, IfOk, IsTrue, OnOk, length, string_bytes};
ghost use Rattle.suit_edge.specs.Flash.{IsSame};
ghost use Rattle.flash_layout.specs.declared.frame.Frame.{Frame};
ghost use Rattle.flash_layout.specs.Layouts.{IsEntry};
ghost use Rattle.flash_layout.specs.Slots.{LiesWithin, slot_content};
ghost use Rattle.step_machine.specs.InUse.{slot_in_use};
ghost use Rattle.suit_cli.specs.Outside.{Outside, with_flash};
ghost use Rattle.suit_cli.specs.Stages.{Does};
ghost use Rattle.suit_cli.specs.Installed.{FlashCounts, slot_line, ram_line, component_line, component_lines, lines_in};

use crate::outside::SeenDisk;
use crate::reply::{Object, Stop};
use det_cbor::Text;
use flash_layout::{Entry, FlashFault, MOST_ENTRIES, Memory, Record, Slot, slots_of};
use flash_slots::length;
use std::alloc::{AllocError, Global};
use suit_edge::Disk;

// The slot that holds a component's content: the active one, if the component has it.
fn slot_in_use(entry: &Entry, active: u8) -> u8
    ensures is { result ≡ slot_in_use entry.now active }
    ensures few { result < 2 }
    ensures has { result ≡ 1 → entry.now.slots ≡ 2 }
{
    if active == 1 && entry.slots == 2 {
        1
    } else {
        0
    }
}

fn slot_line(alloc: Global, component: usize, slot: u8, length: u64) -> Result<String, AllocError>
    ensures { IfOk result (λ t. string_bytes t ≡ slot_line component slot length) }
{
    format!(in alloc; "component {component} slot {slot} length {length}\n")
}

fn ram_line(alloc: Global, component: usize) -> Result<String, AllocError>
    ensures { IfOk result (λ t. string_bytes t ≡ ram_line component) }
{
    format!(in alloc; "component {component} ram\n")
}

// Shows the prover that there are two starts.
fn room(starts: &[u64; 2])
    ensures { length starts.now ≡ 2 }
{
    let _ = starts;
}

// The line of a component in flash: which slot is in use, and how many bytes it holds.
fn line_in_flash<D: Disk>(
    alloc: Global,
    component: usize,
    number: u8,
    slot: Slot,
    flash: &mut D,
) -> Result<String, Stop>
    requires { LiesWithin (D.extent flash.old) slot }
    ensures extent { D.extent flash.new ≡ D.extent flash.old }
    ensures counts { FlashCounts result (D.faults flash.old) (D.faults flash.new) }
    ensures line { IsTrue D.told → IfOk result (λ t. string_bytes t ≡
        slot_line component number (length (slot_content slot (D.flash flash.old).reads))) }
    ensures same { IsTrue D.told → IsSame (D.flash flash.old) (D.flash flash.new) }
{
    match length(flash, slot) {
        Ok(length) => Ok(slot_line(alloc, component, number, length)?),
        Err(FlashFault) => Err(Stop::Fault(Object::Flash)),
    }
}

// The line of a component.
fn component_line<D: Disk>(
    alloc: Global,
    component: usize,
    entry: &Entry,
    active: u8,
    flash: &mut D,
) -> Result<String, Stop>
    requires { (frame : Frame) × IsEntry frame (D.extent flash.old) entry.now }
    ensures extent { D.extent flash.new ≡ D.extent flash.old }
    ensures counts { FlashCounts result (D.faults flash.old) (D.faults flash.new) }
    ensures line { IsTrue D.told → IfOk result (λ t. string_bytes t ≡
        component_line component entry.now active (D.flash flash.old).reads) }
    ensures same { IsTrue D.told → IsSame (D.flash flash.old) (D.flash flash.new) }
{
    match entry.memory {
        Memory::Ram => Ok(ram_line(alloc, component)?),
        Memory::Flash => {
            room(&entry.starts);
            let starts = slots_of(entry);
            let number = slot_in_use(entry, active);
            let slot = Slot {
                start: starts[usize::from(number)],
                capacity: entry.capacity,
            };
            line_in_flash(alloc, component, number, slot, flash)
        }
    }
}

// Adds a line for each component.
fn push_components<D: Disk>(
    alloc: Global,
    text: &mut Text,
    layout: &[Entry],
    active: &[u8; MOST_ENTRIES],
    flash: &mut D,
) -> Result<(), Stop>
    requires few { length layout.now ≤ MOST_ENTRIES }
    requires each { (frame : Frame) × All (IsEntry frame (D.extent flash.old)) layout.now }
    ensures extent { D.extent flash.new ≡ D.extent flash.old }
    ensures counts { FlashCounts result (D.faults flash.old) (D.faults flash.new) }
    ensures lines { IsTrue D.told → OnOk result (text.new ≡
        text.old ++ component_lines 0 layout.now active.now (D.flash flash.old).reads) }
    ensures same { IsTrue D.told → IsSame (D.flash flash.old) (D.flash flash.new) }
{
    for (component, entry) in layout.iter().enumerate() {
        let line = component_line(alloc, component, entry, active[component], flash)?;
        text.push_str(line.as_str())?;
    }
    Ok(())
}

/// The lines of the components, as read from the flash.
pub(crate) fn component_lines<D: Disk>(
    alloc: Global,
    layout: &[Entry],
    installed: &Record,
    flash: &mut D,
) -> Result<Text, Stop>
    requires few { length layout.now ≤ MOST_ENTRIES }
    requires each { (frame : Frame) × All (IsEntry frame (D.extent flash.old)) layout.now }
    ensures finds { (here : Outside) → Does (lines_in layout.now installed.now)
        (with_flash here (⟦<D as SeenDisk>⟧.seen flash.old))
        (with_flash here (⟦<D as SeenDisk>⟧.seen flash.new)) result }
    ensures extent { D.extent flash.new ≡ D.extent flash.old }
    ensures same { IsTrue D.told → IsSame (D.flash flash.old) (D.flash flash.new) }
{
    let mut text = Text::new(alloc);
    push_components(alloc, &mut text, layout, &installed.active, flash)?;
    Ok(text)
}
