//! Reads a started file into a content.

ghost use Rattle.flash_layout.specs.Slots.{LiesWithin, extent_of, slot_content};
ghost use Rattle.flash_slots.specs.Contents.{IsEmptyInEach, IsEmptySlot, pieces_of};
ghost use Rattle.flash_slots.specs.RamContents.{held_by, holding};
ghost use Rattle.std.specs.Prelude.{◌≡◌, ◌<◌, ◌≤◌, [], ℕ, IfErr, IsTrue, Some, length};
ghost use Rattle.step_machine.specs.Fetching.{FetchCounts, PutsIn, StopsTaking, TakesSome};
ghost use Rattle.step_machine.specs.Replacing.{IsReplaced};
ghost use Rattle.step_machine.specs.Spots.{IsPlaced, IsRamBut, OutsideSpot, content_of};
ghost use Rattle.step_machine.specs.declared.spot.Spot.TheVariants as spots;
ghost use Rattle.suit_edge.specs.Flash.{Keeps, Passes};
ghost use Rattle.suit_edge.specs.Ranges.{Outside};

use crate::outside::{Pulls, Steps};
use crate::pieces::next_piece;
use crate::{Spot, Standing};
use flash_layout::{FlashFault, Slot};
use flash_slots::{AppendFault, Ram, TooLarge, Writing, begin};
use path_model::Cause;
use suit_edge::{Disk, Host};

// ---- a slot

// Appends the file piece by piece, up to its end.
fn append_file<H: Host, D: Disk>(
    host: &mut H,
    disk: &mut D,
    writing: &mut Writing,
    capacity: u64,
    room: &mut [u8],
) -> Result<(), Cause>
    requires slot { LiesWithin (D.extent disk.old) writing.old.slot }
    requires none { writing.old.written ≡ 0 }
    requires capacity { writing.old.slot.capacity ≡ capacity }
    requires room { 0 < length room.old }
    ensures goes { ⟦<D as Steps>⟧.goes_on
        (FetchCounts result (H.faults host.old) (H.faults host.new)) disk.old disk.new }
    ensures pulls { ⟦<H as Pulls>⟧.pulls capacity host.old host.new }
    ensures asked { IsTrue H.told → H.asked host.new ≡ H.asked host.old }
    ensures slot { writing.new.slot ≡ writing.old.slot }
    ensures stops { IfErr result StopsTaking }
    ensures within { writing.new.written ≤ capacity }
    ensures puts { IsTrue D.told → IsTrue H.told → PutsIn result capacity (H.rest host.old)
        (pieces_of writing.old.slot writing.new.written (D.flash disk.new).reads) }
    ensures empty { IsTrue D.told → slot_content writing.old.slot (D.flash disk.old).reads ≡ []
        → slot_content writing.old.slot (D.flash disk.new).reads ≡ [] }
    ensures still_empty { IsTrue D.told → IsEmptyInEach writing.old.slot (D.flash disk.old)
        → Passes (D.flash disk.old) (D.flash disk.new) (IsEmptySlot writing.old.slot) }
    ensures keeps { IsTrue D.told
        → Keeps (Outside writing.old.slot.start (extent_of writing.old.slot)) (D.flash disk.old)
        (D.flash disk.new) }
{
    let mut left = capacity;
    loop {
        let count = next_piece(host, left, room)?;
        if count == 0 {
            return Ok(());
        }
        match writing.append(disk, &room[..count]) {
            Ok(()) => left -= count as u64,
            Err(AppendFault::TooLarge(_)) => return Err(Cause::TooLarge),
            Err(AppendFault::FlashFault) => return Err(Cause::FlashFault),
        }
    }
}

// Replaces a slot's content with the file. If that stops, the slot is empty, or has any content after a fault of the
// flash.
fn take_into_slot<H: Host, D: Disk>(
    host: &mut H,
    disk: &mut D,
    slot: Slot,
    room: &mut [u8],
) -> Result<(), Cause>
    requires slot { LiesWithin (D.extent disk.old) slot }
    requires room { 0 < length room.old }
    ensures takes { IsTrue D.told → TakesSome H.told (H.rest host.old) result slot.capacity
        (slot_content slot (D.flash disk.new).reads) }
    ensures replaced { IsTrue D.told → IsReplaced (spots.Flash slot)
        (λ file. IsTrue H.told → file ≡ Some (H.rest host.old))
        (D.flash disk.old) (D.flash disk.new) }
    ensures keeps { IsTrue D.told
        → Keeps (Outside slot.start (extent_of slot)) (D.flash disk.old) (D.flash disk.new) }
    ensures goes { ⟦<D as Steps>⟧.goes_on
        (FetchCounts result (H.faults host.old) (H.faults host.new)) disk.old disk.new }
    ensures pulls { ⟦<H as Pulls>⟧.pulls slot.capacity host.old host.new }
    ensures asked { IsTrue H.told → H.asked host.new ≡ H.asked host.old }
{
    let mut writing = match begin(disk, slot) {
        Ok(writing) => writing,
        Err(FlashFault) => return Err(Cause::FlashFault),
    };
    append_file(host, disk, &mut writing, slot.capacity, room)?;
    match writing.finish(disk) {
        Ok(()) => Ok(()),
        Err(FlashFault) => Err(Cause::FlashFault),
    }
}

// ---- working memory

// Appends the file piece by piece, up to its end.
fn append_file_in_ram<H: Host>(
    host: &mut H,
    ram: &mut Ram,
    component: u32,
    capacity: u64,
    room: &mut [u8],
) -> Result<(), Cause>
    requires component { component < length ram.old }
    requires none { (held_by ram.old component).content ≡ [] }
    requires capacity { (held_by ram.old component).capacity ≡ capacity }
    requires room { 0 < length room.old }
    ensures counts { (flash : ℕ)
        → FetchCounts result (H.faults host.old) (H.faults host.new) flash flash }
    ensures pulls { ⟦<H as Pulls>⟧.pulls capacity host.old host.new }
    ensures asked { IsTrue H.told → H.asked host.new ≡ H.asked host.old }
    ensures stops { IfErr result StopsTaking }
    ensures ram { ram.new ≡ holding ram.old component (held_by ram.new component).content }
    ensures within { length (held_by ram.new component).content ≤ capacity }
    ensures puts { IsTrue H.told
        → PutsIn result capacity (H.rest host.old) (held_by ram.new component).content }
{
    let mut left = capacity;
    loop {
        let count = next_piece(host, left, room)?;
        if count == 0 {
            return Ok(());
        }
        match ram.append(component, &room[..count]) {
            Ok(()) => left -= count as u64,
            Err(TooLarge { .. }) => return Err(Cause::TooLarge),
        }
    }
}

// Replaces a content in working memory with the file. If that stops, the content is empty.
fn take_into_ram<H: Host>(
    host: &mut H,
    ram: &mut Ram,
    component: u32,
    capacity: u64,
    room: &mut [u8],
) -> Result<(), Cause>
    requires component { component < length ram.old }
    requires capacity { (held_by ram.old component).capacity ≡ capacity }
    requires room { 0 < length room.old }
    ensures ram { ram.new ≡ holding ram.old component (held_by ram.new component).content }
    ensures takes { TakesSome H.told (H.rest host.old) result capacity
        (held_by ram.new component).content }
    ensures counts { (flash : ℕ)
        → FetchCounts result (H.faults host.old) (H.faults host.new) flash flash }
    ensures pulls { ⟦<H as Pulls>⟧.pulls capacity host.old host.new }
    ensures asked { IsTrue H.told → H.asked host.new ≡ H.asked host.old }
{
    ram.clear(component);
    match append_file_in_ram(host, ram, component, capacity, room) {
        Ok(()) => Ok(()),
        Err(cause) => {
            ram.clear(component);
            Err(cause)
        }
    }
}

// ---- either

// Replaces a content with the file, piece by piece. Pulls at most one byte more than there is room for.
pub(crate) fn take_into<H: Host, D: Disk>(
    host: &mut H,
    disk: &mut D,
    ram: &mut Ram,
    standing: &Standing,
    room: &mut [u8],
) -> Result<(), Cause>
    requires placed { IsPlaced (D.extent disk.old) ram.old standing.now }
    requires room { 0 < length room.old }
    ensures goes { ⟦<D as Steps>⟧.goes_on
        (FetchCounts result (H.faults host.old) (H.faults host.new)) disk.old disk.new }
    ensures pulls { ⟦<H as Pulls>⟧.pulls standing.now.capacity host.old host.new }
    ensures asked { IsTrue H.told → H.asked host.new ≡ H.asked host.old }
    ensures ram { IsRamBut standing.now.spot ram.old ram.new }
    ensures takes { IsTrue D.told
        → TakesSome H.told (H.rest host.old) result standing.now.capacity
        (content_of standing.now.spot ram.new (D.flash disk.new).reads) }
    ensures replaced { IsTrue D.told → IsReplaced standing.now.spot
        (λ file. IsTrue H.told → file ≡ Some (H.rest host.old))
        (D.flash disk.old) (D.flash disk.new) }
    ensures keeps { IsTrue D.told
        → Keeps (OutsideSpot standing.now.spot) (D.flash disk.old) (D.flash disk.new) }
{
    match standing.spot {
        Spot::Flash(slot) => take_into_slot(host, disk, slot, room),
        Spot::Ram(component) => take_into_ram(host, ram, component, standing.capacity, room),
    }
}
