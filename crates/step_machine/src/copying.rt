//! Copy: replaces the content of a component with that of another.

ghost use Rattle.flash_layout.specs.Slots.{LiesWithin, extent_of, slot_content};
ghost use Rattle.flash_slots.specs.Contents.{IsEmptyInEach, IsEmptySlot, ResultCounts, pieces_of};
ghost use Rattle.flash_slots.specs.RamContents.{held_by};
ghost use Rattle.std.specs.Prelude.{◌≡◌, ◌<◌, ◌≤◌, IsTrue, OnOk, length, take};
ghost use Rattle.step_machine.specs.Areas.{area_at, size_at};
ghost use Rattle.step_machine.specs.Copying.{AreApart, CopiesAs};
ghost use Rattle.step_machine.specs.Devices.{AreSpotsClear};
ghost use Rattle.step_machine.specs.Directives.{CauseCounts};
ghost use Rattle.step_machine.specs.Replacing.{IsEmptyOrWholeAt};
ghost use Rattle.step_machine.specs.Spots.{IsRamBut, IsSpot, OutsideSpot, content_of, room_at};
ghost use Rattle.step_machine.specs.declared.spot.Spot.TheVariants as spots;
ghost use Rattle.suit_edge.specs.Flash.{Grows, Keeps, Passes};
ghost use Rattle.suit_edge.specs.Ranges.{Outside};

use crate::areas::read_piece;
use crate::contents::{content_fits, length_at};
use crate::outside::Steps;
use crate::{Spot, Standing};
use flash_layout::{FlashFault, Slot};
use flash_slots::{Ram, Writing, begin};
use path_model::Cause;
use suit_edge::Disk;

// Copies the first bytes of a source into an emptied slot.
fn put_pieces<D: Disk>(
    disk: &mut D,
    ram: &Ram,
    writing: &mut Writing,
    source: Spot,
    size: u64,
    room: &mut [u8],
) -> Result<(), FlashFault>
    requires slot { LiesWithin (D.extent disk.old) writing.old.slot }
    requires none { writing.old.written ≡ 0 }
    requires fits { size ≤ writing.old.slot.capacity }
    requires source { IsSpot (D.extent disk.old) ram.now source }
    requires area { size ≤ size_at source ram.now }
    requires clear { AreSpotsClear (spots.Flash writing.old.slot) source }
    requires room { 0 < length room.old }
    ensures goes { ⟦<D as Steps>⟧.goes_on (ResultCounts result) disk.old disk.new }
    ensures slot { writing.new.slot ≡ writing.old.slot }
    ensures written { OnOk result (writing.new.written ≡ size) }
    ensures pieces { IsTrue D.told
        → OnOk result (pieces_of writing.new.slot size (D.flash disk.new).reads
        ≡ take size (area_at source ram.now (D.flash disk.old).reads)) }
    ensures still_empty { IsTrue D.told → IsEmptyInEach writing.old.slot (D.flash disk.old)
        → Passes (D.flash disk.old) (D.flash disk.new) (IsEmptySlot writing.old.slot) }
    ensures keeps { IsTrue D.told
        → Keeps (Outside writing.old.slot.start (extent_of writing.old.slot)) (D.flash disk.old)
        (D.flash disk.new) }
{
    let mut from: u64 = 0;
    while from < size {
        let count = read_piece(disk, ram, source, size, from, room)?;
        match writing.append(disk, &room[..count]) {
            Ok(()) => {}
            Err(_) => return Err(FlashFault),
        }
        from += count as u64;
    }
    Ok(())
}

// Copies the first bytes of a source to a slot that has room for them.
fn copy_to_slot<D: Disk>(
    disk: &mut D,
    ram: &Ram,
    slot: Slot,
    source: Spot,
    size: u64,
    room: &mut [u8],
) -> Result<(), FlashFault>
    requires slot { LiesWithin (D.extent disk.old) slot }
    requires fits { size ≤ slot.capacity }
    requires source { IsSpot (D.extent disk.old) ram.now source }
    requires area { size ≤ size_at source ram.now }
    requires clear { AreSpotsClear (spots.Flash slot) source }
    requires room { 0 < length room.old }
    ensures goes { ⟦<D as Steps>⟧.goes_on (ResultCounts result) disk.old disk.new }
    ensures content { IsTrue D.told → OnOk result (slot_content slot (D.flash disk.new).reads
        ≡ take size (area_at source ram.now (D.flash disk.old).reads)) }
    ensures any_moment { IsTrue D.told → Passes (D.flash disk.old) (D.flash disk.new)
        (IsEmptyOrWholeAt (spots.Flash slot)
        (take size (area_at source ram.now (D.flash disk.old).reads)) (D.flash disk.old)) }
    ensures keeps { IsTrue D.told
        → Keeps (Outside slot.start (extent_of slot)) (D.flash disk.old) (D.flash disk.new) }
{
    let mut writing = begin(disk, slot)?;
    put_pieces(disk, ram, &mut writing, source, size, room)?;
    writing.finish(disk)
}

// Copies the first bytes of a source to a component in working memory that has room for them.
fn copy_to_ram<D: Disk>(
    disk: &mut D,
    ram: &mut Ram,
    component: u32,
    source: Spot,
    size: u64,
    room: &mut [u8],
) -> Result<(), FlashFault>
    requires component { component < length ram.old }
    requires fits { size ≤ (held_by ram.old component).capacity }
    requires source { IsSpot (D.extent disk.old) ram.old source }
    requires area { size ≤ size_at source ram.old }
    requires clear { AreSpotsClear (spots.Ram component) source }
    requires room { 0 < length room.old }
    ensures read { ⟦<D as Steps>⟧.only_reads (ResultCounts result) disk.old disk.new }
    ensures content { IsTrue D.told
        → OnOk result
        ((held_by ram.new component).content
        ≡ take size (area_at source ram.old (D.flash disk.old).reads)) }
    ensures ram { IsRamBut (spots.Ram component) ram.old ram.new }
    ensures short { length (held_by ram.new component).content
        ≤ (held_by ram.old component).capacity }
{
    ram.clear(component);
    let mut from: u64 = 0;
    while from < size {
        let count = read_piece(disk, ram, source, size, from, room)?;
        match ram.append(component, &room[..count]) {
            Ok(()) => {}
            Err(_) => return Err(FlashFault),
        }
        from += count as u64;
    }
    Ok(())
}

// Copies the first bytes of a source to a spot that has room for them.
fn copy_content<D: Disk>(
    disk: &mut D,
    ram: &mut Ram,
    source: Spot,
    size: u64,
    spot: Spot,
    room: &mut [u8],
) -> Result<(), FlashFault>
    requires room { 0 < length room.old }
    requires source { IsSpot (D.extent disk.old) ram.old source }
    requires area { size ≤ size_at source ram.old }
    requires spot { IsSpot (D.extent disk.old) ram.old spot }
    requires fits { size ≤ room_at spot ram.old }
    requires clear { AreSpotsClear spot source }
    ensures goes { ⟦<D as Steps>⟧.goes_on (ResultCounts result) disk.old disk.new }
    ensures content { IsTrue D.told → OnOk result (content_of spot ram.new (D.flash disk.new).reads
        ≡ take size (area_at source ram.old (D.flash disk.old).reads)) }
    ensures short { IsTrue D.told
        → length (content_of spot ram.new (D.flash disk.new).reads) ≤ room_at spot ram.old }
    ensures ram { IsRamBut spot ram.old ram.new }
    ensures any_moment { IsTrue D.told → Passes (D.flash disk.old) (D.flash disk.new)
        (IsEmptyOrWholeAt spot (take size (area_at source ram.old (D.flash disk.old).reads))
        (D.flash disk.old)) }
    ensures keeps { IsTrue D.told → Keeps (OutsideSpot spot) (D.flash disk.old) (D.flash disk.new) }
{
    match spot {
        Spot::Flash(slot) => copy_to_slot(disk, ram, slot, source, size, room),
        Spot::Ram(component) => copy_to_ram(disk, ram, component, source, size, room),
    }
}

/// Copy: replaces the content of a component with that of the source (draft-ietf-suit-manifest-25, section 8.4.10),
/// which is read through `room`.
///
/// If the copy is refused, nothing changes. After a fault of the flash the component may have any content. The source
/// stays as it is. A power loss on the way leaves the slot empty, or its bytes as they were, or the whole new content.
pub fn copy<D: Disk>(
    disk: &mut D,
    ram: &mut Ram,
    standing: &Standing,
    source: &Standing,
    room: &mut [u8],
) -> Result<(), Cause>
    requires capacity { room_at standing.now.spot ram.old ≡ standing.now.capacity }
    requires spot { IsSpot (D.extent disk.old) ram.old standing.now.spot }
    requires source { IsSpot (D.extent disk.old) ram.old source.now.spot }
    requires apart { AreApart standing.now.component standing.now.spot source.now.component
        source.now.spot }
    requires room { 0 < length room.old }
    ensures size { D.extent disk.new ≡ D.extent disk.old }
    ensures counts { CauseCounts result (D.faults disk.old) (D.faults disk.new) }
    ensures ram { IsRamBut standing.now.spot ram.old ram.new }
    ensures copies { IsTrue D.told
        → CopiesAs standing.now.component standing.now.capacity source.now.component
        (content_of source.now.spot ram.old (D.flash disk.old).reads)
        (content_of standing.now.spot ram.old (D.flash disk.old).reads)
        (content_of standing.now.spot ram.new (D.flash disk.new).reads) result }
    ensures source { IsTrue D.told
        → content_of source.now.spot ram.new (D.flash disk.new).reads
        ≡ content_of source.now.spot ram.old (D.flash disk.old).reads }
    ensures any_moment { IsTrue D.told → Passes (D.flash disk.old) (D.flash disk.new)
        (IsEmptyOrWholeAt standing.now.spot
        (content_of source.now.spot ram.old (D.flash disk.old).reads) (D.flash disk.old)) }
    ensures keeps { IsTrue D.told
        → Keeps (OutsideSpot standing.now.spot) (D.flash disk.old) (D.flash disk.new) }
    ensures grows { IsTrue D.told → Grows (D.flash disk.old) (D.flash disk.new) }
{
    if source.component == standing.component {
        return Err(Cause::SelfCopy);
    }
    content_fits(disk, ram, standing.spot);
    let size = match length_at(disk, ram, source.spot) {
        Ok(size) => size,
        Err(FlashFault) => return Err(Cause::FlashFault),
    };
    if standing.capacity < size {
        return Err(Cause::TooLarge);
    }
    match copy_content(disk, ram, source.spot, size, standing.spot, room) {
        Ok(()) => Ok(()),
        Err(FlashFault) => Err(Cause::FlashFault),
    }
}
