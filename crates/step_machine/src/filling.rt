//! Replaces contents.

ghost use Rattle.flash_layout.specs.Slots.{LiesWithin, extent_of, slot_content};
ghost use Rattle.flash_slots.specs.Contents.{ResultCounts};
ghost use Rattle.flash_slots.specs.RamContents.{held_by, holding};
ghost use Rattle.std.specs.Prelude.{◌≡◌, ◌<◌, ◌≤◌, [], ℕ, IsTrue, List, OnErr, OnOk, length};
ghost use Rattle.step_machine.specs.Replacing.{IsEmptyOrWholeAt};
ghost use Rattle.step_machine.specs.Spots.{IsRamBut, IsSpot, OutsideSpot, content_of, room_at};
ghost use Rattle.step_machine.specs.declared.spot.Spot.TheVariants as spots;
ghost use Rattle.suit_edge.specs.Flash.{Keeps, Passes};
ghost use Rattle.suit_edge.specs.Ranges.{Outside};

use crate::Spot;
use crate::outside::Steps;
use flash_layout::{FlashFault, Slot};
use flash_slots::{Ram, TooLarge, begin};
use suit_edge::Disk;

// Writes bytes to a slot that has room for them.
pub(crate) fn fill_slot<D: Disk>(disk: &mut D, slot: Slot, bytes: &[u8]) -> Result<(), FlashFault>
    requires slot { LiesWithin (D.extent disk.old) slot }
    requires fits { length bytes.now ≤ slot.capacity }
    ensures goes { ⟦<D as Steps>⟧.goes_on (ResultCounts result) disk.old disk.new }
    ensures content { IsTrue D.told
        → OnOk result (slot_content slot (D.flash disk.new).reads ≡ bytes.now) }
    ensures any_moment { IsTrue D.told → Passes (D.flash disk.old) (D.flash disk.new)
        (IsEmptyOrWholeAt (spots.Flash slot) bytes.now (D.flash disk.old)) }
    ensures keeps { IsTrue D.told
        → Keeps (Outside slot.start (extent_of slot)) (D.flash disk.old) (D.flash disk.new) }
{
    let mut writing = begin(disk, slot)?;
    match writing.append(disk, bytes) {
        Ok(()) => {}
        Err(_) => return Err(FlashFault),
    }
    writing.finish(disk)
}

// Writes bytes to a component in working memory that has room for them.
#[tactic(auto, using(crate::proofs::Memory::refilled, crate::proofs::Memory::overfull))]
fn fill_ram(ram: &mut Ram, component: u32, bytes: &[u8])
    requires component { component < length ram.old }
    requires fits { length bytes.now ≤ (held_by ram.old component).capacity }
    ensures { ram.new ≡ holding ram.old component bytes.now }
{
    ram.clear(component);
    match ram.append(component, bytes) {
        Ok(()) => {}
        Err(TooLarge { .. }) => {}
    }
}

// Replaces a content with bytes that there is room for.
pub(crate) fn fill<D: Disk>(
    disk: &mut D,
    ram: &mut Ram,
    spot: Spot,
    bytes: &[u8],
) -> Result<(), FlashFault>
    requires spot { IsSpot (D.extent disk.old) ram.old spot }
    requires fits { length bytes.now ≤ room_at spot ram.old }
    ensures goes { ⟦<D as Steps>⟧.goes_on (ResultCounts result) disk.old disk.new }
    ensures content { IsTrue D.told
        → OnOk result (content_of spot ram.new (D.flash disk.new).reads ≡ bytes.now) }
    ensures short { IsTrue D.told
        → OnErr result
        (length (content_of spot ram.new (D.flash disk.new).reads) ≤ room_at spot ram.old) }
    ensures ram { IsRamBut spot ram.old ram.new }
    ensures any_moment { IsTrue D.told → Passes (D.flash disk.old) (D.flash disk.new)
        (IsEmptyOrWholeAt spot bytes.now (D.flash disk.old)) }
    ensures keeps { IsTrue D.told → Keeps (OutsideSpot spot) (D.flash disk.old) (D.flash disk.new) }
{
    match spot {
        Spot::Flash(slot) => fill_slot(disk, slot, bytes),
        Spot::Ram(component) => {
            fill_ram(ram, component, bytes);
            Ok(())
        }
    }
}

// Empties a content.
pub(crate) fn empty<D: Disk>(disk: &mut D, ram: &mut Ram, spot: Spot) -> Result<(), FlashFault>
    requires spot { IsSpot (D.extent disk.old) ram.old spot }
    ensures goes { ⟦<D as Steps>⟧.goes_on (ResultCounts result) disk.old disk.new }
    ensures content { IsTrue D.told
        → OnOk result (content_of spot ram.new (D.flash disk.new).reads ≡ []) }
    ensures short { IsTrue D.told
        → OnErr result
        (length (content_of spot ram.new (D.flash disk.new).reads) ≤ room_at spot ram.old) }
    ensures ram { IsRamBut spot ram.old ram.new }
    ensures any_moment { IsTrue D.told → (bytes : List ℕ)
        → Passes (D.flash disk.old) (D.flash disk.new)
        (IsEmptyOrWholeAt spot bytes (D.flash disk.old)) }
    ensures keeps { IsTrue D.told → Keeps (OutsideSpot spot) (D.flash disk.old) (D.flash disk.new) }
{
    match spot {
        Spot::Flash(slot) => {
            begin(disk, slot)?;
            Ok(())
        }
        Spot::Ram(component) => {
            ram.clear(component);
            Ok(())
        }
    }
}
