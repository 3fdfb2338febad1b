//! Lengths of two contents that are exchanged in place.

ghost use Rattle.flash_slots.specs.Contents.{ResultCounts};
ghost use Rattle.std.specs.Prelude.{◌≡◌, ◌≤◌, IsTrue, OnOk, take};
ghost use Rattle.step_machine.specs.Areas.{IsSlotWithin, OutsideLength, area_at, size_at};
ghost use Rattle.step_machine.specs.Copying.{IsPair, IsRamButBoth, OutsideLengths};
ghost use Rattle.step_machine.specs.Devices.{AreSpotsClear};
ghost use Rattle.step_machine.specs.Replacing.{IsEmptyAt, IsEmptyNow, IsSettledAt};
ghost use Rattle.step_machine.specs.Spots.{IsRamBut, IsSpot, content_of};
ghost use Rattle.suit_edge.specs.Flash.{IsSettled, Keeps};

use crate::Spot;
use crate::outside::Steps;
use flash_layout::FlashFault;
use flash_slots::{Ram, put_length};
use suit_edge::{Disk, Edge};

fn sync<D: Disk>(disk: &mut D) -> Result<(), FlashFault>
    ensures read { ⟦<D as Steps>⟧.only_reads (ResultCounts result) disk.old disk.new }
    ensures settled { IsTrue D.told → OnOk result (IsSettled (D.flash disk.new)) }
{
    match disk.sync() {
        Edge::Failed => Err(FlashFault),
        Edge::Done => Ok(()),
    }
}

// Syncs all pending writes, if one of the two is a slot.
pub(crate) fn sync_slots<D: Disk>(disk: &mut D, one: Spot, other: Spot) -> Result<(), FlashFault>
    ensures read { ⟦<D as Steps>⟧.only_reads (ResultCounts result) disk.old disk.new }
    ensures settled { IsTrue D.told → OnOk result (IsSettledAt one (D.flash disk.new)) }
    ensures other_settled { IsTrue D.told → OnOk result (IsSettledAt other (D.flash disk.new)) }
{
    match one {
        Spot::Flash(_) => sync(disk),
        Spot::Ram(_) => match other {
            Spot::Flash(_) => sync(disk),
            Spot::Ram(_) => Ok(()),
        },
    }
}

// Sets the length of a slot to 0.
fn empty_slot<D: Disk>(disk: &mut D, spot: Spot) -> Result<(), FlashFault>
    requires { IsSlotWithin (D.extent disk.old) spot }
    ensures goes { ⟦<D as Steps>⟧.goes_on (ResultCounts result) disk.old disk.new }
    ensures empty { IsTrue D.told → OnOk result (IsEmptyAt spot (D.flash disk.new).reads) }
    ensures keeps { IsTrue D.told
        → Keeps (OutsideLength spot) (D.flash disk.old) (D.flash disk.new) }
{
    match spot {
        Spot::Flash(slot) => put_length(disk, slot, 0),
        Spot::Ram(_) => Ok(()),
    }
}

// Sets the lengths of both slots to 0, and syncs them.
pub(crate) fn empty_slots<D: Disk>(disk: &mut D, one: Spot, other: Spot) -> Result<(), FlashFault>
    requires one { IsSlotWithin (D.extent disk.old) one }
    requires other { IsSlotWithin (D.extent disk.old) other }
    requires clear { AreSpotsClear one other }
    ensures goes { ⟦<D as Steps>⟧.goes_on (ResultCounts result) disk.old disk.new }
    ensures empty { IsTrue D.told → OnOk result (IsEmptyNow one (D.flash disk.new)) }
    ensures other_empty { IsTrue D.told → OnOk result (IsEmptyNow other (D.flash disk.new)) }
    ensures keeps { IsTrue D.told
        → Keeps (OutsideLengths one other) (D.flash disk.old) (D.flash disk.new) }
{
    empty_slot(disk, one)?;
    empty_slot(disk, other)?;
    sync_slots(disk, one, other)
}

// Makes the first bytes in the room of a content that content.
fn set_size<D: Disk>(disk: &mut D, ram: &mut Ram, spot: Spot, size: u64) -> Result<(), FlashFault>
    requires spot { IsSpot (D.extent disk.old) ram.old spot }
    requires within { size ≤ size_at spot ram.old }
    ensures goes { ⟦<D as Steps>⟧.goes_on (ResultCounts result) disk.old disk.new }
    ensures content { IsTrue D.told
        → OnOk result
        (content_of spot ram.new (D.flash disk.new).reads
        ≡ take size (area_at spot ram.old (D.flash disk.old).reads)) }
    ensures ram { IsRamBut spot ram.old ram.new }
    ensures keeps { IsTrue D.told
        → Keeps (OutsideLength spot) (D.flash disk.old) (D.flash disk.new) }
{
    match spot {
        Spot::Flash(slot) => put_length(disk, slot, size),
        Spot::Ram(component) => {
            ram.cut(component, size as usize);
            Ok(())
        }
    }
}

// Makes the first bytes in the rooms of two contents these contents, and syncs their lengths.
pub(crate) fn set_sizes<D: Disk>(
    disk: &mut D,
    ram: &mut Ram,
    one: Spot,
    other: Spot,
    sizes: (u64, u64),
) -> Result<(), FlashFault>
    requires pair { IsPair (D.extent disk.old) ram.old one other }
    requires within { sizes.0 ≤ size_at one ram.old }
    requires other_within { sizes.1 ≤ size_at other ram.old }
    ensures goes { ⟦<D as Steps>⟧.goes_on (ResultCounts result) disk.old disk.new }
    ensures one { IsTrue D.told
        → OnOk result
        (content_of one ram.new (D.flash disk.new).reads
        ≡ take sizes.0 (area_at one ram.old (D.flash disk.old).reads)) }
    ensures other { IsTrue D.told
        → OnOk result
        (content_of other ram.new (D.flash disk.new).reads
        ≡ take sizes.1 (area_at other ram.old (D.flash disk.old).reads)) }
    ensures ram { IsRamButBoth one other ram.old ram.new }
    ensures keeps { IsTrue D.told
        → Keeps (OutsideLengths one other) (D.flash disk.old) (D.flash disk.new) }
{
    set_size(disk, ram, one, sizes.0)?;
    set_size(disk, ram, other, sizes.1)?;
    sync_slots(disk, one, other)
}
