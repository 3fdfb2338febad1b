//! Swap: exchanges the contents of two components.

ghost use Rattle.std.specs.Prelude.{◌≡◌, ◌<◌, IsTrue, length};
ghost use Rattle.step_machine.specs.Copying.{AreApart, IsRamButBoth, OutsideBoth, SwapsAs, side_of};
ghost use Rattle.step_machine.specs.Directives.{CauseCounts};
ghost use Rattle.step_machine.specs.Replacing.{IsEmptyOrWholeAt};
ghost use Rattle.step_machine.specs.Spots.{IsSpot, content_of, room_at};
ghost use Rattle.suit_edge.specs.Flash.{Grows, Keeps, Passes};

use crate::Standing;
use crate::contents::{content_fits, length_at};
use crate::exchanging::exchange;
use flash_layout::FlashFault;
use flash_slots::Ram;
use path_model::Cause;
use suit_edge::Disk;

/// Swap: exchanges the contents of a component and of the source in place, through two buffers
/// (draft-ietf-suit-manifest-25, section 8.4.10).
///
/// If the swap is refused, nothing changes. After a fault of the flash both may have any content. A power loss on the
/// way leaves each slot empty, or its bytes as they were, or its whole new content: no slot has a length and some bytes
/// of each content.
pub fn swap<D: Disk>(
    disk: &mut D,
    ram: &mut Ram,
    standing: &Standing,
    source: &Standing,
    room: &mut [u8],
    spare: &mut [u8],
) -> Result<(), Cause>
    requires spot { IsSpot (D.extent disk.old) ram.old standing.now.spot }
    requires source { IsSpot (D.extent disk.old) ram.old source.now.spot }
    requires apart { AreApart standing.now.component standing.now.spot source.now.component
        source.now.spot }
    requires capacity { room_at standing.now.spot ram.old ≡ standing.now.capacity }
    requires source_capacity { room_at source.now.spot ram.old ≡ source.now.capacity }
    requires room { 0 < length room.old }
    requires spare { 0 < length spare.old }
    ensures size { D.extent disk.new ≡ D.extent disk.old }
    ensures counts { CauseCounts result (D.faults disk.old) (D.faults disk.new) }
    ensures ram { IsRamButBoth standing.now.spot source.now.spot ram.old ram.new }
    ensures swaps { IsTrue D.told → SwapsAs
        (side_of standing.now.component standing.now.capacity
        (content_of standing.now.spot ram.old (D.flash disk.old).reads)
        (content_of standing.now.spot ram.new (D.flash disk.new).reads))
        (side_of source.now.component source.now.capacity
        (content_of source.now.spot ram.old (D.flash disk.old).reads)
        (content_of source.now.spot ram.new (D.flash disk.new).reads))
        result }
    ensures any_moment { IsTrue D.told → Passes (D.flash disk.old) (D.flash disk.new)
        (IsEmptyOrWholeAt standing.now.spot
        (content_of source.now.spot ram.old (D.flash disk.old).reads) (D.flash disk.old)) }
    ensures source_moment { IsTrue D.told → Passes (D.flash disk.old) (D.flash disk.new)
        (IsEmptyOrWholeAt source.now.spot
        (content_of standing.now.spot ram.old (D.flash disk.old).reads) (D.flash disk.old)) }
    ensures keeps { IsTrue D.told
        → Keeps (OutsideBoth standing.now.spot source.now.spot) (D.flash disk.old)
        (D.flash disk.new) }
    ensures grows { IsTrue D.told → Grows (D.flash disk.old) (D.flash disk.new) }
{
    if source.component == standing.component {
        return Err(Cause::SelfCopy);
    }
    content_fits(disk, ram, standing.spot);
    content_fits(disk, ram, source.spot);
    let size = match length_at(disk, ram, standing.spot) {
        Ok(size) => size,
        Err(FlashFault) => return Err(Cause::FlashFault),
    };
    let source_size = match length_at(disk, ram, source.spot) {
        Ok(size) => size,
        Err(FlashFault) => return Err(Cause::FlashFault),
    };
    if standing.capacity < source_size {
        return Err(Cause::TooLarge);
    }
    if source.capacity < size {
        return Err(Cause::TooLarge);
    }
    let sizes = (size, source_size);
    match exchange(disk, ram, standing.spot, source.spot, sizes, room, spare) {
        Ok(()) => Ok(()),
        Err(FlashFault) => {
            content_fits(disk, ram, standing.spot);
            content_fits(disk, ram, source.spot);
            Err(Cause::FlashFault)
        }
    }
}
