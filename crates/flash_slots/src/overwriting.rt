//! Changing a content in place: writing pieces into the room for it, and setting its length.

ghost use Rattle.flash_layout.specs.Slots.{LiesWithin, slot_content};
ghost use Rattle.flash_slots.specs.Contents.{ResultCounts, area_of, pieces_of};
ghost use Rattle.std.specs.Prelude.{◌≡◌, ◌≤◌, ◌+◌, OnOk, IsTrue, length};
ghost use Rattle.suit_edge.specs.Flash.{Grows, Keeps};
ghost use Rattle.suit_edge.specs.Ranges.{Outside, written};

use flash_layout::{FlashFault, LENGTH_SIZE, Slot};
use suit_edge::{Disk, Edge};

/// Writes a piece into the room for the content, from byte `from` on, whatever the content's
/// length. It is durable only after a sync. If it fails, the bytes of the piece may be any.
pub fn overwrite<D: Disk>(
    disk: &mut D,
    slot: Slot,
    from: u64,
    piece: &[u8],
) -> Result<(), FlashFault>
    requires slot { LiesWithin (D.extent disk.old) slot }
    requires within { from + length piece.now ≤ slot.capacity }
    ensures size { D.extent disk.new ≡ D.extent disk.old }
    ensures counts { ResultCounts result (D.faults disk.old) (D.faults disk.new) }
    ensures area { IsTrue D.told
        → OnOk result
        (area_of slot (D.flash disk.new).reads
        ≡ written (area_of slot (D.flash disk.old).reads) from piece.now) }
    ensures keeps { IsTrue D.told
        → Keeps (Outside (slot.start + LENGTH_SIZE + from) (length piece.now)) (D.flash disk.old)
        (D.flash disk.new) }
    ensures grows { IsTrue D.told → Grows (D.flash disk.old) (D.flash disk.new) }
{
    // The size of the flash fits a `u64`, and so does each place of the slot. The proof learns it
    // here.
    let _size = disk.size();
    match disk.write_at(slot.start + LENGTH_SIZE + from, piece) {
        Edge::Failed => Err(FlashFault),
        Edge::Done => Ok(()),
    }
}

/// Stores a length, which makes that many of the first bytes the content. It is durable only after
/// a sync. If it fails, the slot may hold any content.
pub fn put_length<D: Disk>(disk: &mut D, slot: Slot, size: u64) -> Result<(), FlashFault>
    requires slot { LiesWithin (D.extent disk.old) slot }
    requires within { size ≤ slot.capacity }
    ensures size { D.extent disk.new ≡ D.extent disk.old }
    ensures counts { ResultCounts result (D.faults disk.old) (D.faults disk.new) }
    ensures content { IsTrue D.told
        → OnOk result
        (slot_content slot (D.flash disk.new).reads
        ≡ pieces_of slot size (D.flash disk.old).reads) }
    ensures keeps { IsTrue D.told
        → Keeps (Outside slot.start LENGTH_SIZE) (D.flash disk.old) (D.flash disk.new) }
    ensures grows { IsTrue D.told → Grows (D.flash disk.old) (D.flash disk.new) }
{
    match disk.write_at(slot.start, &size.to_be_bytes()) {
        Edge::Failed => Err(FlashFault),
        Edge::Done => Ok(()),
    }
}
