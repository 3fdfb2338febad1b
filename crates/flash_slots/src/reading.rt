//! Reading a slot's content.

ghost use Rattle.flash_layout.specs.Slots.{LiesWithin, slot_content};
ghost use Rattle.flash_slots.specs.Contents.{IsRead, ResultCounts, part_of};
ghost use Rattle.std.specs.Prelude.{◌≡◌, ◌≤◌, ◌-◌, ◌++◌, IfOk, IsTrue, drop, length, min};
ghost use Rattle.suit_edge.specs.Flash.{Grows, IsSame};

use flash_layout::{FlashFault, LENGTH_SIZE, Slot};
use suit_edge::{Disk, Edge};

/// The length of the content in bytes. A stored length above the capacity reads as 0.
pub fn length<D: Disk>(disk: &mut D, slot: Slot) -> Result<u64, FlashFault>
    requires { LiesWithin (D.extent disk.old) slot }
    ensures size { D.extent disk.new ≡ D.extent disk.old }
    ensures counts { ResultCounts result (D.faults disk.old) (D.faults disk.new) }
    ensures few { IfOk result (λ n. n ≤ slot.capacity) }
    ensures exact { IsTrue D.told
        → IfOk result (λ n. n ≡ length (slot_content slot (D.flash disk.old).reads)) }
    ensures same { IsTrue D.told → IsSame (D.flash disk.old) (D.flash disk.new) }
    ensures grows { IsTrue D.told → Grows (D.flash disk.old) (D.flash disk.new) }
{
    let mut bytes = [0u8; LENGTH_SIZE as usize];
    match disk.read_at(slot.start, &mut bytes) {
        Edge::Failed => return Err(FlashFault),
        Edge::Done => {}
    }
    let stored = u64::from_be_bytes(bytes);
    if slot.capacity < stored {
        Ok(0)
    } else {
        Ok(stored)
    }
}

/// Reads the first `size` bytes of the room for the content, from byte `from` on. Reads as many as
/// fit into `room`, and returns their number. If it fails, `room` may hold any bytes.
pub fn read_some<D: Disk>(
    disk: &mut D,
    slot: Slot,
    size: u64,
    from: u64,
    room: &mut [u8],
) -> Result<usize, FlashFault>
    requires slot { LiesWithin (D.extent disk.old) slot }
    requires few { size ≤ slot.capacity }
    requires within { from ≤ size }
    ensures size { D.extent disk.new ≡ D.extent disk.old }
    ensures counts { ResultCounts result (D.faults disk.old) (D.faults disk.new) }
    ensures count { IfOk result (λ n. n ≡ min (length room.old) (size - from)) }
    ensures bytes { IsTrue D.told
        → IfOk result
        (λ n. room.new ≡ part_of slot from n (D.flash disk.old).reads ++ drop n room.old) }
    ensures same { IsTrue D.told → IsSame (D.flash disk.old) (D.flash disk.new) }
    ensures grows { IsTrue D.told → Grows (D.flash disk.old) (D.flash disk.new) }
{
    // The size of the flash fits a `u64`, and so does each place of the slot. The proof learns it
    // here.
    let _size = disk.size();
    let rest = size - from;
    let count = if (room.len() as u64) < rest {
        room.len()
    } else {
        rest as usize
    };
    match disk.read_at(slot.start + LENGTH_SIZE + from, &mut room[..count]) {
        Edge::Failed => Err(FlashFault),
        Edge::Done => Ok(count),
    }
}

/// Reads the content from byte `from` on. Reads as many bytes as fit into `room`, and returns their
/// number, which is 0 at the end of the content or after it. If it fails, `room` may hold any
/// bytes.
pub fn read<D: Disk>(
    disk: &mut D,
    slot: Slot,
    from: u64,
    room: &mut [u8],
) -> Result<usize, FlashFault>
    requires { LiesWithin (D.extent disk.old) slot }
    ensures size { D.extent disk.new ≡ D.extent disk.old }
    ensures counts { ResultCounts result (D.faults disk.old) (D.faults disk.new) }
    ensures within { IfOk result (λ n. n ≤ length room.old) }
    ensures exact { IsTrue D.told
        → IfOk result (IsRead (slot_content slot (D.flash disk.old).reads) from room.old room.new) }
    ensures same { IsTrue D.told → IsSame (D.flash disk.old) (D.flash disk.new) }
    ensures grows { IsTrue D.told → Grows (D.flash disk.old) (D.flash disk.new) }
{
    let size = length(disk, slot)?;
    if size <= from {
        return Ok(0);
    }
    read_some(disk, slot, size, from, room)
}
