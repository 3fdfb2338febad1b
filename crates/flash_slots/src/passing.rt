//! Reading a slot's content from beginning to end.

ghost use Rattle.flash_layout.specs.Slots.{LiesWithin, slot_content};
ghost use Rattle.flash_slots.specs.Contents.{ResultCounts, pieces_of};
ghost use Rattle.std.specs.Prelude.{◌≡◌, ◌↔◌, ◌<◌, ◌≤◌, IfOk, IsTrue, length};
ghost use Rattle.suit_edge.specs.Flash.{Grows, IsSame};
ghost use Rattle.suit_params.specs.Hashes.{hash};

use crate::reading::{length, read_some};
use flash_layout::{FlashFault, Slot};
use lane_bytes::same;
use suit_edge::Disk;
use suit_params::{Digest, DigestKind, Hasher};

/// The digest of the first `size` bytes of the room for the content, which are read through `room`.
pub fn digest_some<D: Disk>(
    disk: &mut D,
    slot: Slot,
    size: u64,
    kind: DigestKind,
    room: &mut [u8],
) -> Result<Digest, FlashFault>
    requires slot { LiesWithin (D.extent disk.old) slot }
    requires few { size ≤ slot.capacity }
    requires room { 0 < length room.old }
    ensures size { D.extent disk.new ≡ D.extent disk.old }
    ensures counts { ResultCounts result (D.faults disk.old) (D.faults disk.new) }
    ensures exact { IsTrue D.told
        → IfOk result (λ d. d ≡ hash kind (pieces_of slot size (D.flash disk.old).reads)) }
    ensures same { IsTrue D.told → IsSame (D.flash disk.old) (D.flash disk.new) }
    ensures grows { IsTrue D.told → Grows (D.flash disk.old) (D.flash disk.new) }
{
    let mut hasher = Hasher::new(kind);
    let mut from: u64 = 0;
    while from < size {
        let count = read_some(disk, slot, size, from, room)?;
        hasher.update(&room[..count]);
        from += count as u64;
    }
    Ok(hasher.finish())
}

/// Whether the content equals these bytes. It is read through `room`.
pub fn same_content<D: Disk>(
    disk: &mut D,
    slot: Slot,
    bytes: &[u8],
    room: &mut [u8],
) -> Result<bool, FlashFault>
    requires slot { LiesWithin (D.extent disk.old) slot }
    requires room { 0 < length room.old }
    ensures size { D.extent disk.new ≡ D.extent disk.old }
    ensures counts { ResultCounts result (D.faults disk.old) (D.faults disk.new) }
    ensures exact { IsTrue D.told
        → IfOk result
        (λ same. IsTrue same ↔ (slot_content slot (D.flash disk.old).reads ≡ bytes.now)) }
    ensures same { IsTrue D.told → IsSame (D.flash disk.old) (D.flash disk.new) }
    ensures grows { IsTrue D.told → Grows (D.flash disk.old) (D.flash disk.new) }
{
    let size = length(disk, slot)?;
    if size != bytes.len() as u64 {
        return Ok(false);
    }
    let mut from: usize = 0;
    while from < bytes.len() {
        let count = read_some(disk, slot, size, from as u64, room)?;
        if !same(&room[..count], &bytes[from..from + count]) {
            return Ok(false);
        }
        from += count;
    }
    Ok(true)
}
