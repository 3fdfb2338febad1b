//! Reads contents in pieces, from slots or working memory.

ghost use Rattle.flash_slots.specs.Contents.{ResultCounts};
ghost use Rattle.flash_slots.specs.RamContents.{held_by};
ghost use Rattle.std.specs.Prelude.{◌≡◌, ◌<◌, ◌≤◌, ◌-◌, IfOk, IsTrue, drop, length, min, take};
ghost use Rattle.step_machine.specs.Areas.{area_at, size_at};
ghost use Rattle.step_machine.specs.Spots.{IsSpot};

use crate::Spot;
use crate::outside::Steps;
use flash_layout::FlashFault;
use flash_slots::{Ram, read_some};
use suit_edge::Disk;

// Copies the bytes from an index on, as many as fit into the room.
fn copy_some(bytes: &[u8], from: usize, room: &mut [u8]) -> usize
    requires { from ≤ length bytes.now }
    ensures count { result ≡ min (length room.old) (length bytes.now - from) }
    ensures bytes { take result room.new ≡ take result (drop from bytes.now) }
{
    let rest = &bytes[from..];
    let count = room.len().min(rest.len());
    room[..count].copy_from_slice(&rest[..count]);
    count
}

// Reads a piece of a content in working memory.
fn read_held(ram: &Ram, component: u32, size: usize, from: usize, room: &mut [u8]) -> usize
    requires component { component < length ram.now }
    requires size { size ≤ length (held_by ram.now component).content }
    requires within { from ≤ size }
    ensures count { result ≡ min (length room.old) (size - from) }
    ensures bytes { take result room.new
        ≡ take result (drop from (held_by ram.now component).content) }
{
    let content = ram.content(component);
    copy_some(&content[..size], from, room)
}

// Reads a piece of the first `size` bytes, from an index on, as long as fits into the room. Returns its length.
pub(crate) fn read_piece<D: Disk>(
    disk: &mut D,
    ram: &Ram,
    spot: Spot,
    size: u64,
    from: u64,
    room: &mut [u8],
) -> Result<usize, FlashFault>
    requires spot { IsSpot (D.extent disk.old) ram.now spot }
    requires area { size ≤ size_at spot ram.now }
    requires within { from ≤ size }
    ensures read { ⟦<D as Steps>⟧.only_reads (ResultCounts result) disk.old disk.new }
    ensures count { IfOk result (λ n. n ≡ min (length room.old) (size - from)) }
    ensures bytes { IsTrue D.told
        → IfOk result
        (λ n. take n room.new
        ≡ take n (drop from (area_at spot ram.now (D.flash disk.old).reads))) }
{
    match spot {
        Spot::Flash(slot) => read_some(disk, slot, size, from, room),
        Spot::Ram(component) => Ok(read_held(ram, component, size as usize, from as usize, room)),
    }
}
