//! Exchanges two contents in place.

ghost use Rattle.flash_slots.specs.Contents.{ResultCounts};
ghost use Rattle.std.specs.Prelude.{◌≡◌, ◌<◌, ◌≤◌, ◌+◌, IsTrue, OnOk, drop, length, take};
ghost use Rattle.step_machine.specs.Areas.{IsHeld, KeepsFront, OutsideRoom, area_at, size_at};
ghost use Rattle.step_machine.specs.Copying.{IsPair, IsRamButBoth, OutsideBoth, OutsideRooms};
ghost use Rattle.step_machine.specs.Replacing.{IsEmptyOrWholeAt, IsSettledAt};
ghost use Rattle.step_machine.specs.Spots.{IsRamBut, IsSpot, content_of, room_at};
ghost use Rattle.suit_edge.specs.Flash.{Keeps, Passes};
ghost use Rattle.suit_edge.specs.Ranges.{written};

use crate::Spot;
use crate::areas::read_piece;
use crate::outside::Steps;
use crate::sizing::{empty_slots, set_sizes, sync_slots};
use flash_layout::FlashFault;
use flash_slots::{Ram, overwrite};
use suit_edge::Disk;

// Extends a content in working memory to at least `size` bytes. Bytes after its own are arbitrary.
fn stretch(ram: &mut Ram, spot: Spot, size: u64)
    requires spot { IsHeld spot ram.old }
    requires fits { size ≤ room_at spot ram.old }
    ensures long { size ≤ size_at spot ram.new }
    ensures front { KeepsFront spot ram.old ram.new }
    ensures ram { IsRamBut spot ram.old ram.new }
{
    match spot {
        Spot::Flash(_) => {}
        Spot::Ram(component) => {
            if (ram.content(component).len() as u64) < size {
                ram.stretch(component, size as usize);
            }
        }
    }
}

// Overwrites bytes in the room of a content, from an index on.
fn write_piece<D: Disk>(
    disk: &mut D,
    ram: &mut Ram,
    spot: Spot,
    from: u64,
    piece: &[u8],
) -> Result<(), FlashFault>
    requires spot { IsSpot (D.extent disk.old) ram.old spot }
    requires within { from + length piece.now ≤ size_at spot ram.old }
    ensures goes { ⟦<D as Steps>⟧.goes_on (ResultCounts result) disk.old disk.new }
    ensures area { IsTrue D.told
        → OnOk result
        (area_at spot ram.new (D.flash disk.new).reads
        ≡ written (area_at spot ram.old (D.flash disk.old).reads) from piece.now) }
    ensures long { size_at spot ram.new ≡ size_at spot ram.old }
    ensures ram { IsRamBut spot ram.old ram.new }
    ensures keeps { IsTrue D.told → Keeps (OutsideRoom spot) (D.flash disk.old) (D.flash disk.new) }
{
    match spot {
        Spot::Flash(slot) => overwrite(disk, slot, from, piece),
        Spot::Ram(component) => {
            ram.put(component, from as usize, piece);
            Ok(())
        }
    }
}

// What is left to exchange: the bytes from the index `from` on, out of `size`.
#[derive(Clone, Copy)]
struct Left {
    from: u64,
    size: u64,
}

// Exchanges two pieces, through rooms of the same length.
fn exchange_piece<D: Disk>(
    disk: &mut D,
    ram: &mut Ram,
    one: Spot,
    other: Spot,
    room: &mut [u8],
    spare: &mut [u8],
    left: Left,
) -> Result<(), FlashFault>
    requires pair { IsPair (D.extent disk.old) ram.old one other }
    requires alike { length spare.old ≡ length room.old }
    requires within { left.from + length room.old ≤ left.size }
    requires area { left.size ≤ size_at one ram.old }
    requires other_area { left.size ≤ size_at other ram.old }
    ensures goes { ⟦<D as Steps>⟧.goes_on (ResultCounts result) disk.old disk.new }
    ensures one { IsTrue D.told → OnOk result (area_at one ram.new (D.flash disk.new).reads
        ≡ written (area_at one ram.old (D.flash disk.old).reads) left.from
        (take (length room.old)
        (drop left.from (area_at other ram.old (D.flash disk.old).reads)))) }
    ensures other { IsTrue D.told → OnOk result (area_at other ram.new (D.flash disk.new).reads
        ≡ written (area_at other ram.old (D.flash disk.old).reads) left.from
        (take (length room.old) (drop left.from (area_at one ram.old (D.flash disk.old).reads)))) }
    ensures long { size_at one ram.new ≡ size_at one ram.old }
    ensures other_long { size_at other ram.new ≡ size_at other ram.old }
    ensures ram { IsRamButBoth one other ram.old ram.new }
    ensures keeps { IsTrue D.told
        → Keeps (OutsideRooms one other) (D.flash disk.old) (D.flash disk.new) }
{
    let Left { from, size } = left;
    read_piece(disk, ram, one, size, from, room)?;
    read_piece(disk, ram, other, size, from, spare)?;
    write_piece(disk, ram, one, from, spare)?;
    write_piece(disk, ram, other, from, room)
}

// Exchanges the first bytes in the rooms of two contents, and syncs them.
fn exchange_pieces<D: Disk>(
    disk: &mut D,
    ram: &mut Ram,
    one: Spot,
    other: Spot,
    size: u64,
    room: &mut [u8],
    spare: &mut [u8],
) -> Result<(), FlashFault>
    requires pair { IsPair (D.extent disk.old) ram.old one other }
    requires within { size ≤ size_at one ram.old }
    requires other_within { size ≤ size_at other ram.old }
    requires room { 0 < length room.old }
    requires spare { 0 < length spare.old }
    ensures goes { ⟦<D as Steps>⟧.goes_on (ResultCounts result) disk.old disk.new }
    ensures one { IsTrue D.told
        → OnOk result
        (take size (area_at one ram.new (D.flash disk.new).reads)
        ≡ take size (area_at other ram.old (D.flash disk.old).reads)) }
    ensures other { IsTrue D.told
        → OnOk result
        (take size (area_at other ram.new (D.flash disk.new).reads)
        ≡ take size (area_at one ram.old (D.flash disk.old).reads)) }
    ensures long { size_at one ram.new ≡ size_at one ram.old }
    ensures other_long { size_at other ram.new ≡ size_at other ram.old }
    ensures ram { IsRamButBoth one other ram.old ram.new }
    ensures settled { IsTrue D.told → OnOk result (IsSettledAt one (D.flash disk.new)) }
    ensures other_settled { IsTrue D.told → OnOk result (IsSettledAt other (D.flash disk.new)) }
    ensures keeps { IsTrue D.told
        → Keeps (OutsideRooms one other) (D.flash disk.old) (D.flash disk.new) }
{
    let limit = room.len().min(spare.len()) as u64;
    let mut from: u64 = 0;
    while from < size {
        let count = limit.min(size - from) as usize;
        exchange_piece(
            disk,
            ram,
            one,
            other,
            &mut room[..count],
            &mut spare[..count],
            Left { from, size },
        )?;
        from += count as u64;
    }
    sync_slots(disk, one, other)
}

// Exchanges two contents of these sizes, if there is room for each. Both slots are marked as empty until both contents
// are complete, so that a power loss on the way leaves no slot with some bytes of each.
pub(crate) fn exchange<D: Disk>(
    disk: &mut D,
    ram: &mut Ram,
    one: Spot,
    other: Spot,
    sizes: (u64, u64),
    room: &mut [u8],
    spare: &mut [u8],
) -> Result<(), FlashFault>
    requires pair { IsPair (D.extent disk.old) ram.old one other }
    requires size { sizes.0 ≤ size_at one ram.old }
    requires other_size { sizes.1 ≤ size_at other ram.old }
    requires own { sizes.0 ≤ room_at one ram.old }
    requires other_own { sizes.1 ≤ room_at other ram.old }
    requires fits { sizes.1 ≤ room_at one ram.old }
    requires other_fits { sizes.0 ≤ room_at other ram.old }
    requires room { 0 < length room.old }
    requires spare { 0 < length spare.old }
    ensures goes { ⟦<D as Steps>⟧.goes_on (ResultCounts result) disk.old disk.new }
    ensures one { IsTrue D.told
        → OnOk result
        (content_of one ram.new (D.flash disk.new).reads
        ≡ take sizes.1 (area_at other ram.old (D.flash disk.old).reads)) }
    ensures other { IsTrue D.told
        → OnOk result
        (content_of other ram.new (D.flash disk.new).reads
        ≡ take sizes.0 (area_at one ram.old (D.flash disk.old).reads)) }
    ensures ram { IsRamButBoth one other ram.old ram.new }
    ensures any_moment { IsTrue D.told → Passes (D.flash disk.old) (D.flash disk.new)
        (IsEmptyOrWholeAt one (take sizes.1 (area_at other ram.old (D.flash disk.old).reads))
        (D.flash disk.old)) }
    ensures other_moment { IsTrue D.told → Passes (D.flash disk.old) (D.flash disk.new)
        (IsEmptyOrWholeAt other (take sizes.0 (area_at one ram.old (D.flash disk.old).reads))
        (D.flash disk.old)) }
    ensures keeps { IsTrue D.told
        → Keeps (OutsideBoth one other) (D.flash disk.old) (D.flash disk.new) }
{
    let size = sizes.0.max(sizes.1);
    stretch(ram, one, size);
    stretch(ram, other, size);
    empty_slots(disk, one, other)?;
    exchange_pieces(disk, ram, one, other, size, room, spare)?;
    set_sizes(disk, ram, one, other, (sizes.1, sizes.0))
}
