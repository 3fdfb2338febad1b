//! Reads contents, from slots or working memory.

ghost use Rattle.flash_slots.specs.Contents.{ResultCounts};
ghost use Rattle.std.specs.Prelude.{◌≡◌, ◌<◌, ◌≤◌, IfOk, IsTrue, length, take};
ghost use Rattle.std.specs.Str.{bytes_eq};
ghost use Rattle.step_machine.specs.Areas.{area_at, size_at};
ghost use Rattle.step_machine.specs.Spots.{IsSpot, content_of, room_at};
ghost use Rattle.suit_params.specs.Hashes.{hash};

use crate::Spot;
use crate::outside::Steps;
use flash_layout::FlashFault;
use flash_slots::{Ram, digest_some, length, same_content};
use lane_bytes::same;
use suit_edge::Disk;
use suit_params::{Digest, DigestKind, hash};

// The digest of the first `size` bytes at a spot.
pub(crate) fn digest_at<D: Disk>(
    disk: &mut D,
    ram: &Ram,
    spot: Spot,
    size: u64,
    kind: DigestKind,
    room: &mut [u8],
) -> Result<Digest, FlashFault>
    requires spot { IsSpot (D.extent disk.old) ram.now spot }
    requires area { size ≤ size_at spot ram.now }
    requires room { 0 < length room.old }
    ensures read { ⟦<D as Steps>⟧.only_reads (ResultCounts result) disk.old disk.new }
    ensures exact { IsTrue D.told → IfOk result
        (λ d. d ≡ hash kind (take size (area_at spot ram.now (D.flash disk.old).reads))) }
{
    match spot {
        Spot::Flash(slot) => digest_some(disk, slot, size, kind, room),
        Spot::Ram(component) => {
            let content = ram.content(component);
            Ok(hash(kind, &content[..size as usize]))
        }
    }
}

// The length of a content in bytes.
pub(crate) fn length_at<D: Disk>(disk: &mut D, ram: &Ram, spot: Spot) -> Result<u64, FlashFault>
    requires spot { IsSpot (D.extent disk.old) ram.now spot }
    ensures read { ⟦<D as Steps>⟧.only_reads (ResultCounts result) disk.old disk.new }
    ensures few { IfOk result (λ n. n ≤ room_at spot ram.now) }
    ensures area { IfOk result (λ n. n ≤ size_at spot ram.now) }
    ensures exact { IsTrue D.told
        → IfOk result (λ n. n ≡ length (content_of spot ram.now (D.flash disk.old).reads)) }
{
    match spot {
        Spot::Flash(slot) => length(disk, slot),
        Spot::Ram(component) => Ok(ram.content(component).len() as u64),
    }
}

// Whether a content equals these bytes.
pub(crate) fn same_at<D: Disk>(
    disk: &mut D,
    ram: &Ram,
    spot: Spot,
    bytes: &[u8],
    room: &mut [u8],
) -> Result<bool, FlashFault>
    requires spot { IsSpot (D.extent disk.old) ram.now spot }
    requires room { 0 < length room.old }
    ensures exact { IsTrue D.told
        → IfOk result
        (λ same. same ≡ bytes_eq (content_of spot ram.now (D.flash disk.old).reads) bytes.now) }
    ensures read { ⟦<D as Steps>⟧.only_reads (ResultCounts result) disk.old disk.new }
{
    match spot {
        Spot::Flash(slot) => same_content(disk, slot, bytes, room),
        Spot::Ram(component) => Ok(same(ram.content(component), bytes)),
    }
}

// Does nothing. Its contract is the law: a content has no more bytes than there is room for.
pub(crate) fn content_fits<D: Disk>(disk: &D, ram: &Ram, spot: Spot)
    requires { IsSpot (D.extent disk.now) ram.now spot }
    ensures { length (content_of spot ram.now (D.flash disk.now).reads) ≤ room_at spot ram.now }
{
    match spot {
        Spot::Flash(_) => {}
        Spot::Ram(component) => {
            let _content = ram.content(component);
        }
    }
}
