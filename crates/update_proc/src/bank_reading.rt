//! Whether a bank already holds an envelope.

ghost use Rattle.flash_layout.specs.FaultCounts.{ResultCounts};
ghost use Rattle.flash_layout.specs.Frames.{IsFrame, head_of};
ghost use Rattle.rollback_record.specs.HeadRecord.{IsLoadable};
ghost use Rattle.rollback_record.specs.SoundFlash.{recorded_bank};
ghost use Rattle.std.specs.Prelude.{◌≡◌, ◌↔◌, ◌+◌, ◌<◌, ◌≤◌, IfOk, IsTrue, length, slice_range};

use flash_layout::{FlashFault, Frame, Record, bank};
use lane_bytes::same;
use step_machine::Steps;
use suit_edge::{Disk, Edge};

// Whether the disk has a piece at a place.
fn has_piece<D: Disk>(
    disk: &mut D,
    piece: &[u8],
    place: u64,
    room: &mut [u8],
) -> Result<bool, FlashFault>
    requires within { place + length piece.now ≤ D.extent disk.old }
    requires room { length piece.now ≤ length room.old }
    ensures exact { IsTrue D.told → IfOk result (λ same. IsTrue same ↔
        (slice_range (D.flash disk.old).reads place (place + length piece.now) ≡ piece.now)) }
    ensures read { ⟦<D as Steps>⟧.only_reads (ResultCounts result) disk.old disk.new }
{
    let count = piece.len();
    match disk.read_at(place, &mut room[..count]) {
        Edge::Failed => Err(FlashFault),
        Edge::Done => Ok(same(&room[..count], piece)),
    }
}

// Whether the disk has the bytes at a place. They are read in pieces, through the room.
fn has_bytes<D: Disk>(
    disk: &mut D,
    place: u64,
    bytes: &[u8],
    room: &mut [u8],
) -> Result<bool, FlashFault>
    requires within { place + length bytes.now ≤ D.extent disk.old }
    requires room { 0 < length room.old }
    ensures read { ⟦<D as Steps>⟧.only_reads (ResultCounts result) disk.old disk.new }
    ensures exact { IsTrue D.told → IfOk result (λ same. IsTrue same ↔
        (slice_range (D.flash disk.old).reads place (place + length bytes.now) ≡ bytes.now)) }
{
    // Each place fits a u64, since the flash's size does.
    let _size = disk.size();
    let mut from: usize = 0;
    while from < bytes.len() {
        let count = room.len().min(bytes.len() - from);
        let piece = &bytes[from..from + count];
        let same = has_piece(disk, piece, place + from as u64, room)?;
        if !same {
            return Ok(false);
        }
        from += count;
    }
    Ok(true)
}

/// Whether the record's bank holds these bytes, and its length is theirs.
pub(crate) fn is_recorded<D: Disk>(
    disk: &mut D,
    frame: Frame,
    held: &Record,
    bytes: &[u8],
    room: &mut [u8],
) -> Result<bool, FlashFault>
    requires room { 0 < length room.old }
    requires held { IsLoadable frame held.now }
    requires frame { IsFrame (D.extent disk.old) frame }
    ensures read { ⟦<D as Steps>⟧.only_reads (ResultCounts result) disk.old disk.new }
    ensures exact { IsTrue D.told → IfOk result (λ same. IsTrue same ↔
        (recorded_bank frame (head_of frame (D.flash disk.old).reads) held.now
        ≡ bytes.now)) }
{
    if held.length != bytes.len() as u64 {
        return Ok(false);
    }
    has_bytes(disk, bank(frame, u64::from(held.bank)), bytes, room)
}
