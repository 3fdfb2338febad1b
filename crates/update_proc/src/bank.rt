//! Writing the envelope to a bank.

ghost use Rattle.flash_layout.specs.FaultCounts.{ResultCounts};
ghost use Rattle.flash_layout.specs.Frames.{IsFrame, bank_of, bank_place, bank_size, head_of};
ghost use Rattle.rollback_record.specs.HeadRecord.{IsLoadable};
ghost use Rattle.std.specs.Prelude.{◌≡◌, ◌<◌, ◌≤◌, IfOk, IfSome, IsTrue, OnOk, length, option_map};
ghost use Rattle.suit_edge.specs.Flash.{Grows, IsSame, IsSettled, Keeps};
ghost use Rattle.suit_edge.specs.Ranges.{Outside};
ghost use Rattle.update_proc.specs.Banks.{BesideBank, bank_for, is_kept};

use crate::bank_reading::is_recorded;
use flash_layout::{FlashFault, Frame, Record, bank};
use suit_edge::{Disk, Edge, write_and_sync};

// Writes the envelope to a bank, and syncs all pending writes.
fn fill_bank<D: Disk>(disk: &mut D, frame: Frame, which: u8, bytes: &[u8]) -> Result<(), FlashFault>
    requires frame { IsFrame (D.extent disk.old) frame }
    requires which { which < 2 }
    requires fits { length bytes.now ≤ bank_size frame }
    ensures size { D.extent disk.new ≡ D.extent disk.old }
    ensures counts { ResultCounts result (D.faults disk.old) (D.faults disk.new) }
    ensures holds { IsTrue D.told → OnOk result
        (bank_of frame (head_of frame (D.flash disk.new).reads) which (length bytes.now)
        ≡ bytes.now) }
    ensures settled { IsTrue D.told → OnOk result (IsSettled (D.flash disk.new)) }
    ensures keeps { IsTrue D.told
        → Keeps (Outside (bank_place frame which) (length bytes.now)) (D.flash disk.old)
        (D.flash disk.new) }
    ensures grows { IsTrue D.told → Grows (D.flash disk.old) (D.flash disk.new) }
{
    match write_and_sync(disk, bank(frame, u64::from(which)), bytes) {
        Edge::Failed => Err(FlashFault),
        Edge::Done => Ok(()),
    }
}

// Syncs all pending writes, and leaves the banks as they are.
fn keep_bank<D: Disk>(disk: &mut D) -> Result<(), FlashFault>
    ensures size { D.extent disk.new ≡ D.extent disk.old }
    ensures counts { ResultCounts result (D.faults disk.old) (D.faults disk.new) }
    ensures settled { IsTrue D.told → OnOk result (IsSettled (D.flash disk.new)) }
    ensures same { IsTrue D.told → IsSame (D.flash disk.old) (D.flash disk.new) }
    ensures grows { IsTrue D.told → Grows (D.flash disk.old) (D.flash disk.new) }
{
    match disk.sync() {
        Edge::Failed => Err(FlashFault),
        Edge::Done => Ok(()),
    }
}

/// Writes an envelope to the bank that the record does not name, or to the first one if there is no record, and syncs
/// all pending writes. Returns the bank.
///
/// If the record's bank holds these bytes already, nothing is written, and that bank is returned. At each moment,
/// nothing has changed but the range of the other bank that the envelope takes.
pub fn write_bank<D: Disk>(
    disk: &mut D,
    frame: Frame,
    held: Option<&Record>,
    bytes: &[u8],
    room: &mut [u8],
) -> Result<u8, FlashFault>
    requires frame { IsFrame (D.extent disk.old) frame }
    requires held { IfSome (option_map (λ r. r.now) held) (IsLoadable frame) }
    requires fits { length bytes.now ≤ bank_size frame }
    requires room { 0 < length room.old }
    ensures size { D.extent disk.new ≡ D.extent disk.old }
    ensures counts { ResultCounts result (D.faults disk.old) (D.faults disk.new) }
    ensures which { IfOk result (λ bank. bank < 2) }
    ensures chosen { IsTrue D.told → IfOk result
        (λ bank. bank ≡ bank_for frame (option_map (λ r. r.now) held.entry)
        (D.flash disk.old).reads bytes.now) }
    ensures holds { IsTrue D.told → IfOk result (λ bank.
        bank_of frame (head_of frame (D.flash disk.new).reads) bank (length bytes.now)
        ≡ bytes.now) }
    ensures settled { IsTrue D.told → OnOk result (IsSettled (D.flash disk.new)) }
    ensures kept { IsTrue D.told
        → IsTrue (is_kept frame (option_map (λ r. r.now) held.entry) (D.flash disk.old).reads
        bytes.now)
        → IsSame (D.flash disk.old) (D.flash disk.new) }
    ensures keeps { IsTrue D.told
        → Keeps (BesideBank frame (option_map (λ r. r.now) held.entry) bytes.now) (D.flash disk.old)
        (D.flash disk.new) }
    ensures grows { IsTrue D.told → Grows (D.flash disk.old) (D.flash disk.new) }
{
    match held {
        None => {
            fill_bank(disk, frame, 0, bytes)?;
            Ok(0)
        }
        Some(held) => write_beside(disk, frame, held, bytes, room),
    }
}

// Does the work of `write_bank` if there is a record.
fn write_beside<D: Disk>(
    disk: &mut D,
    frame: Frame,
    held: &Record,
    bytes: &[u8],
    room: &mut [u8],
) -> Result<u8, FlashFault>
    requires frame { IsFrame (D.extent disk.old) frame }
    requires held { IsLoadable frame held.now }
    requires fits { length bytes.now ≤ bank_size frame }
    requires room { 0 < length room.old }
    ensures size { D.extent disk.new ≡ D.extent disk.old }
    ensures counts { ResultCounts result (D.faults disk.old) (D.faults disk.new) }
    ensures which { IfOk result (λ bank. bank < 2) }
    ensures chosen { IsTrue D.told
        → IfOk result (λ bank. bank ≡ bank_for frame (Some held.now) (D.flash disk.old).reads
        bytes.now) }
    ensures holds { IsTrue D.told → IfOk result (λ bank.
        bank_of frame (head_of frame (D.flash disk.new).reads) bank (length bytes.now)
        ≡ bytes.now) }
    ensures settled { IsTrue D.told → OnOk result (IsSettled (D.flash disk.new)) }
    ensures kept { IsTrue D.told
        → IsTrue (is_kept frame (Some held.now) (D.flash disk.old).reads bytes.now)
        → IsSame (D.flash disk.old) (D.flash disk.new) }
    ensures keeps { IsTrue D.told
        → Keeps (BesideBank frame (Some held.now) bytes.now) (D.flash disk.old) (D.flash disk.new) }
    ensures grows { IsTrue D.told → Grows (D.flash disk.old) (D.flash disk.new) }
{
    let recorded = is_recorded(disk, frame, held, bytes, room)?;
    if recorded {
        keep_bank(disk)?;
        return Ok(held.bank);
    }
    let other = 1 - held.bank;
    fill_bank(disk, frame, other, bytes)?;
    Ok(other)
}
