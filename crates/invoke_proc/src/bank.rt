//! The installed record, and the envelope in its bank.

ghost use Rattle.flash_layout.specs.declared.key.Key.{Key};
ghost use Rattle.flash_layout.specs.Configs.{ConfigOf, Configured};
ghost use Rattle.flash_layout.specs.Frames.{IsFrame, bank_size};
ghost use Rattle.invoke_proc.specs.Banks.{BankCounts, IsNoBank, bank_in, record_in};
ghost use Rattle.std.specs.Prelude.{◌≡◌, ◌≤◌, ◌<◌, IfErr, IfOk, IsTrue, Some, length, take};
ghost use Rattle.suit_edge.specs.Edge.{IfDone};
ghost use Rattle.suit_edge.specs.Faults.{EdgeCounts};
ghost use Rattle.suit_edge.specs.Flash.{Grows, IsSame};

use flash_layout::{FlashFault, Frame, Layout, Record, bank};
use rollback_record::load_record_by;
use suit_edge::{Disk, Edge};

/// Why no envelope was read.
#[derive(Clone, Copy, Debug, PartialEq, Eq)]
pub(crate) enum NoBank {
    NothingInstalled,
    FlashFault,
}

// Reads the envelope in the bank of a record, into a room of its length.
fn read_into<D: Disk>(disk: &mut D, frame: Frame, installed: &Record, room: &mut [u8]) -> Edge
    requires frame { IsFrame (D.extent disk.old) frame }
    requires bank { installed.now.bank < 2 }
    requires length { installed.now.length ≤ bank_size frame }
    requires room { length room.old ≡ installed.now.length }
    ensures size { D.extent disk.new ≡ D.extent disk.old }
    ensures counts { EdgeCounts result (D.faults disk.old) (D.faults disk.new) }
    ensures bytes { IsTrue D.told
        → IfDone result (room.new ≡ bank_in frame (D.flash disk.old).reads installed.now) }
    ensures same { IsTrue D.told → IsSame (D.flash disk.old) (D.flash disk.new) }
    ensures grows { IsTrue D.told → Grows (D.flash disk.old) (D.flash disk.new) }
{
    disk.read_at(bank(frame, u64::from(installed.bank)), room)
}

// Reads the envelope in the bank of a record, into the front of a room for a whole bank.
fn read_bank<D: Disk>(disk: &mut D, frame: Frame, installed: &Record, room: &mut [u8]) -> Edge
    requires frame { IsFrame (D.extent disk.old) frame }
    requires bank { installed.now.bank < 2 }
    requires length { installed.now.length ≤ bank_size frame }
    requires room { length room.old ≡ bank_size frame }
    ensures size { D.extent disk.new ≡ D.extent disk.old }
    ensures counts { EdgeCounts result (D.faults disk.old) (D.faults disk.new) }
    ensures room { length room.new ≡ length room.old }
    ensures bytes { IsTrue D.told → IfDone result
        (take installed.now.length room.new
        ≡ bank_in frame (D.flash disk.old).reads installed.now) }
    ensures same { IsTrue D.told → IsSame (D.flash disk.old) (D.flash disk.new) }
    ensures grows { IsTrue D.told → Grows (D.flash disk.old) (D.flash disk.new) }
{
    read_into(
        disk,
        frame,
        installed,
        &mut room[..installed.length as usize],
    )
}

/// Reads the record of a flash with this frame and layout, and the envelope in its bank into the front of the room,
/// which has the length of a bank. Never changes the flash.
pub(crate) fn find_bank<D: Disk>(
    disk: &mut D,
    frame: Frame,
    layout: &Layout,
    room: &mut [u8],
) -> Result<Record, NoBank>
    requires frame { IsFrame (D.extent disk.old) frame }
    requires config { IsTrue D.told
        → (key : Key) × ConfigOf (D.extent disk.old) (D.flash disk.old).reads
        (Configured layout.now key frame) }
    requires room { length room.old ≡ bank_size frame }
    ensures size { D.extent disk.new ≡ D.extent disk.old }
    ensures counts { BankCounts result (D.faults disk.old) (D.faults disk.new) }
    ensures recorded { IsTrue D.told
        → IfOk result (λ r. record_in frame (D.flash disk.old).reads (Some r)) }
    ensures length { IfOk result (λ r. r.length ≤ length room.new) }
    ensures bytes { IsTrue D.told
        → IfOk result (λ r. take r.length room.new ≡ bank_in frame (D.flash disk.old).reads r) }
    ensures none { IsTrue D.told → IfErr result (IsNoBank frame (D.flash disk.old).reads) }
    ensures same { IsTrue D.told → IsSame (D.flash disk.old) (D.flash disk.new) }
    ensures grows { IsTrue D.told → Grows (D.flash disk.old) (D.flash disk.new) }
{
    let installed = match load_record_by(disk, frame, layout) {
        Ok(Some(installed)) => installed,
        Ok(None) => return Err(NoBank::NothingInstalled),
        Err(FlashFault) => return Err(NoBank::FlashFault),
    };
    match read_bank(disk, frame, &installed, room) {
        Edge::Done => Ok(installed),
        Edge::Failed => Err(NoBank::FlashFault),
    }
}
