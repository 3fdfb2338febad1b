//! Replacing a slot's content.

ghost use Rattle.flash_layout.specs.Slots.{LiesWithin, extent_of, slot_content};
ghost use Rattle.flash_slots.specs.Contents.{AppendCounts, AppendsWithin, IfTooLarge, IsEmptyInEach, IsEmptyOrWhole, IsEmptySlot, ResultCounts, pieces_of};
ghost use Rattle.std.specs.Prelude.{◌≡◌, ◌≤◌, ◌+◌, [], ◌++◌, IfOk, OnOk, IsTrue, length};
ghost use Rattle.suit_edge.specs.Flash.{Grows, IsSettled, Keeps, Passes};
ghost use Rattle.suit_edge.specs.Ranges.{Outside};

use flash_layout::{FlashFault, LENGTH_SIZE, Slot};
use suit_edge::{Disk, Edge, write_and_sync};

/// An emptied slot that is being filled, and how many bytes of its new content were written. If it
/// is dropped, the slot stays empty.
#[derive(Debug, Drop)]
pub struct Writing {
    slot: Slot,
    written: u64,
}

/// Why a piece was not appended.
#[derive(Clone, Copy, Debug, PartialEq, Eq)]
pub enum AppendFault {
    /// The content would be longer than the slot's capacity, which is this many bytes. Nothing was
    /// changed.
    TooLarge(u64),
    /// A call of the flash failed. The slot may hold any content.
    FlashFault,
}

/// Empties a slot and syncs it. If it fails, the slot may hold any content.
pub fn begin<D: Disk>(disk: &mut D, slot: Slot) -> Result<Writing, FlashFault>
    requires { LiesWithin (D.extent disk.old) slot }
    ensures size { D.extent disk.new ≡ D.extent disk.old }
    ensures counts { ResultCounts result (D.faults disk.old) (D.faults disk.new) }
    ensures slot { IfOk result (λ w. w.slot ≡ slot) }
    ensures none { IfOk result (λ w. w.written ≡ 0) }
    ensures empty { IsTrue D.told → OnOk result (slot_content slot (D.flash disk.new).reads ≡ []) }
    ensures settled { IsTrue D.told → OnOk result (IsSettled (D.flash disk.new)) }
    ensures keeps { IsTrue D.told
        → Keeps (Outside slot.start LENGTH_SIZE) (D.flash disk.old) (D.flash disk.new) }
    ensures grows { IsTrue D.told → Grows (D.flash disk.old) (D.flash disk.new) }
{
    match write_and_sync(disk, slot.start, &0u64.to_be_bytes()) {
        Edge::Failed => Err(FlashFault),
        Edge::Done => Ok(Writing { slot, written: 0 }),
    }
}

impl Writing {
    /// Appends a piece. It is durable only after `finish`.
    pub fn append<D: Disk>(&mut self, disk: &mut D, piece: &[u8]) -> Result<(), AppendFault>
        requires slot { LiesWithin (D.extent disk.old) self.old.slot }
        requires within { self.old.written ≤ self.old.slot.capacity }
        ensures size { D.extent disk.new ≡ D.extent disk.old }
        ensures counts { AppendCounts result (D.faults disk.old) (D.faults disk.new) }
        ensures slot { self.new.slot ≡ self.old.slot }
        ensures within { self.new.written ≤ self.new.slot.capacity }
        ensures exact { AppendsWithin result self.old.slot.capacity
            (self.old.written + length piece.now) }
        ensures refused { IfTooLarge result ((self.new ≡ self.old) × (disk.new ≡ disk.old)) }
        ensures written { OnOk result (self.new.written ≡ self.old.written + length piece.now) }
        ensures pieces { IsTrue D.told
            → OnOk result
            (pieces_of self.new.slot self.new.written (D.flash disk.new).reads
            ≡ pieces_of self.old.slot self.old.written (D.flash disk.old).reads
            ++ piece.now) }
        ensures empty { IsTrue D.told → slot_content self.old.slot (D.flash disk.old).reads ≡ []
            → slot_content self.old.slot (D.flash disk.new).reads ≡ [] }
        ensures still_empty { IsTrue D.told → IsEmptyInEach self.old.slot (D.flash disk.old)
            → Passes (D.flash disk.old) (D.flash disk.new) (IsEmptySlot self.old.slot) }
        ensures keeps { IsTrue D.told
            → Keeps
            (Outside (self.old.slot.start + LENGTH_SIZE + self.old.written) (length piece.now))
            (D.flash disk.old) (D.flash disk.new) }
        ensures grows { IsTrue D.told → Grows (D.flash disk.old) (D.flash disk.new) }
    {
        // The size of the flash fits a `u64`, and so does each place of the slot. The proof learns
        // it here.
        let _size = disk.size();
        let rest = self.slot.capacity - self.written;
        if rest < piece.len() as u64 {
            return Err(AppendFault::TooLarge(self.slot.capacity));
        }
        match disk.write_at(self.slot.start + LENGTH_SIZE + self.written, piece) {
            Edge::Failed => Err(AppendFault::FlashFault),
            Edge::Done => {
                self.written += piece.len() as u64;
                Ok(())
            }
        }
    }

    /// Syncs the pieces, then makes them the content by storing its length, and syncs that. Until
    /// the length is stored the slot is empty, even after a power loss; from then on it holds all
    /// the pieces. If it fails, the slot may hold any content.
    pub fn finish<D: Disk>(self, disk: &mut D) -> Result<(), FlashFault>
        requires slot { LiesWithin (D.extent disk.old) self.slot }
        requires within { self.written ≤ self.slot.capacity }
        ensures size { D.extent disk.new ≡ D.extent disk.old }
        ensures counts { ResultCounts result (D.faults disk.old) (D.faults disk.new) }
        ensures content { IsTrue D.told
            → OnOk result
            (slot_content self.slot (D.flash disk.new).reads
            ≡ pieces_of self.slot self.written (D.flash disk.old).reads) }
        ensures settled { IsTrue D.told → OnOk result (IsSettled (D.flash disk.new)) }
        ensures any_moment { IsTrue D.told → IsEmptyInEach self.slot (D.flash disk.old)
            → Passes (D.flash disk.old) (D.flash disk.new)
            (IsEmptyOrWhole self.slot self.written (D.flash disk.old).reads) }
        ensures keeps { IsTrue D.told
            → Keeps (Outside self.slot.start LENGTH_SIZE) (D.flash disk.old) (D.flash disk.new) }
        ensures grows { IsTrue D.told → Grows (D.flash disk.old) (D.flash disk.new) }
    {
        // The size of the flash fits a `u64`, and so does the length. The proof learns it here.
        let _size = disk.size();
        match disk.sync() {
            Edge::Failed => return Err(FlashFault),
            Edge::Done => {}
        }
        match write_and_sync(disk, self.slot.start, &self.written.to_be_bytes()) {
            Edge::Failed => Err(FlashFault),
            Edge::Done => Ok(()),
        }
    }
}
