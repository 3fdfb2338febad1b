//! Writing an envelope to a bank, and recording it.

ghost use Rattle.flash_layout.specs.FaultCounts.{ResultCounts};
ghost use Rattle.flash_layout.specs.Frames.{IsFrame, bank_size, head_of};
ghost use Rattle.flash_layout.specs.Roots.{frame_told};
ghost use Rattle.rollback_record.specs.Committing.{HasHeldOrNew, HasSpare, InHead};
ghost use Rattle.rollback_record.specs.HeadRecord.{IsLoadable, RecordOf};
ghost use Rattle.rollback_record.specs.SoundFlash.{Follows, IsNoEarlier, Sound};
ghost use Rattle.std.specs.Prelude.{◌≡◌, ◌<◌, ◌≤◌, IfOk, IfSome, IsTrue, OnOk, Some, length, option_map};
ghost use Rattle.suit_edge.specs.Ranges.{SameOn};
ghost use Rattle.suit_edge.specs.Flash.{Grows, IsFirmOn, IsSettled, Passes};
ghost use Rattle.update_proc.specs.Installing.{BesideHead, HasActiveSlots, IsInstalling, IsNotWorn, MayBeInstalled};
ghost use Rattle.update_proc.specs.Records.{new_record, next_generation};

use crate::Offer;
use crate::bank::write_bank;
use flash_layout::{FlashFault, Frame, Record};
use rollback_record::{Spare, commit, sound_laws};
use suit_edge::Disk;

// The generation of the next record.
fn generation_after(held: Option<&Record>) -> u64
    requires { IfSome (option_map (λ r. r.now) held) IsNotWorn }
    ensures { result ≡ next_generation (option_map (λ r. r.now) held.entry) }
{
    match held {
        None => 1,
        Some(held) => held.generation + 1,
    }
}

/// Writes the envelope to the bank that the record does not name, unless the record's bank already holds it, and
/// records it on the spare page.
///
/// Until the new record is complete, the flash has the old one with its envelope at each moment, provided that a power
/// loss at the start would have left the head as it reads.
pub fn install<D: Disk>(
    disk: &mut D,
    frame: Frame,
    held: Option<&Record>,
    spare: Spare,
    offer: &Offer,
    bytes: &[u8],
    room: &mut [u8],
) -> Result<Record, FlashFault>
    requires frame { IsFrame (D.extent disk.old) frame }
    requires told { IsTrue D.told → frame_told (D.flash disk.old).reads ≡ Some frame }
    requires loadable { IfSome (option_map (λ r. r.now) held) (IsLoadable frame) }
    requires worn { IfSome (option_map (λ r. r.now) held) IsNotWorn }
    requires fits { length bytes.now ≤ bank_size frame }
    requires room { 0 < length room.old }
    requires held { IsTrue D.told
        → RecordOf frame (head_of frame (D.flash disk.old).reads)
        (option_map (λ r. r.now) held) }
    requires two { spare.which < 2 }
    requires spare { IsTrue D.told
        → HasSpare frame (head_of frame (D.flash disk.old).reads)
        (option_map (λ r. r.now) held) spare }
    requires active { IsTrue D.told
        → HasActiveSlots frame (D.flash disk.old).reads offer.now.active }
    ensures size { D.extent disk.new ≡ D.extent disk.old }
    ensures counts { ResultCounts result (D.faults disk.old) (D.faults disk.new) }
    ensures answer { IsTrue D.told → IfOk result
        (λ r. r ≡ new_record frame (option_map (λ r. r.now) held.entry) (D.flash disk.old).reads
        bytes.now offer.now.sequence offer.now.digest offer.now.active) }
    ensures recorded { IsTrue D.told
        → IfOk result
        (λ r. RecordOf frame (head_of frame (D.flash disk.new).reads) (Some r)) }
    ensures settled { IsTrue D.told → OnOk result (IsSettled (D.flash disk.new)) }
    ensures reads { IsTrue D.told
        → let held = option_map (λ r. r.now) held.entry in HasHeldOrNew frame held
        (new_record frame held (D.flash disk.old).reads bytes.now offer.now.sequence
        offer.now.digest offer.now.active) (D.flash disk.new).reads }
    ensures behind { IsTrue D.told
        → SameOn (BesideHead frame) (D.flash disk.old).reads (D.flash disk.new).reads }
    ensures any_moment { IsTrue D.told → let held = option_map (λ r. r.now) held.entry in
        let start = D.flash disk.old in
        Passes start (D.flash disk.new)
        (IsInstalling frame held
        (new_record frame held start.reads bytes.now offer.now.sequence offer.now.digest
        offer.now.active)
        bytes.now start) }
    ensures sound { IsTrue D.told → let held = option_map (λ r. r.now) held.entry in
        let start = D.flash disk.old in
        IsFirmOn (InHead frame) start → Sound start.reads
        → MayBeInstalled frame start.reads bytes.now
        (new_record frame held start.reads bytes.now offer.now.sequence offer.now.digest
        offer.now.active)
        → Passes start (D.flash disk.new) Sound }
    ensures follows { IsTrue D.told → let held = option_map (λ r. r.now) held.entry in
        let start = D.flash disk.old in
        IsFirmOn (InHead frame) start → Sound start.reads
        → IfSome held (λ r. IsNoEarlier r (new_record frame held start.reads bytes.now
        offer.now.sequence offer.now.digest offer.now.active))
        → Passes start (D.flash disk.new) (Follows start.reads) }
    ensures grows { IsTrue D.told → Grows (D.flash disk.old) (D.flash disk.new) }
{
    sound_laws();
    let bank = write_bank(disk, frame, held, bytes, room)?;
    let new = Record {
        generation: generation_after(held),
        sequence: offer.sequence,
        bank,
        length: bytes.len() as u64,
        digest: offer.digest,
        active: offer.active,
    };
    commit(disk, frame, held, spare, &new)?;
    Ok(new)
}
