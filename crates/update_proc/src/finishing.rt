//! What comes after the procedure: the envelope is installed if the procedure is done, and otherwise all pending writes
//! are synced.

ghost use Rattle.flash_layout.specs.Frames.{IsFrame, head_of};
ghost use Rattle.flash_layout.specs.Roots.{frame_told};
ghost use Rattle.rollback_record.specs.Committing.{HasHeldOrNew, HasSpare, InHead};
ghost use Rattle.rollback_record.specs.HeadRecord.{RecordOf};
ghost use Rattle.rollback_record.specs.SoundFlash.{Follows, IsNoEarlier, Sound};
ghost use Rattle.std.specs.Prelude.{◌≡◌, ◌<◌, IfSome, IsTrue, Some, option_map};
ghost use Rattle.suit_edge.specs.Ranges.{SameOn};
ghost use Rattle.suit_edge.specs.Flash.{Grows, IsFirmOn, IsSettled, Now, Passes};
ghost use Rattle.update_proc.specs.Ends.{FinishedSo, IfInstalled, IfStopped, IfTold, IfUnfaulted, NowOr, SettledSo, StoppedSo};
ghost use Rattle.update_proc.specs.Installing.{BesideHead, HasActiveSlots, IsInstalling, MayBeInstalled, MayInstall};
ghost use Rattle.update_proc.specs.Records.{new_record};

use crate::{Offer, UpdateEnd, install};
use flash_layout::{FlashFault, Frame, Record};
use path_model::Cause;
use rollback_record::Spare;
use step_machine::{PlanEnd, Steps};
use suit_edge::{Disk, Edge};

// Syncs all pending writes, and then returns `end`.
fn settle<D: Disk>(disk: &mut D, end: UpdateEnd) -> UpdateEnd
    ensures read { ⟦<D as Steps>⟧.only_reads (SettledSo end result) disk.old disk.new }
    ensures settled { IsTrue D.told → IfUnfaulted result (IsSettled (D.flash disk.new)) }
{
    match disk.sync() {
        Edge::Done => end,
        Edge::Failed => UpdateEnd::FlashFault,
    }
}

// Syncs what was written before a directive failed, unless the flash failed in it.
fn stop<D: Disk>(disk: &mut D, place: u64, cause: Cause) -> UpdateEnd
    ensures settled { IsTrue D.told → IfUnfaulted result (IsSettled (D.flash disk.new)) }
    ensures read { ⟦<D as Steps>⟧.only_reads (StoppedSo place cause result) disk.old disk.new }
{
    match cause {
        Cause::FlashFault => UpdateEnd::Stopped { place, cause },
        _ => settle(disk, UpdateEnd::Stopped { place, cause }),
    }
}

/// Installs the envelope if the procedure is done. Otherwise syncs what it wrote, unless the flash failed in it.
pub(crate) fn finish<D: Disk>(
    disk: &mut D,
    frame: Frame,
    end: PlanEnd,
    held: Option<&Record>,
    spare: Spare,
    offer: &Offer,
    bytes: &[u8],
) -> UpdateEnd
    requires frame { IsFrame (D.extent disk.old) frame }
    requires told { IsTrue D.told → frame_told (D.flash disk.old).reads ≡ Some frame }
    requires ready { MayInstall frame (D.extent disk.old) (option_map (λ r. r.now) held)
        bytes.now }
    requires held { IsTrue D.told
        → RecordOf frame (head_of frame (D.flash disk.old).reads)
        (option_map (λ r. r.now) held) }
    requires two { spare.which < 2 }
    requires spare { IsTrue D.told
        → HasSpare frame (head_of frame (D.flash disk.old).reads)
        (option_map (λ r. r.now) held) spare }
    requires active { IsTrue D.told
        → HasActiveSlots frame (D.flash disk.old).reads offer.now.active }
    ensures behind { IsTrue D.told
        → SameOn (BesideHead frame) (D.flash disk.old).reads (D.flash disk.new).reads }
    ensures size { D.extent disk.new ≡ D.extent disk.old }
    ensures answer { FinishedSo end result (D.faults disk.old) (D.faults disk.new) }
    ensures recorded { IsTrue D.told
        → IfInstalled result
        (λ r. RecordOf frame (head_of frame (D.flash disk.new).reads) (Some r)) }
    ensures stays { IsTrue D.told
        → IfTold result ((D.flash disk.new).reads ≡ (D.flash disk.old).reads) }
    ensures new { IsTrue D.told → IfInstalled result
        (λ r. r ≡ new_record frame (option_map (λ r. r.now) held.entry) (D.flash disk.old).reads
        bytes.now offer.now.sequence offer.now.digest offer.now.active) }
    ensures still { IsTrue D.told
        → IfStopped end (Passes (D.flash disk.old) (D.flash disk.new) (Now (D.flash disk.old))) }
    ensures reads { IsTrue D.told
        → let held = option_map (λ r. r.now) held.entry in HasHeldOrNew frame held
        (new_record frame held (D.flash disk.old).reads bytes.now offer.now.sequence
        offer.now.digest offer.now.active) (D.flash disk.new).reads }
    ensures settled { IsTrue D.told → IfUnfaulted result (IsSettled (D.flash disk.new)) }
    ensures any_moment { IsTrue D.told → let held = option_map (λ r. r.now) held.entry in
        let start = D.flash disk.old in
        Passes start (D.flash disk.new) (NowOr
        (IsInstalling frame held
        (new_record frame held start.reads bytes.now offer.now.sequence offer.now.digest
        offer.now.active)
        bytes.now start) start) }
    ensures sound { IsTrue D.told → let held = option_map (λ r. r.now) held.entry in
        let start = D.flash disk.old in
        IsFirmOn (InHead frame) start → Sound start.reads
        → MayBeInstalled frame start.reads bytes.now
        (new_record frame held start.reads bytes.now offer.now.sequence offer.now.digest
        offer.now.active)
        → Passes start (D.flash disk.new) (NowOr Sound start) }
    ensures follows { IsTrue D.told → let held = option_map (λ r. r.now) held.entry in
        let start = D.flash disk.old in
        IsFirmOn (InHead frame) start → Sound start.reads
        → IfSome held (λ r. IsNoEarlier r (new_record frame held start.reads bytes.now
        offer.now.sequence offer.now.digest offer.now.active))
        → Passes start (D.flash disk.new) (NowOr (Follows start.reads) start) }
    ensures grows { IsTrue D.told → Grows (D.flash disk.old) (D.flash disk.new) }
{
    match end {
        PlanEnd::Done => {
            let mut room = [0u8; 4096];
            match install(disk, frame, held, spare, offer, bytes, &mut room) {
                Ok(record) => UpdateEnd::Installed(record),
                Err(FlashFault) => UpdateEnd::FlashFault,
            }
        }
        PlanEnd::ConditionFailed { place } => settle(disk, UpdateEnd::Condition { place }),
        PlanEnd::DirectiveFailed { place, cause } => stop(disk, place, cause),
    }
}
