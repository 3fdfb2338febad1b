//! Writes the record.

ghost use Rattle.flash_layout.specs.Frames.{IsFrame, config_page_of, head_of};
ghost use Rattle.flash_layout.specs.ToldFrames.{IsTold};
ghost use Rattle.rollback_record.specs.Committing.{HasHeldOrNew, HasSpare, InHead, IsNext, KeepsBesideSpare};
ghost use Rattle.rollback_record.specs.HeadRecord.{RecordOf, ResultCounts};
ghost use Rattle.rollback_record.specs.RecordPage.{IsInRange};
ghost use Rattle.rollback_record.specs.SoundFlash.{Follows, IsNoEarlier, Sound};
ghost use Rattle.rollback_record.specs.SoundLaws.{IsInstalledFor};
ghost use Rattle.std.specs.Prelude.{◌≡◌, ◌<◌, IfSome, IsTrue, OnErr, OnOk, Some, option_map};
ghost use Rattle.suit_edge.specs.Flash.{Grows, IsFirmOn, IsSettled, Passes};
ghost use Rattle.suit_edge.specs.declared.edge.Edge.TheVariants as edge;

use crate::Spare;
use crate::page::spell;
use crate::typing::typed;
use flash_layout::{FlashFault, Frame, Record, record_page};
use suit_edge::{Disk, Edge, write_known};

// A call of the flash that failed is a fault of the flash.
fn result_of(answer: Edge) -> Result<(), FlashFault>
    ensures ok { OnOk result (answer ≡ edge.Done) }
    ensures err { OnErr result (answer ≡ edge.Failed) }
{
    match answer {
        Edge::Failed => Err(FlashFault),
        Edge::Done => Ok(()),
    }
}

/// Writes a new record to the spare record page of a flash with this frame. The page has to be as it was read, and a
/// power loss now must leave the head as it reads.
///
/// After an error, and after a power loss at any moment, the flash has the old record or the new one, and all else is
/// as it was.
pub fn commit<D: Disk>(
    disk: &mut D,
    frame: Frame,
    held: Option<&Record>,
    spare: Spare,
    new: &Record,
) -> Result<(), FlashFault>
    requires frame { IsFrame (D.extent disk.old) frame }
    requires told { IsTrue D.told → IsTold (D.extent disk.old) (D.flash disk.old).reads frame }
    requires two { spare.which < 2 }
    requires held { IsTrue D.told
        → RecordOf frame (head_of frame (D.flash disk.old).reads)
        (option_map (λ r. r.now) held) }
    requires spare { IsTrue D.told
        → HasSpare frame (head_of frame (D.flash disk.old).reads)
        (option_map (λ r. r.now) held) spare }
    requires next { IsNext (option_map (λ r. r.now) held) new.now }
    requires fields { IsTrue D.told
        → IsInRange frame
        (config_page_of frame (head_of frame (D.flash disk.old).reads)) new.now }
    requires firm { IsTrue D.told → IsFirmOn (InHead frame) (D.flash disk.old) }
    ensures size { D.extent disk.new ≡ D.extent disk.old }
    ensures counts { ResultCounts result (D.faults disk.old) (D.faults disk.new) }
    ensures ok { IsTrue D.told
        → OnOk result
        (RecordOf frame (head_of frame (D.flash disk.new).reads) (Some new.now)) }
    ensures settled { IsTrue D.told → OnOk result (IsSettled (D.flash disk.new)) }
    ensures reads { IsTrue D.told
        → HasHeldOrNew frame (option_map (λ r. r.now) held.entry) new.now
        (D.flash disk.new).reads }
    ensures any_moment { IsTrue D.told → Passes (D.flash disk.old) (D.flash disk.new)
        (HasHeldOrNew frame (option_map (λ r. r.now) held.entry) new.now) }
    ensures sound { IsTrue D.told → IsInstalledFor (D.flash disk.old).reads new.now
        → Sound (D.flash disk.old).reads
        → Passes (D.flash disk.old) (D.flash disk.new) Sound }
    ensures follows { IsTrue D.told
        → IfSome (option_map (λ r. r.now) held.entry) (λ r. IsNoEarlier r new.now)
        → Sound (D.flash disk.old).reads
        → Passes (D.flash disk.old) (D.flash disk.new)
        (Follows (D.flash disk.old).reads) }
    ensures keeps { IsTrue D.told
        → KeepsBesideSpare frame (option_map (λ r. r.now) held.entry) (D.flash disk.old)
        (D.flash disk.new) }
    ensures grows { IsTrue D.told → Grows (D.flash disk.old) (D.flash disk.new) }
{
    typed(new);
    let _size = disk.size();
    let gate = record_page(frame, spare.which);
    let page = spell(frame, new);
    let answer = write_known(disk, gate, spare.gate, gate + 1, page.behind_gate());
    result_of(answer)
}
