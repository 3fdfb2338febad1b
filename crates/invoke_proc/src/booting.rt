//! Booting.

ghost use Rattle.flash_layout.specs.Configs.{ConfigOf, Configured, IsAllowed};
ghost use Rattle.invoke_proc.specs.Banks.{without_bank};
ghost use Rattle.invoke_proc.specs.Buffers.{boot_room};
ghost use Rattle.invoke_proc.specs.Booting.{Answers, GainsSafe, IfUnfaulted, KeepsBoot, KeptSo, NeverHost, PlayedSo, PlaysBoot};
ghost use Rattle.invoke_proc.specs.Counting.{BootCounts};
ghost use Rattle.invoke_proc.specs.Sound.{IsUnrefused};
ghost use Rattle.rollback_record.specs.SoundFlash.{Follows, Settled, Sound};
ghost use Rattle.std.specs.Prelude.{◌≡◌, ◌⊎◌, IsTrue};
ghost use Rattle.step_machine.specs.Devices.{device_at};
ghost use Rattle.step_machine.specs.PlanRuns.{counts_of};
ghost use Rattle.suit_edge.specs.Flash.{Grows, IsSame, IsSettled, Passes};

use crate::bank::{NoBank, find_bank};
use crate::law::boot_laws;
use crate::running::start;
use crate::{BootBuffer, BootEnd, key_bytes};
use admission::startable;
use flash_layout::{Frame, Key, Layout, config_laws};
use path_model::play_laws;
use rollback_record::{record_laws, sound_laws};
use step_machine::has_identifiers;
use suit_edge::{Disk, Host, Launcher};
use suit_manifest::{manifest_laws, procedure_laws};

// How a boot ends if no envelope was read.
fn without_bank(fault: NoBank) -> BootEnd
    ensures { result ≡ without_bank fault }
{
    match fault {
        NoBank::NothingInstalled => BootEnd::NothingInstalled,
        NoBank::FlashFault => BootEnd::FlashFault,
    }
}

// Boots from the flash, whether it is sound or not.
fn start_installed<H: Host, D: Disk, L: Launcher>(
    buffer: BootBuffer,
    host: &mut H,
    disk: &mut D,
    launcher: &mut L,
    layout: &Layout,
    frame: Frame,
    key: &Key,
) -> BootEnd
    requires room { buffer ≡ boot_room frame layout.now }
    requires allowed { IsAllowed frame (D.extent disk.old) layout.now key.now }
    requires held { IsTrue D.told
        → ConfigOf (D.extent disk.old) (D.flash disk.old).reads
        (Configured layout.now key.now frame) }
    ensures answers { IsTrue D.told
        → Answers frame layout.now key.now (D.flash disk.old).reads result }
    ensures size { D.extent disk.new ≡ D.extent disk.old }
    ensures settled { IsTrue D.told → IfUnfaulted result
        (IsSame (D.flash disk.old) (D.flash disk.new) ⊎ IsSettled (D.flash disk.new)) }
    ensures counts { BootCounts result
        (counts_of (H.faults host.old) (D.faults disk.old) (L.faults launcher.old))
        (counts_of (H.faults host.new) (D.faults disk.new) (L.faults launcher.new)) }
    ensures files { IsTrue H.told → H.file host.new ≡ H.file host.old }
    ensures plays { IsTrue D.told → IsTrue L.told
        → PlayedSo (PlaysBoot frame layout.now key.now (H.file host.old)
        (device_at (D.flash disk.old).reads (L.launches launcher.old))
        (device_at (D.flash disk.new).reads (L.launches launcher.new)))
        ((D.flash disk.new).reads ≡ (D.flash disk.old).reads)
        (L.launches launcher.old) (L.launches launcher.new) result }
    ensures unasked { host.new ≡ host.old }
    ensures grows { IsTrue D.told → Grows (D.flash disk.old) (D.flash disk.new) }
    ensures keeps { IsTrue D.told
        → KeptSo (KeepsBoot frame layout.now key.now (D.flash disk.old) (D.flash disk.new))
        (IsSame (D.flash disk.old) (D.flash disk.new)) result }
{
    manifest_laws();
    procedure_laws();
    let BootBuffer { mut bank, working } = buffer;
    let room = bank.as_mut_slice();
    let installed = match find_bank(disk, frame, layout, room) {
        Ok(installed) => installed,
        Err(fault) => return without_bank(fault),
    };
    let bytes = &room[..installed.length as usize];
    let startable = match startable(layout, key_bytes(key), bytes) {
        Ok(startable) => startable,
        Err(refusal) => return BootEnd::from(refusal),
    };
    start(host, disk, launcher, layout, &installed, startable, working)
}

/// Boots what is installed (draft-ietf-suit-manifest-25, section 6): runs the invocation procedure of the manifest in
/// the bank of the flash's record, on the active slots and with empty working memory.
///
/// First judges the envelope in the bank, its manifest, whether it is authentic under the key, and whether the layout
/// has the manifest's components. The layout, the frame and the key are those of the flash, and the buffer was made for
/// this layout and frame. No other memory is taken, so that it cannot run out. No file answers a URI, so the host is
/// never called.
pub fn boot<H: Host, D: Disk, L: Launcher>(
    buffer: BootBuffer,
    host: &mut H,
    disk: &mut D,
    launcher: &mut L,
    layout: &Layout,
    frame: Frame,
    key: &Key,
) -> BootEnd
    requires room { buffer ≡ boot_room frame layout.now }
    requires allowed { IsAllowed frame (D.extent disk.old) layout.now key.now }
    requires held { IsTrue D.told
        → ConfigOf (D.extent disk.old) (D.flash disk.old).reads
        (Configured layout.now key.now frame) }
    ensures size { D.extent disk.new ≡ D.extent disk.old }
    ensures counts { BootCounts result
        (counts_of (H.faults host.old) (D.faults disk.old) (L.faults launcher.old))
        (counts_of (H.faults host.new) (D.faults disk.new) (L.faults launcher.new)) }
    ensures files { IsTrue H.told → H.file host.new ≡ H.file host.old }
    ensures unasked { host.new ≡ host.old }
    ensures answers { IsTrue D.told
        → Answers frame layout.now key.now (D.flash disk.old).reads result }
    ensures unrefused { IsTrue D.told → Sound (D.flash disk.old).reads
        → IsUnrefused result }
    ensures plays { IsTrue D.told → IsTrue L.told
        → PlayedSo (PlaysBoot frame layout.now key.now (H.file host.old)
        (device_at (D.flash disk.old).reads (L.launches launcher.old))
        (device_at (D.flash disk.new).reads (L.launches launcher.new)))
        ((D.flash disk.new).reads ≡ (D.flash disk.old).reads)
        (L.launches launcher.old) (L.launches launcher.new) result }
    ensures host { IsTrue D.told → IsTrue L.told → NeverHost result }
    ensures safe { IsTrue D.told → IsTrue L.told
        → Sound (D.flash disk.old).reads
        → GainsSafe (L.launches launcher.old) (L.launches launcher.new) }
    ensures keeps { IsTrue D.told
        → KeptSo (KeepsBoot frame layout.now key.now (D.flash disk.old) (D.flash disk.new))
        (IsSame (D.flash disk.old) (D.flash disk.new)) result }
    ensures sound { IsTrue D.told → Settled (D.flash disk.old)
        → Passes (D.flash disk.old) (D.flash disk.new) Sound }
    ensures follows { IsTrue D.told → Settled (D.flash disk.old)
        → Passes (D.flash disk.old) (D.flash disk.new)
        (Follows (D.flash disk.old).reads) }
    ensures settled { IsTrue D.told → Settled (D.flash disk.old)
        → IfUnfaulted result (Settled (D.flash disk.new)) }
    ensures grows { IsTrue D.told → Grows (D.flash disk.old) (D.flash disk.new) }
{
    has_identifiers(layout);
    config_laws();
    record_laws();
    sound_laws();
    manifest_laws();
    play_laws();
    boot_laws();
    start_installed(buffer, host, disk, launcher, layout, frame, key)
}
