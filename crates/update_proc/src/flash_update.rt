//! An update of a flash: reads the record, judges the envelope against it, runs the procedure, and installs the
//! envelope.

ghost use Rattle.suit_envelope.specs.Places.{PartsEndBelow};
ghost use Rattle.suit_envelope.specs.Said.{said_by};
ghost use Rattle.suit_manifest.specs.Manifests.{IsManifest};
ghost use Rattle.suit_manifest.specs.MembersApart.{HasMembers};
ghost use Rattle.suit_params.specs.Refusing.{SaysWhole};
ghost use Rattle.flash_layout.specs.declared.key.Key.{Key};
ghost use Rattle.flash_layout.specs.Configs.{ConfigOf, Configured};
ghost use Rattle.flash_layout.specs.Layouts.{IsLayout};
ghost use Rattle.flash_layout.specs.Frames.{IsFrame, bank_size};
ghost use Rattle.rollback_record.specs.SoundFlash.{Follows, Settled, Sound};
ghost use Rattle.std.specs.Prelude.{◌^◌, ◌≡◌, ◌≤◌, ◌⊎◌, ℕ, IsTrue, List, length};
ghost use Rattle.step_machine.specs.Devices.{device_at};
ghost use Rattle.step_machine.specs.Fetching.{AsksAmong, asked_at};
ghost use Rattle.step_machine.specs.PlanRuns.{counts_of};
ghost use Rattle.step_machine.specs.UrisSet.{HasFetch};
ghost use Rattle.step_machine.specs.Worlds.{AreDistinct, HaveAtMost};
ghost use Rattle.suit_commands.specs.Allowed.{IsPlan};
ghost use Rattle.suit_edge.specs.Flash.{Grows, IsSame, IsSettled, Passes};
ghost use Rattle.suit_envelope.specs.Payloads.{HasPayloads};
ghost use Rattle.suit_envelope.specs.WrapperParts.{HasWrapper};
ghost use Rattle.update_proc.specs.Choices.{AreChosen, active_slots};
ghost use Rattle.update_proc.specs.Ends.{IfUnfaulted, IsUnbegun, JudgedSo, UpdateCounts};
ghost use Rattle.update_proc.specs.Installing.{MayBeInstalled};
ghost use Rattle.update_proc.specs.Given.{ForUpdate, installed_by, new_by, placed_by, tree_of};
ghost use Rattle.update_proc.specs.Updates.{KeepsUpdate, KeptSo, LaunchesBy, LeavesUpdate, PlayedSo, PlaysToEnd, PlaysUpdate, hosted, sources};

use crate::accepting::installable;
use crate::starting::{Accepted, start};
use crate::{Update, UpdateEnd};
use flash_layout::{FlashFault, Frame, Layout};
use rollback_record::{load_pages_by, record_laws, sound_laws};
use std::alloc::Global;
use suit_edge::{Disk, Host, Launcher};
use suit_envelope::stated_digest;
use suit_manifest::update_plan;

/// Updates a flash with this layout and frame (draft-ietf-suit-manifest-25, section 6): judges the manifest against the
/// record that the flash has, runs its update procedure on the chosen slots, and if that is done writes the trimmed
/// envelope to a bank and records it.
///
/// All memory is taken before anything is launched or written. The host is asked only for files that URIs name, and for
/// none if the procedure does not begin.
pub fn update<H: Host, D: Disk, L: Launcher>(
    alloc: Global,
    host: &mut H,
    disk: &mut D,
    launcher: &mut L,
    layout: &Layout,
    frame: Frame,
    update: &Update<'_>,
) -> UpdateEnd
    requires frame { IsFrame (D.extent disk.old) frame }
    requires layout { IsLayout frame (D.extent disk.old) layout.now }
    requires distinct { AreDistinct layout.now update.now.places.now }
    requires count { length update.now.manifest.now.components ≡ update.now.places.now.count }
    requires plan { IsPlan (tree_of update.now) }
    requires manifest { SaysWhole IsManifest update.now.envelope.now.manifest_place
        update.now.envelope.now.manifest.now update.now.manifest.now }
    requires members { HasMembers (said_by update.now.envelope.now) update.now.manifest.now
        update.now.members.now }
    requires ends { PartsEndBelow (2 ^ 64) (said_by update.now.envelope.now) }
    requires wrapper { HasWrapper update.now.envelope.now.wrapper.now }
    requires fits { length (installed_by update.now) ≤ bank_size frame }
    requires config { IsTrue D.told
        → (key : Key) × ConfigOf (D.extent disk.old) (D.flash disk.old).reads
        (Configured layout.now key frame) }
    ensures size { D.extent disk.new ≡ D.extent disk.old }
    ensures judged { IsTrue D.told
        → ForUpdate frame (D.flash disk.old).reads update.now
        (λ held digest. JudgedSo update.now.manifest.now.sequence digest held result) }
    ensures counts { UpdateCounts result
        (counts_of (H.faults host.old) (D.faults disk.old) (L.faults launcher.old))
        (counts_of (H.faults host.new) (D.faults disk.new) (L.faults launcher.new)) }
    ensures files { IsTrue H.told → H.file host.new ≡ H.file host.old }
    ensures asked { IsTrue H.told → (room : ℕ) → HaveAtMost layout.now room
        → AsksAmong (tree_of update.now) update.now.uris.now room
        (asked_at (H.asked host.old) (H.pulled host.old))
        (asked_at (H.asked host.new) (H.pulled host.new)) }
    ensures unfetched { (HasFetch (tree_of update.now) → ⊥) → host.new ≡ host.old }
    ensures unbegun { IsUnbegun result → host.new ≡ host.old }
    ensures plays { IsTrue D.told → IsTrue L.told → let start = (D.flash disk.old).reads in
        ForUpdate frame start update.now (λ held digest.
        (payloads : List (List ℕ × List ℕ)) → HasPayloads update.now.envelope.now.whole.now payloads
        → PlayedSo (λ made end. PlaysUpdate (placed_by frame layout.now update.now) held
        (sources payloads update.now.uris.now
        (hosted H.told (H.file host.old) (H.asked host.old) (H.asked host.new)))
        (device_at start (L.launches launcher.old)) (device_at made (L.launches launcher.new)) end)
        ((D.flash disk.new).reads ≡ start) layout.now (D.flash disk.new).reads
        (L.launches launcher.old) (L.launches launcher.new) result) }
    ensures launches { IsTrue D.told → IsTrue L.told → let start = (D.flash disk.old).reads in
        (payloads : List (List ℕ × List ℕ)) → HasPayloads update.now.envelope.now.whole.now payloads
        → LaunchesBy frame (λ held made end. PlaysUpdate (placed_by frame layout.now update.now)
        held (sources payloads update.now.uris.now
        (hosted H.told (H.file host.old) (H.asked host.old) (H.asked host.new)))
        (device_at start (L.launches launcher.old)) (device_at made (L.launches launcher.new)) end)
        start (L.launches launcher.old) (L.launches launcher.new) }
    ensures keeps { IsTrue D.told → Settled (D.flash disk.old) → let start = D.flash disk.old in
        ForUpdate frame start.reads update.now (λ held digest.
        KeptSo (KeepsUpdate (placed_by frame layout.now update.now)
        (λ made. IsTrue H.told → IsTrue L.told
        → PlaysToEnd (placed_by frame layout.now update.now) held
        update.now.envelope.now.whole.now update.now.uris.now (H.file host.old)
        (device_at start.reads (L.launches launcher.old))
        (device_at made (L.launches launcher.new)))
        held (new_by frame held start.reads update.now digest)
        start (D.flash disk.new) result) (IsSame start (D.flash disk.new)) result) }
    ensures left { IsTrue D.told → let start = (D.flash disk.old).reads in
        ForUpdate frame start update.now (λ held digest.
        KeptSo (LeavesUpdate (placed_by frame layout.now update.now) held
        (new_by frame held start update.now digest) start (D.flash disk.new).reads result)
        ((D.flash disk.new).reads ≡ start) result) }
    ensures sound { IsTrue D.told → Settled (D.flash disk.old) → let start = D.flash disk.old in
        ForUpdate frame start.reads update.now (λ held digest.
        ((numbers : List ℕ)
        → AreChosen layout.now update.now.places.now (tree_of update.now) (active_slots held)
        numbers → MayBeInstalled frame start.reads (installed_by update.now)
        (new_by frame held start.reads update.now digest numbers))
        → Passes start (D.flash disk.new) Sound) }
    ensures follows { IsTrue D.told → Settled (D.flash disk.old)
        → Passes (D.flash disk.old) (D.flash disk.new)
        (Follows (D.flash disk.old).reads) }
    ensures settled { IsTrue D.told → IfUnfaulted result
        (IsSame (D.flash disk.old) (D.flash disk.new) ⊎ IsSettled (D.flash disk.new)) }
    ensures later { IsTrue D.told → (D.flash disk.old).clock ≤ (D.flash disk.new).clock }
    ensures grows { IsTrue D.told → Grows (D.flash disk.old) (D.flash disk.new) }
{
    record_laws();
    sound_laws();
    let pages = match load_pages_by(disk, frame, layout) {
        Ok(pages) => pages,
        Err(FlashFault) => return UpdateEnd::FlashFault,
    };
    let held = pages.held.as_ref();
    let envelope = update.envelope;
    let manifest = update.manifest;
    let digest = stated_digest(envelope);
    let bytes = match installable(alloc, envelope, manifest.sequence, held, &digest) {
        Ok(bytes) => bytes,
        Err(end) => return end,
    };
    let plan = update_plan(manifest, update.members);
    let whole = bytes.as_slice();
    let accepted = Accepted {
        frame,
        held,
        spare: pages.spare,
        bytes: whole,
        sequence: manifest.sequence,
        digest,
        plan: &plan,
        envelope,
        uris: update.uris,
    };
    let places = update.places;
    start(alloc, host, disk, launcher, layout, places, &accepted)
}
