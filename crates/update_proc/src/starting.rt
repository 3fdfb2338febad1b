//! Running the update procedure, and installing its envelope.

ghost use Rattle.flash_layout.specs.Frames.{IsFrame, bank_size, head_of};
ghost use Rattle.flash_layout.specs.Layouts.{IsLayout};
ghost use Rattle.rollback_record.specs.Committing.{HasSpare};
ghost use Rattle.rollback_record.specs.HeadRecord.{IsLoadable, RecordOf};
ghost use Rattle.rollback_record.specs.Judging.{IsAcceptable};
ghost use Rattle.rollback_record.specs.SoundFlash.{Follows, Settled, Sound};
ghost use Rattle.std.specs.Prelude.{◌^◌, ◌≡◌, ◌<◌, ◌≤◌, ◌⊎◌, ℕ, IfSome, IsTrue, List, length};
ghost use Rattle.step_machine.specs.Devices.{device_at};
ghost use Rattle.step_machine.specs.Fetching.{AsksAmong, asked_at};
ghost use Rattle.step_machine.specs.PlanRuns.{counts_of};
ghost use Rattle.step_machine.specs.UrisSet.{HasFetch};
ghost use Rattle.step_machine.specs.Worlds.{AreDistinct, HaveAtMost};
ghost use Rattle.suit_commands.specs.Allowed.{IsPlan};
ghost use Rattle.suit_envelope.specs.Places.{PartsEndBelow};
ghost use Rattle.suit_envelope.specs.Said.{said_by};
ghost use Rattle.suit_manifest.specs.declared.manifest.Manifest.{Manifest};
ghost use Rattle.suit_manifest.specs.declared.manifest.Members.{Members};
ghost use Rattle.suit_manifest.specs.Manifests.{IsManifest};
ghost use Rattle.suit_manifest.specs.MembersApart.{HasMembers};
ghost use Rattle.suit_manifest.specs.Procedures.{update_tree};
ghost use Rattle.suit_params.specs.Refusing.{SaysWhole};
ghost use Rattle.suit_commands.specs.Plans.{plan_tree};
ghost use Rattle.suit_edge.specs.Flash.{Grows, IsSame, IsSettled, Passes};
ghost use Rattle.suit_envelope.specs.Payloads.{HasPayloads};
ghost use Rattle.update_proc.specs.Choices.{AreChosen, active_slots};
ghost use Rattle.update_proc.specs.Ends.{IfUnfaulted, IsRefusal, IsUnbegun, UpdateCounts};
ghost use Rattle.update_proc.specs.Given.{held_by, placed_as, record_by};
ghost use Rattle.update_proc.specs.Installing.{HasLayout, MayBeInstalled};
ghost use Rattle.update_proc.specs.Updates.{KeepsUpdate, KeptSo, LeavesUpdate, PlayedSo, PlaysToEnd, PlaysUpdate, hosted, sources};

use crate::finishing::finish;
use crate::in_use::choose_slots;
use crate::program::program_of;
use crate::{Offer, UpdateEnd, choice_laws, moment_laws};
use flash_layout::{Frame, Layout, NoTrail, Places, Record};
use rollback_record::{Spare, record_laws, sound_laws};
use std::alloc::{AllocError, Global};
use step_machine::{Uris, World, run_plan};
use suit_commands::Plan;
use suit_edge::{Disk, Host, Launcher};
use suit_envelope::Envelope;
use suit_params::Digest;

/// An accepted update of a flash with this frame: the bytes to be installed after the record, the spare page that the
/// new record is written to, the number and the digest of the manifest, its procedure, and where its payloads come
/// from.
#[derive(Clone, Copy)]
pub(crate) struct Accepted<'a> {
    pub frame: Frame,
    pub held: Option<&'a Record>,
    pub spare: Spare,
    pub bytes: &'a [u8],
    pub sequence: u64,
    pub digest: Digest,
    pub plan: &'a Plan<'a>,
    pub envelope: &'a Envelope<'a>,
    pub uris: &'a Uris,
}

/// Runs the procedure of an accepted update on the chosen slots, with empty working memory, and installs the envelope
/// if the procedure is done. All memory is taken before anything is launched or written.
pub(crate) fn start<H: Host, D: Disk, L: Launcher>(
    alloc: Global,
    host: &mut H,
    disk: &mut D,
    launcher: &mut L,
    layout: &Layout,
    places: &Places,
    accepted: &Accepted<'_>,
) -> UpdateEnd
    requires frame { IsFrame (D.extent disk.old) accepted.now.frame }
    requires layout { IsLayout accepted.now.frame (D.extent disk.old) layout.now }
    requires config { IsTrue D.told
        → HasLayout accepted.now.frame (D.extent disk.old) (D.flash disk.old).reads layout.now }
    requires distinct { AreDistinct layout.now places.now }
    requires plan { IsPlan (plan_tree accepted.now.plan.now) }
    requires ends { PartsEndBelow (2 ^ 64) (said_by accepted.now.envelope.now) }
    requires said { (manifest : Manifest) × (members : Members)
        × SaysWhole IsManifest accepted.now.envelope.now.manifest_place
        accepted.now.envelope.now.manifest.now manifest
        × HasMembers (said_by accepted.now.envelope.now) manifest members
        × (plan_tree accepted.now.plan.now ≡ update_tree manifest members) }
    requires count { accepted.now.plan.now.count ≡ places.now.count }
    requires loadable { IfSome (held_by accepted.now) (IsLoadable accepted.now.frame) }
    requires held { IsTrue D.told
        → RecordOf accepted.now.frame (head_of accepted.now.frame (D.flash disk.old).reads)
        (held_by accepted.now) }
    requires two { accepted.now.spare.which < 2 }
    requires spare { IsTrue D.told
        → HasSpare accepted.now.frame (head_of accepted.now.frame (D.flash disk.old).reads)
        (held_by accepted.now) accepted.now.spare }
    requires judged { IsAcceptable accepted.now.sequence accepted.now.digest
        (held_by accepted.now) }
    requires fits { length accepted.now.bytes.now ≤ bank_size accepted.now.frame }
    ensures size { D.extent disk.new ≡ D.extent disk.old }
    ensures later { IsTrue D.told → (D.flash disk.old).clock ≤ (D.flash disk.new).clock }
    ensures starts { IsRefusal result → ⊥ }
    ensures counts { UpdateCounts result
        (counts_of (H.faults host.old) (D.faults disk.old) (L.faults launcher.old))
        (counts_of (H.faults host.new) (D.faults disk.new) (L.faults launcher.new)) }
    ensures files { IsTrue H.told → H.file host.new ≡ H.file host.old }
    ensures asked { IsTrue H.told → (room : ℕ) → HaveAtMost layout.now room
        → AsksAmong (plan_tree accepted.now.plan.now) accepted.now.uris.now room
        (asked_at (H.asked host.old) (H.pulled host.old))
        (asked_at (H.asked host.new) (H.pulled host.new)) }
    ensures unfetched { (HasFetch (plan_tree accepted.now.plan.now) → ⊥) → host.new ≡ host.old }
    ensures unbegun { IsUnbegun result → host.new ≡ host.old }
    ensures settled { IsTrue D.told → IfUnfaulted result
        (IsSame (D.flash disk.old) (D.flash disk.new) ⊎ IsSettled (D.flash disk.new)) }
    ensures plays { IsTrue D.told → IsTrue L.told → let start = (D.flash disk.old).reads in
        (payloads : List (List ℕ × List ℕ))
        → HasPayloads accepted.now.envelope.now.whole.now payloads
        → PlayedSo (λ made end. PlaysUpdate (placed_as layout.now places.now accepted.now)
        (held_by accepted.now) (sources payloads accepted.now.uris.now
        (hosted H.told (H.file host.old) (H.asked host.old) (H.asked host.new)))
        (device_at start (L.launches launcher.old)) (device_at made (L.launches launcher.new)) end)
        ((D.flash disk.new).reads ≡ start) layout.now (D.flash disk.new).reads
        (L.launches launcher.old) (L.launches launcher.new) result }
    ensures keeps { IsTrue D.told → Settled (D.flash disk.old) → let start = D.flash disk.old in
        KeptSo (KeepsUpdate (placed_as layout.now places.now accepted.now)
        (λ made. IsTrue H.told → IsTrue L.told
        → PlaysToEnd (placed_as layout.now places.now accepted.now) (held_by accepted.now)
        accepted.now.envelope.now.whole.now accepted.now.uris.now (H.file host.old)
        (device_at start.reads (L.launches launcher.old))
        (device_at made (L.launches launcher.new)))
        (held_by accepted.now) (record_by accepted.now start.reads)
        start (D.flash disk.new) result) (IsSame start (D.flash disk.new)) result }
    ensures left { IsTrue D.told → let start = (D.flash disk.old).reads in
        KeptSo (LeavesUpdate (placed_as layout.now places.now accepted.now)
        (held_by accepted.now) (record_by accepted.now start) start (D.flash disk.new).reads result)
        ((D.flash disk.new).reads ≡ start) result }
    ensures grows { IsTrue D.told → Grows (D.flash disk.old) (D.flash disk.new) }
    ensures sound { IsTrue D.told → Settled (D.flash disk.old) → let start = D.flash disk.old in
        ((numbers : List ℕ) → AreChosen layout.now places.now (plan_tree accepted.now.plan.now)
        (active_slots (held_by accepted.now)) numbers
        → MayBeInstalled accepted.now.frame start.reads accepted.now.bytes.now
        (record_by accepted.now start.reads numbers))
        → Passes start (D.flash disk.new) Sound }
    ensures follows { IsTrue D.told → Settled (D.flash disk.old)
        → Passes (D.flash disk.old) (D.flash disk.new)
        (Follows (D.flash disk.old).reads) }
{
    record_laws();
    sound_laws();
    moment_laws();
    choice_laws();
    let held = accepted.held;
    let plan = accepted.plan;
    let slots = choose_slots(layout, places, plan, held);
    let payloads = Some(accepted.envelope);
    let frame = accepted.frame;
    let uris = accepted.uris;
    let mut world = match World::new(alloc, layout, frame, places, &slots, uris, payloads) {
        Ok(world) => world,
        Err(AllocError) => return UpdateEnd::NoMemory,
    };
    let offer = Offer {
        sequence: accepted.sequence,
        digest: accepted.digest,
        active: slots.number,
    };
    let program = program_of(accepted.envelope);
    let end = run_plan(host, disk, launcher, &mut world, program, &mut NoTrail);
    let spare = accepted.spare;
    let bytes = accepted.bytes;
    finish(disk, frame, end, held, spare, &offer, bytes)
}
