//! Running the invocation procedure.

ghost use Rattle.flash_layout.specs.Layouts.{IsLayout};
ghost use Rattle.flash_layout.specs.Placement.{ArePlaces};
ghost use Rattle.flash_slots.specs.RamContents.{empty_ram};
ghost use Rattle.invoke_proc.specs.Booting.{IfUnfaulted, IsStartEnd, KeepsOthers, KeptSo, PlayedSo, PlaysOn, SettledSo, end_of};
ghost use Rattle.invoke_proc.specs.Counting.{BootCounts};
ghost use Rattle.manifest_view.specs.Views.{manifest_of};
ghost use Rattle.std.specs.Prelude.{◌≡◌, ◌≤◌, ◌⊎◌, [], IsTrue, false, length};
ghost use Rattle.step_machine.specs.Devices.{device_at};
ghost use Rattle.step_machine.specs.PlanRuns.{counts_of};
ghost use Rattle.step_machine.specs.Worlds.{AreDistinct};
ghost use Rattle.suit_commands.specs.Allowed.{IsPlan};
ghost use Rattle.suit_edge.specs.Flash.{Grows, IsSame, IsSettled};
ghost use Rattle.suit_manifest.specs.Procedures.{invocation_tree};

use crate::BootEnd;
use crate::buffer::Working;
use crate::components::world_in;
use crate::writing::may_write;
use admission::Start;
use flash_layout::{Layout, NoTrail, Record};
use manifest_programs::invocation_program;
use path_model::Cause;
use step_machine::{PlanEnd, Steps, run_plan};
use suit_edge::{Disk, Edge, Host, Launcher};

// How a boot ends if its procedure ended like this.
fn end_of(end: PlanEnd) -> BootEnd
    ensures { result ≡ end_of end }
{
    match end {
        PlanEnd::Done => BootEnd::Ended,
        PlanEnd::ConditionFailed { place } => BootEnd::Condition { place },
        PlanEnd::DirectiveFailed { place, cause } => BootEnd::Stopped { place, cause },
    }
}

// Syncs what a procedure wrote, unless it writes nothing or the flash failed in it.
fn settle<D: Disk>(disk: &mut D, writes: bool, end: PlanEnd) -> BootEnd
    ensures read { ⟦<D as Steps>⟧.only_reads (SettledSo end result) disk.old disk.new }
    ensures settled { IsTrue D.told
        → IfUnfaulted result ((writes ≡ false) ⊎ IsSettled (D.flash disk.new)) }
{
    if !writes {
        return end_of(end);
    }
    match end {
        PlanEnd::DirectiveFailed {
            cause: Cause::FlashFault,
            ..
        } => return end_of(end),
        _ => {}
    }
    match disk.sync() {
        Edge::Done => end_of(end),
        Edge::Failed => BootEnd::FlashFault,
    }
}

/// Runs the invocation procedure of a manifest that was judged, on its active slots and with empty working memory. It
/// has no payloads: not even those of the envelope in the bank are fetched. Does not allocate.
pub(crate) fn start<H: Host, D: Disk, L: Launcher>(
    host: &mut H,
    disk: &mut D,
    launcher: &mut L,
    layout: &Layout,
    installed: &Record,
    startable: Start<'_>,
    working: Working,
) -> BootEnd
    requires layout { IsLayout working.frame (D.extent disk.old) layout.now }
    requires placed { ArePlaces layout.now startable.manifest.components startable.places }
    requires distinct { AreDistinct layout.now startable.places }
    requires few { length startable.manifest.components ≤ 8 }
    requires plan { IsPlan (invocation_tree (manifest_of startable.manifest)) }
    requires ram { working.ram ≡ empty_ram layout.now }
    requires uris { working.uris ≡ [] }
    ensures size { D.extent disk.new ≡ D.extent disk.old }
    ensures starts { IsStartEnd result }
    ensures counts { BootCounts result
        (counts_of (H.faults host.old) (D.faults disk.old) (L.faults launcher.old))
        (counts_of (H.faults host.new) (D.faults disk.new) (L.faults launcher.new)) }
    ensures files { IsTrue H.told → H.file host.new ≡ H.file host.old }
    ensures unasked { host.new ≡ host.old }
    ensures plays { IsTrue D.told → IsTrue L.told
        → PlayedSo
        (PlaysOn layout.now (manifest_of startable.entry.manifest) installed.now.active
        (H.file host.old)
        (device_at (D.flash disk.old).reads (L.launches launcher.old))
        (device_at (D.flash disk.new).reads (L.launches launcher.new)))
        ((D.flash disk.new).reads ≡ (D.flash disk.old).reads)
        (L.launches launcher.old) (L.launches launcher.new) result }
    ensures keeps { IsTrue D.told → KeptSo
        (KeepsOthers layout.now (manifest_of startable.entry.manifest) installed.now.active (D.flash disk.old)
        (D.flash disk.new))
        (IsSame (D.flash disk.old) (D.flash disk.new)) result }
    ensures settled { IsTrue D.told → IfUnfaulted result
        (IsSame (D.flash disk.old) (D.flash disk.new) ⊎ IsSettled (D.flash disk.new)) }
    ensures grows { IsTrue D.told → Grows (D.flash disk.old) (D.flash disk.new) }
{
    let Working { frame, ram, uris } = working;
    let mut world = world_in(layout, frame, installed, ram, &uris, &startable);
    let mut program = invocation_program(startable.manifest);
    let writes = may_write(program.copy());
    let end = run_plan(host, disk, launcher, &mut world, program, &mut NoTrail);
    settle(disk, writes, end)
}
