//! Procedures, run on a device.

ghost use Rattle.flash_layout.specs.Trails.{HoldsNow, LieWithin};
ghost use Rattle.flash_slots.specs.RamContents.{Held};
ghost use Rattle.path_model.specs.Behaviour.{State};
ghost use Rattle.path_model.specs.Path.{first_state};
ghost use Rattle.std.specs.Prelude.{◌≡◌, ◌+◌, ◌<◌, ◌≤◌, ◌∷◌, ◌++◌, [], ℕ, IfSome, IsTrue, List, Option, length, map};
ghost use Rattle.step_machine.specs.Allowing.{AllowsSequence, MayFetch};
ghost use Rattle.step_machine.specs.Devices.{contents_of};
ghost use Rattle.step_machine.specs.KeptRuns.{IfNoFault, OutsideWrites, PlaysKept, kept_at, terms_of};
ghost use Rattle.step_machine.specs.Parts.{plan_part, starting_part};
ghost use Rattle.step_machine.specs.PlanRuns.{EndCounts, GivesAs, PlaysPlan, counts_of, end_of, setting_of};
ghost use Rattle.step_machine.specs.Running.{AreSources, IsReady, LeavesWork, state_of};
ghost use Rattle.step_machine.specs.Stages.{HasRoom, IsTrailed, OutsideStandings, RunsKept, Spends};
ghost use Rattle.step_machine.specs.Fetching.{ArePayloads, AsksAmong, asked_at};
ghost use Rattle.step_machine.specs.UrisSet.{HasFetch};
ghost use Rattle.step_machine.specs.Worlds.{AreStandings, StandAtMost};
ghost use Rattle.suit_commands.specs.Allowed.{IsPlan};
ghost use Rattle.suit_commands.specs.Numbers.{work_number, work_of};
ghost use Rattle.step_machine.specs.Programs.{part_tree, program_tree};
ghost use Rattle.suit_edge.specs.Flash.{Grows, Keeps};
ghost use Rattle.suit_edge.specs.Ranges.{InSome};

use crate::machine::{Machine, Pieces, Work};
use crate::outside::Stages;
use crate::program::lent_again;
use crate::progress::{Progress, Selected};
use crate::running::sequence;
use crate::{PlanEnd, Program, Stop, World};
use flash_layout::Trail;
use flash_slots::Ram;
use suit_cursor::{LentSequence, SliceParams};
use suit_edge::{Disk, Host, Launcher};

// Runs a member or the shared sequence, if it is present. It begins with component 0 selected and soft failure false.
fn part<'p, H: Host, D: Disk, L: Launcher, T: Trail>(
    machine: &Machine<'_>,
    work: &mut Work<'_, H, D, L>,
    trail: &mut T,
    lent: Option<LentSequence<'p>>,
    state: &mut Progress<'p>,
) -> Result<(), Stop>
    requires ready { IsReady machine.now (D.extent work.old.disk.now) work.old.ram.now }
    requires some { 0 < length machine.now.standings.now }
    requires allowed { AllowsSequence machine.now (part_tree lent) (0 ∷ []) }
    requires sources { AreSources machine.now state.old.params }
    requires trailed { IsTrailed machine.now
        (⟦<D as Stages<H, L, T>>⟧.of_work work.old trail.old) }
    requires room { HasRoom (⟦<D as Stages<H, L, T>>⟧.of_work work.old trail.old)
        (work_of (part_tree lent) machine.now.program.now.count 1) }
    ensures runs { RunsKept machine.now
        (starting_part (part_tree lent.entry) machine.now.program.now.count) (state_of state.old)
        (⟦<D as Stages<H, L, T>>⟧.of_work work.old trail.old)
        result (state_of state.new)
        (⟦<D as Stages<H, L, T>>⟧.of_work work.new trail.new) }
    ensures leaves { LeavesWork machine.now work.old work.new }
    ensures room { Spends (work_of (part_tree lent.entry) machine.now.program.now.count 1)
        (⟦<D as Stages<H, L, T>>⟧.of_work work.old trail.old) result
        (⟦<D as Stages<H, L, T>>⟧.of_work work.new trail.new) }
{
    state.selected = Selected::One(0);
    state.soft_failure = false;
    match lent {
        Some(inner) => sequence(machine, work, trail, inner, state),
        None => Ok(()),
    }
}

// Runs the shared sequence before each of the three members.
fn procedure<'p, H: Host, D: Disk, L: Launcher, T: Trail>(
    machine: &Machine<'_>,
    work: &mut Work<'_, H, D, L>,
    trail: &mut T,
    program: Program<'p>,
    state: &mut Progress<'p>,
) -> Result<(), Stop>
    requires ready { IsReady machine.now (D.extent work.old.disk.now) work.old.ram.now }
    requires same { program ≡ machine.now.program.now }
    requires plan { IsPlan (program_tree machine.now.program.now) }
    requires sources { AreSources machine.now state.old.params }
    requires trailed { IsTrailed machine.now
        (⟦<D as Stages<H, L, T>>⟧.of_work work.old trail.old) }
    requires room { HasRoom (⟦<D as Stages<H, L, T>>⟧.of_work work.old trail.old)
        (work_number (program_tree machine.now.program.now)) }
    ensures runs { RunsKept machine.now (plan_part (program_tree machine.now.program.now))
        (state_of state.old)
        (⟦<D as Stages<H, L, T>>⟧.of_work work.old trail.old)
        result (state_of state.new)
        (⟦<D as Stages<H, L, T>>⟧.of_work work.new trail.new) }
    ensures leaves { LeavesWork machine.now work.old work.new }
{
    let Program {
        mut shared,
        first,
        second,
        third,
        ..
    } = program;
    part(machine, work, trail, lent_again(&mut shared), state)?;
    part(machine, work, trail, first, state)?;
    part(machine, work, trail, lent_again(&mut shared), state)?;
    part(machine, work, trail, second, state)?;
    part(machine, work, trail, shared, state)?;
    part(machine, work, trail, third, state)
}

// Runs the procedure from its first state.
fn started<H: Host, D: Disk, L: Launcher, T: Trail>(
    machine: &Machine<'_>,
    work: &mut Work<'_, H, D, L>,
    trail: &mut T,
    program: Program<'_>,
) -> Result<(), Stop>
    requires ready { IsReady machine.now (D.extent work.old.disk.now) work.old.ram.now }
    requires same { program ≡ machine.now.program.now }
    requires plan { IsPlan (program_tree machine.now.program.now) }
    requires trailed { IsTrailed machine.now
        (⟦<D as Stages<H, L, T>>⟧.of_work work.old trail.old) }
    requires room { HasRoom (⟦<D as Stages<H, L, T>>⟧.of_work work.old trail.old)
        (work_number (program_tree machine.now.program.now)) }
    ensures runs { (next : State)
        × RunsKept machine.now (plan_part (program_tree machine.now.program.now)) first_state
        (⟦<D as Stages<H, L, T>>⟧.of_work work.old trail.old)
        result next
        (⟦<D as Stages<H, L, T>>⟧.of_work work.new trail.new) }
    ensures leaves { LeavesWork machine.now work.old work.new }
{
    let params = SliceParams::new();
    let mut state = Progress {
        params,
        selected: Selected::One(0),
        soft_failure: false,
    };
    procedure(machine, work, trail, program, &mut state)
}

// Lends a running procedure the objects that it works with.
fn lent<'w, H: Host, D: Disk, L: Launcher>(
    host: &'w mut H,
    disk: &'w mut D,
    launcher: &'w mut L,
    ram: &'w mut Ram,
    pieces: &'w mut Pieces,
) -> Work<'w, H, D, L>
    ensures { result ≡ record {
      host = host.entry;
      disk = disk.entry;
      launcher = launcher.entry;
      ram = ram.entry;
      pieces = pieces.entry;
    } }
{
    Work {
        host,
        disk,
        launcher,
        ram,
        pieces,
    }
}

// Runs the procedure with these objects.
fn run_lent<H: Host, D: Disk, L: Launcher, T: Trail>(
    machine: &Machine<'_>,
    program: Program<'_>,
    host: &mut H,
    disk: &mut D,
    launcher: &mut L,
    ram: &mut Ram,
    trail: &mut T,
) -> Result<(), Stop>
    requires ready { IsReady machine.now (D.extent disk.old) ram.old }
    requires same { program ≡ machine.now.program.now }
    requires plan { IsPlan (program_tree machine.now.program.now) }
    requires trailed { IsTrailed machine.now
        (⟦<D as Stages<H, L, T>>⟧.at host.old disk.old launcher.old ram.old trail.old) }
    requires room { HasRoom
        (⟦<D as Stages<H, L, T>>⟧.at host.old disk.old launcher.old ram.old trail.old)
        (work_number (program_tree machine.now.program.now)) }
    ensures runs { (next : State)
        × RunsKept machine.now (plan_part (program_tree machine.now.program.now)) first_state
        (⟦<D as Stages<H, L, T>>⟧.at host.old disk.old launcher.old ram.old trail.old)
        result next
        (⟦<D as Stages<H, L, T>>⟧.at host.new disk.new launcher.new ram.new trail.new) }
    ensures unasked { machine.now.uris.now ≡ [] → host.new ≡ host.old }
    ensures unfetched { (MayFetch machine.now → ⊥) → host.new ≡ host.old }
{
    let mut pieces = Pieces {
        one: [0; 4096],
        other: [0; 4096],
    };
    let mut work = lent(host, disk, launcher, ram, &mut pieces);
    started(machine, &mut work, trail, program)
}

fn end_of(ended: Result<(), Stop>) -> PlanEnd
    ensures { result ≡ end_of ended }
{
    match ended {
        Ok(()) => PlanEnd::Done,
        Err(Stop::Condition { place, .. }) => PlanEnd::ConditionFailed { place },
        Err(Stop::Directive { place, cause }) => PlanEnd::DirectiveFailed { place, cause },
    }
}

/// Runs a procedure on a device (draft-ietf-suit-manifest-25, section 6.4).
///
/// It ends as its play on the contents does, with the same contents and launches. A fault of the outside ends it like a
/// play that the fault cuts short. The host is called only if the procedure has a fetch and some URI has the name of a
/// file. It is asked for the files of the play's fetches, in order, and for no others. A host that does not tell what
/// it holds gives some file or none for each request. Does not allocate.
///
/// The first free steps are recalled from the trail, as many as it has outcomes for. These touch no content and launch
/// nothing. The outcome of each further free step is kept in the trail after the step: for a condition whether it
/// passed, and for a directive that it was done. A trail that keeps nothing does not change the play.
pub fn run_plan<H: Host, D: Disk, L: Launcher, T: Trail>(
    host: &mut H,
    disk: &mut D,
    launcher: &mut L,
    world: &mut World<'_>,
    mut program: Program<'_>,
    trail: &mut T,
) -> PlanEnd
    requires standings { AreStandings (D.extent disk.old) world.old.ram world.old.standings.items }
    requires plan { IsPlan (program_tree program) }
    requires count { program.count ≡ length world.old.standings.items }
    // The trail has ranges of its own.
    requires clear { (i : ℕ) → InSome (T.ranges trail.old) i
        → OutsideStandings world.old.standings.items i }
    requires within { LieWithin (D.extent disk.old) (T.ranges trail.old) }
    requires holds { IsTrue D.told
        → HoldsNow (T.holds trail.old (T.list trail.old)) (D.flash disk.old) }
    requires room { IsTrue T.told → IfSome (T.room trail.old)
        (λ room. length (T.list trail.old) + work_number (program_tree program) ≤ room) }
    ensures standings { world.new.standings.items ≡ world.old.standings.items }
    ensures rooms { map (λ (held : Held). held.capacity) world.new.ram
        ≡ map (λ (held : Held). held.capacity) world.old.ram }
    ensures size { D.extent disk.new ≡ D.extent disk.old }
    ensures counts { EndCounts result
        (counts_of (H.faults host.old) (D.faults disk.old) (L.faults launcher.old))
        (counts_of (H.faults host.new) (D.faults disk.new) (L.faults launcher.new)) }
    ensures files { IsTrue H.told → H.file host.new ≡ H.file host.old }
    ensures unasked { world.old.uris.now ≡ [] → host.new ≡ host.old }
    ensures unfetched { (HasFetch (program_tree program.entry) → ⊥) → host.new ≡ host.old }
    ensures asked { IsTrue H.told → (room : ℕ) → StandAtMost world.old.standings.items room
        → AsksAmong (program_tree program.entry) world.old.uris.now room
        (asked_at (H.asked host.old) (H.pulled host.old))
        (asked_at (H.asked host.new) (H.pulled host.new)) }
    ensures recalls { IsTrue D.told → IsTrue L.told → (payloads : List (List ℕ × List ℕ))
        → ArePayloads world.old.envelope payloads
        → (given : ℕ → List ℕ → Option (List ℕ))
        × GivesAs H.told world.old.uris.now (H.file host.old) given
        × (plays : PlaysKept (program_tree program.entry)
        (terms_of T.silent
        (setting_of world.old.standings.items payloads world.old.uris.now given)) result
        (kept_at (contents_of world.old.standings.items world.old.ram (D.flash disk.old).reads)
        (T.left trail.old))
        (kept_at (contents_of world.old.standings.items world.new.ram (D.flash disk.new).reads)
        (T.left trail.new))
        (L.launches launcher.old) (L.launches launcher.new))
        × (IsTrue H.told → H.asked host.new ≡ H.asked host.old ++ plays.asks)
        × (IsTrue T.told → T.list trail.new ≡ T.list trail.old ++ plays.noted) }
    ensures plays { IsTrue T.silent → T.left trail.old ≡ []
        → IsTrue D.told → IsTrue L.told → (payloads : List (List ℕ × List ℕ))
        → ArePayloads world.old.envelope payloads
        → (given : ℕ → List ℕ → Option (List ℕ))
        × GivesAs H.told world.old.uris.now (H.file host.old) given
        × (plays : PlaysPlan (program_tree program.entry)
        (setting_of world.old.standings.items payloads world.old.uris.now given) result
        (contents_of world.old.standings.items world.old.ram (D.flash disk.old).reads)
        (contents_of world.old.standings.items world.new.ram (D.flash disk.new).reads)
        (L.launches launcher.old) (L.launches launcher.new))
        × (IsTrue H.told → H.asked host.new ≡ H.asked host.old ++ plays.asks) }
    ensures holds { IsTrue D.told → IfNoFault result
        (HoldsNow (T.holds trail.new (T.list trail.new)) (D.flash disk.new)) }
    ensures keeps { IsTrue D.told
        → Keeps (OutsideWrites (program_tree program.entry) world.old.standings.items
        (T.ranges trail.old))
        (D.flash disk.old) (D.flash disk.new) }
    ensures grows { IsTrue D.told → Grows (D.flash disk.old) (D.flash disk.new) }
{
    let again = program.copy();
    let standings = world.standings.as_slice();
    let machine = Machine {
        program: &again,
        standings,
        uris: world.uris,
        envelope: world.envelope,
    };
    let ended = run_lent(
        &machine,
        program,
        host,
        disk,
        launcher,
        &mut world.ram,
        trail,
    );
    end_of(ended)
}
