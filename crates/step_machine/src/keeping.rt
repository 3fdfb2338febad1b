//! Free steps of a running procedure: their outcomes are recalled from a trail, or kept there once the step is done. A
//! step is free if it reads or replaces a content, or launches it.

ghost use Rattle.std.specs.Prelude.{◌≡◌, ◌<◌, [], length};
ghost use Rattle.step_machine.specs.Allowing.{MayFetch, MaySwap, MayWrite};
ghost use Rattle.step_machine.specs.Keeping.{KeptSo, is_free_act, is_free_test, outcome_of};
ghost use Rattle.step_machine.specs.Parts.{kept_act_part, kept_test_part};
ghost use Rattle.step_machine.specs.Running.{IsReady, IsUnderWay, LeavesWork, state_of};
ghost use Rattle.step_machine.specs.Stages.{HasRoom, IfGoesOn, IsTrailed, RunsKept, Spends};
ghost use Rattle.suit_commands.specs.Targets.{IsWriting};
ghost use Rattle.suit_commands.specs.declared.kinds.ActKind.TheVariants as acts;

use crate::Stop;
use crate::acting::{act, test};
use crate::machine::{Machine, Work};
use crate::outside::{Moments, Stages};
use crate::params_in_force::{bytes, digest, number};
use crate::progress::Progress;
use flash_layout::Trail;
use path_model::Cause;
use suit_commands::{ActKind, TestKind};
use suit_cursor::SliceParams;
use suit_edge::{Disk, Edge, Host, Launcher};
use suit_params::ParamKey;

// Whether a condition is free, since it reads the content.
fn is_free_test(kind: TestKind, component: u32, params: &SliceParams<'_>) -> bool
    requires { component < 8 }
    ensures { result ≡ is_free_test kind component params.now }
{
    match kind {
        TestKind::ImageMatch => digest(params.get(component, ParamKey::Digest)).is_some(),
        TestKind::CheckContent => bytes(params.get(component, ParamKey::Content)).is_some(),
        _ => false,
    }
}

// Whether a directive is free, since it has the parameter that it needs.
fn is_free_act(kind: ActKind, component: u32, params: &SliceParams<'_>) -> bool
    requires { component < 8 }
    ensures { result ≡ is_free_act kind component params.now }
{
    match kind {
        ActKind::Write => bytes(params.get(component, ParamKey::Content)).is_some(),
        ActKind::Fetch => bytes(params.get(component, ParamKey::Uri)).is_some(),
        ActKind::Copy | ActKind::Swap => number(params.get(component, ParamKey::Source)).is_some(),
        ActKind::Invoke => true,
    }
}

// The outcome to keep for a free step that ended like this. None is kept for a directive that failed.
fn outcome_of(ended: &Result<(), Stop>) -> Option<bool>
    ensures { result ≡ outcome_of ended.now }
{
    match ended {
        Ok(()) => Some(true),
        Err(Stop::Condition { .. }) => Some(false),
        Err(Stop::Directive { .. }) => None,
    }
}

// Keeps the outcome of a free step.
fn kept<H: Host, D: Disk, L: Launcher, T: Trail>(
    machine: &Machine<'_>,
    work: &mut Work<'_, H, D, L>,
    trail: &mut T,
    place: u64,
    ended: Result<(), Stop>,
) -> Result<(), Stop>
    requires ready { IsReady machine.now (D.extent work.old.disk.now) work.old.ram.now }
    requires all_recalled { T.left trail.old ≡ [] }
    requires trailed { IfGoesOn ended
        (IsTrailed machine.now (⟦<D as Stages<H, L, T>>⟧.of_work work.old trail.old)) }
    requires room { HasRoom (⟦<D as Stages<H, L, T>>⟧.of_work work.old trail.old) 1 }
    ensures kept { KeptSo machine.now place ended
        (⟦<D as Stages<H, L, T>>⟧.of_work work.old trail.old) result
        (⟦<D as Stages<H, L, T>>⟧.of_work work.new trail.new) }
    ensures leaves { LeavesWork machine.now work.old work.new }
    ensures room { Spends 1 (⟦<D as Stages<H, L, T>>⟧.of_work work.old trail.old) result
        (⟦<D as Stages<H, L, T>>⟧.of_work work.new trail.new) }
{
    match outcome_of(&ended) {
        None => ended,
        Some(passed) => match trail.keep(work.disk, passed) {
            Edge::Done => ended,
            Edge::Failed => Err(Stop::Directive {
                place,
                cause: Cause::FlashFault,
            }),
        },
    }
}

/// Tests a condition, or recalls its outcome.
pub(crate) fn test_kept<H: Host, D: Disk, L: Launcher, T: Trail>(
    machine: &Machine<'_>,
    work: &mut Work<'_, H, D, L>,
    trail: &mut T,
    kind: TestKind,
    place: u64,
    component: u32,
    state: &Progress<'_>,
) -> Result<(), Stop>
    requires ready { IsReady machine.now (D.extent work.old.disk.now) work.old.ram.now }
    requires inside { component < length machine.now.standings.now }
    requires under_way { IsUnderWay machine.now (state_of state.now) }
    requires trailed { IsTrailed machine.now
        (⟦<D as Stages<H, L, T>>⟧.of_work work.old trail.old) }
    requires room { HasRoom (⟦<D as Stages<H, L, T>>⟧.of_work work.old trail.old) 1 }
    ensures runs { RunsKept machine.now (kept_test_part kind place component) (state_of state.now)
        (⟦<D as Stages<H, L, T>>⟧.of_work work.old trail.old)
        result (state_of state.now)
        (⟦<D as Stages<H, L, T>>⟧.of_work work.new trail.new) }
    ensures leaves { LeavesWork machine.now work.old work.new }
    ensures room { Spends 1 (⟦<D as Stages<H, L, T>>⟧.of_work work.old trail.old) result
        (⟦<D as Stages<H, L, T>>⟧.of_work work.new trail.new) }
{
    if !is_free_test(kind, component, &state.params) {
        return test(machine, work, kind, place, component, state);
    }
    match trail.recalled() {
        Some(true) => Ok(()),
        Some(false) => Err(Stop::Condition {
            place,
            soft_failure: state.soft_failure,
        }),
        None => {
            let ended = test(machine, work, kind, place, component, state);
            kept(machine, work, trail, place, ended)
        }
    }
}

/// Runs a directive, or recalls that it was done.
pub(crate) fn act_kept<H: Host, D: Disk, L: Launcher, T: Trail>(
    machine: &Machine<'_>,
    work: &mut Work<'_, H, D, L>,
    trail: &mut T,
    kind: ActKind,
    place: u64,
    component: u32,
    state: &Progress<'_>,
) -> Result<(), Stop>
    requires ready { IsReady machine.now (D.extent work.old.disk.now) work.old.ram.now }
    requires inside { component < length machine.now.standings.now }
    requires under_way { IsUnderWay machine.now (state_of state.now) }
    requires target { IsWriting kind → MayWrite machine.now component }
    requires swaps { kind ≡ acts.Swap → MaySwap machine.now }
    requires fetches { kind ≡ acts.Fetch → MayFetch machine.now }
    requires trailed { IsTrailed machine.now
        (⟦<D as Stages<H, L, T>>⟧.of_work work.old trail.old) }
    requires room { HasRoom (⟦<D as Stages<H, L, T>>⟧.of_work work.old trail.old) 1 }
    ensures runs { RunsKept machine.now (kept_act_part kind place component) (state_of state.now)
        (⟦<D as Stages<H, L, T>>⟧.of_work work.old trail.old)
        result (state_of state.now)
        (⟦<D as Stages<H, L, T>>⟧.of_work work.new trail.new) }
    ensures leaves { LeavesWork machine.now work.old work.new }
    ensures room { Spends 1 (⟦<D as Stages<H, L, T>>⟧.of_work work.old trail.old) result
        (⟦<D as Stages<H, L, T>>⟧.of_work work.new trail.new) }
{
    if !is_free_act(kind, component, &state.params) {
        return act(machine, work, kind, place, component, state);
    }
    match trail.recalled() {
        Some(_) => Ok(()),
        None => {
            let ended = act(machine, work, kind, place, component, state);
            kept(machine, work, trail, place, ended)
        }
    }
}
