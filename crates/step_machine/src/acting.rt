//! Conditions and directives of a running procedure, at one component.

ghost use Rattle.std.specs.Prelude.{◌≡◌, ◌<◌, ◌⊎◌, Some, length};
ghost use Rattle.step_machine.specs.Allowing.{MayFetch, MaySwap, MayWrite};
ghost use Rattle.step_machine.specs.Parts.{act_part, test_part};
ghost use Rattle.step_machine.specs.Running.{IsReady, IsUnderWay, LeavesWork, RunsPart, state_of, stopped};
ghost use Rattle.suit_commands.specs.Targets.{IsWriting};
ghost use Rattle.suit_commands.specs.declared.kinds.ActKind.TheVariants as acts;

use crate::machine::{Machine, Work};
use crate::outside::Moments;
use crate::params_in_force::number;
use crate::progress::Progress;
use crate::{Sources, Stop, copy, fetch, invoke, passes, swap, write};
use flash_layout::FlashFault;
use path_model::Cause;
use suit_commands::{ActKind, TestKind};
use suit_edge::{Disk, Host, Launcher};
use suit_params::ParamKey;

/// Tests a condition.
pub(crate) fn test<H: Host, D: Disk, L: Launcher>(
    machine: &Machine<'_>,
    work: &mut Work<'_, H, D, L>,
    kind: TestKind,
    place: u64,
    component: u32,
    state: &Progress<'_>,
) -> Result<(), Stop>
    requires ready { IsReady machine.now (D.extent work.old.disk.now) work.old.ram.now }
    requires inside { component < length machine.now.standings.now }
    requires under_way { IsUnderWay machine.now (state_of state.now) }
    ensures runs { RunsPart machine.now (test_part kind place component) (state_of state.now)
        (⟦<D as Moments<H, L>>⟧.of_work work.old)
        result (state_of state.now)
        (⟦<D as Moments<H, L>>⟧.of_work work.new) }
    ensures leaves { LeavesWork machine.now work.old work.new }
{
    let standing = &machine.standings[component as usize];
    let pieces = &mut *work.pieces;
    match passes(
        work.disk,
        work.ram,
        standing,
        &state.params,
        kind,
        &mut pieces.one[..],
    ) {
        Ok(true) => Ok(()),
        Ok(false) => Err(Stop::Condition {
            place,
            soft_failure: state.soft_failure,
        }),
        Err(FlashFault) => Err(Stop::Directive {
            place,
            cause: Cause::FlashFault,
        }),
    }
}

// Turns the result of a directive into that of its sequence, which a failed directive stops.
fn stopped(place: u64, came: Result<(), Cause>) -> Result<(), Stop>
    ensures { result ≡ stopped place came }
{
    match came {
        Ok(()) => Ok(()),
        Err(cause) => Err(Stop::Directive { place, cause }),
    }
}

// Runs a copy or a swap, with the source that is in force.
fn act_from_source<H: Host, D: Disk, L: Launcher>(
    machine: &Machine<'_>,
    work: &mut Work<'_, H, D, L>,
    kind: ActKind,
    place: u64,
    component: u32,
    state: &Progress<'_>,
) -> Result<(), Stop>
    requires ready { IsReady machine.now (D.extent work.old.disk.now) work.old.ram.now }
    requires inside { component < length machine.now.standings.now }
    requires under_way { IsUnderWay machine.now (state_of state.now) }
    requires from { (kind ≡ acts.Copy) ⊎ (kind ≡ acts.Swap) }
    requires target { MayWrite machine.now component }
    requires swaps { kind ≡ acts.Swap → MaySwap machine.now }
    ensures runs { RunsPart machine.now (act_part kind place component) (state_of state.now)
        (⟦<D as Moments<H, L>>⟧.of_work work.old)
        result (state_of state.now)
        (⟦<D as Moments<H, L>>⟧.of_work work.new) }
    ensures leaves { LeavesWork machine.now work.old work.new }
{
    let standing = &machine.standings[component as usize];
    match number(state.params.get(component, ParamKey::Source)) {
        None => Err(Stop::Directive {
            place,
            cause: Cause::Missing,
        }),
        Some(source) => {
            let other = &machine.standings[source as usize];
            let pieces = &mut *work.pieces;
            match kind {
                ActKind::Swap => {
                    let swapped = swap(
                        work.disk,
                        work.ram,
                        standing,
                        other,
                        &mut pieces.one[..],
                        &mut pieces.other[..],
                    );
                    stopped(place, swapped)
                }
                _ => {
                    let room = &mut pieces.one[..];
                    stopped(place, copy(work.disk, work.ram, standing, other, room))
                }
            }
        }
    }
}

/// Runs a directive.
pub(crate) fn act<H: Host, D: Disk, L: Launcher>(
    machine: &Machine<'_>,
    work: &mut Work<'_, H, D, L>,
    kind: ActKind,
    place: u64,
    component: u32,
    state: &Progress<'_>,
) -> Result<(), Stop>
    requires ready { IsReady machine.now (D.extent work.old.disk.now) work.old.ram.now }
    requires inside { component < length machine.now.standings.now }
    requires under_way { IsUnderWay machine.now (state_of state.now) }
    requires target { IsWriting kind → MayWrite machine.now component }
    requires swaps { kind ≡ acts.Swap → MaySwap machine.now }
    requires fetches { kind ≡ acts.Fetch → MayFetch machine.now }
    ensures runs { RunsPart machine.now (act_part kind place component) (state_of state.now)
        (⟦<D as Moments<H, L>>⟧.of_work work.old)
        result (state_of state.now)
        (⟦<D as Moments<H, L>>⟧.of_work work.new) }
    ensures leaves { LeavesWork machine.now work.old work.new }
{
    let standing = &machine.standings[component as usize];
    match kind {
        ActKind::Write => stopped(place, write(work.disk, work.ram, standing, &state.params)),
        ActKind::Fetch => {
            let pieces = &mut *work.pieces;
            let sources = Sources {
                envelope: machine.envelope,
                uris: machine.uris,
            };
            let fetched = fetch(
                work.host,
                work.disk,
                work.ram,
                &sources,
                standing,
                &state.params,
                &mut pieces.one[..],
            );
            stopped(place, fetched)
        }
        ActKind::Invoke => stopped(
            place,
            invoke(work.disk, work.launcher, work.ram, standing, &state.params),
        ),
        ActKind::Copy | ActKind::Swap => act_from_source(
            machine, work, kind, place, component, state,
        ),
    }
}
