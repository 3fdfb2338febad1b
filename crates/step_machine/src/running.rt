//! Sequences and commands of a running procedure.

ghost use Rattle.std.specs.Prelude.{◌≡◌, ◌*◌, ◌<◌, ◌∷◌, [], OnOk, length};
ghost use Rattle.step_machine.specs.Allowing.{AllowsBranches, AllowsCommand, AllowsSequence};
ghost use Rattle.step_machine.specs.Parts.{at_part, branches_part, command_part, each_part, passed_on, sequence_part};
ghost use Rattle.step_machine.specs.Running.{IsReady, IsUnderWay, LeavesWork, selected_list, state_of};
ghost use Rattle.step_machine.specs.Stages.{HasRoom, IsTrailed, RunsKept, Spends};
ghost use Rattle.path_model.specs.Plays.{running_inner};
ghost use Rattle.path_model.specs.RecalledPlays.{Recalling};
ghost use Rattle.suit_commands.specs.Numbers.{branches_work, command_work, work_of};
ghost use Rattle.suit_commands.specs.Selections.{selected_after};
ghost use Rattle.suit_commands.specs.Tree.{Override, TryEach};
ghost use Rattle.suit_cursor.specs.Lending.{command_of};

use crate::Stop;
use crate::command_again::command_again;
use crate::keeping::{act_kept, test_kept};
use crate::machine::{Machine, Work};
use crate::outside::Stages;
use crate::overriding::override_with;
use crate::progress::{Progress, Selected};
use flash_layout::Trail;
use suit_cursor::{LentBranch, LentBranches, LentCommand, LentSequence};
use suit_edge::{Disk, Host, Launcher};

// How the stop of an inner sequence stops the outer one. `None` if the inner one failed softly.
fn passed_on(stop: Stop, soft_failure: bool) -> Option<Stop>
    ensures { result ≡ passed_on stop soft_failure }
{
    match stop {
        Stop::Condition {
            place,
            soft_failure: false,
        } => Some(Stop::Condition {
            place,
            soft_failure,
        }),
        Stop::Condition { .. } => None,
        Stop::Directive { place, cause } => Some(Stop::Directive { place, cause }),
    }
}

/// Runs a sequence.
#[cycle(running)]
pub(crate) fn sequence<'p, H: Host, D: Disk, L: Launcher, T: Trail>(
    machine: &Machine<'_>,
    work: &mut Work<'_, H, D, L>,
    trail: &mut T,
    mut steps: LentSequence<'p>,
    state: &mut Progress<'p>,
) -> Result<(), Stop>
    requires ready { IsReady machine.now (D.extent work.old.disk.now) work.old.ram.now }
    requires allowed { AllowsSequence machine.now steps (selected_list state.old.selected) }
    requires under_way { IsUnderWay machine.now (state_of state.old) }
    requires trailed { IsTrailed machine.now
        (⟦<D as Stages<H, L, T>>⟧.of_work work.old trail.old) }
    requires room { HasRoom (⟦<D as Stages<H, L, T>>⟧.of_work work.old trail.old)
        (work_of steps machine.now.program.now.count
        (length (selected_list state.old.selected))) }
    ensures runs { RunsKept machine.now (sequence_part steps.entry machine.now.program.now.count)
        (state_of state.old)
        (⟦<D as Stages<H, L, T>>⟧.of_work work.old trail.old)
        result (state_of state.new)
        (⟦<D as Stages<H, L, T>>⟧.of_work work.new trail.new) }
    ensures leaves { LeavesWork machine.now work.old work.new }
    ensures room { Spends
        (work_of steps.entry machine.now.program.now.count
        (length (selected_list state.old.selected)))
        (⟦<D as Stages<H, L, T>>⟧.of_work work.old trail.old) result
        (⟦<D as Stages<H, L, T>>⟧.of_work work.new trail.new) }
{
    while let Some(step) = steps.next() {
        command(machine, work, trail, step.place, step.command, state)?;
    }
    Ok(())
}

// Runs a command.
#[cycle(running)]
fn command<'p, H: Host, D: Disk, L: Launcher, T: Trail>(
    machine: &Machine<'_>,
    work: &mut Work<'_, H, D, L>,
    trail: &mut T,
    place: u64,
    command: LentCommand<'p>,
    state: &mut Progress<'p>,
) -> Result<(), Stop>
    requires ready { IsReady machine.now (D.extent work.old.disk.now) work.old.ram.now }
    requires allowed { AllowsCommand machine.now (command_of command)
        (selected_list state.old.selected) }
    requires under_way { IsUnderWay machine.now (state_of state.old) }
    requires trailed { IsTrailed machine.now
        (⟦<D as Stages<H, L, T>>⟧.of_work work.old trail.old) }
    requires room { HasRoom (⟦<D as Stages<H, L, T>>⟧.of_work work.old trail.old)
        (command_work (command_of command) machine.now.program.now.count
        (length (selected_list state.old.selected))) }
    ensures runs { RunsKept machine.now
        (command_part (command_of command.entry) machine.now.program.now.count place)
        (state_of state.old)
        (⟦<D as Stages<H, L, T>>⟧.of_work work.old trail.old)
        result (state_of state.new)
        (⟦<D as Stages<H, L, T>>⟧.of_work work.new trail.new) }
    ensures leaves { LeavesWork machine.now work.old work.new }
    ensures room { Spends
        (command_work (command_of command.entry) machine.now.program.now.count
        (length (selected_list state.old.selected)))
        (⟦<D as Stages<H, L, T>>⟧.of_work work.old trail.old) result
        (⟦<D as Stages<H, L, T>>⟧.of_work work.new trail.new) }
    ensures selected { OnOk result (selected_list state.new.selected
        ≡ selected_after (command_of command.entry) machine.now.program.now.count
        (selected_list state.old.selected)) }
{
    match command {
        LentCommand::Index(selection) => {
            state.selected = Selected::by(selection, machine.program.count);
            Ok(())
        }
        other => each(machine, work, trail, place, other, state),
    }
}

// Runs a command at each selected component.
#[cycle(running)]
fn each<'p, H: Host, D: Disk, L: Launcher, T: Trail>(
    machine: &Machine<'_>,
    work: &mut Work<'_, H, D, L>,
    trail: &mut T,
    place: u64,
    mut command: LentCommand<'p>,
    state: &mut Progress<'p>,
) -> Result<(), Stop>
    requires ready { IsReady machine.now (D.extent work.old.disk.now) work.old.ram.now }
    requires allowed { AllowsCommand machine.now (command_of command)
        (selected_list state.old.selected) }
    requires under_way { IsUnderWay machine.now (state_of state.old) }
    requires trailed { IsTrailed machine.now
        (⟦<D as Stages<H, L, T>>⟧.of_work work.old trail.old) }
    requires room { HasRoom (⟦<D as Stages<H, L, T>>⟧.of_work work.old trail.old)
        (length (selected_list state.old.selected) * command_work (command_of command) machine.now.program.now.count
        1) }
    ensures runs { RunsKept machine.now
        (each_part (command_of command.entry) machine.now.program.now.count place
        (selected_list state.old.selected))
        (state_of state.old)
        (⟦<D as Stages<H, L, T>>⟧.of_work work.old trail.old)
        result (state_of state.new)
        (⟦<D as Stages<H, L, T>>⟧.of_work work.new trail.new) }
    ensures leaves { LeavesWork machine.now work.old work.new }
    ensures room { Spends
        (length (selected_list state.old.selected) * command_work (command_of command.entry) machine.now.program.now.count
        1)
        (⟦<D as Stages<H, L, T>>⟧.of_work work.old trail.old) result
        (⟦<D as Stages<H, L, T>>⟧.of_work work.new trail.new) }
    ensures selected { state.new.selected ≡ state.old.selected }
{
    let mut left = state.selected.copy();
    while let Some(component) = left.next() {
        let again = command_again(&mut command);
        at(machine, work, trail, place, again, component, state)?;
    }
    Ok(())
}

// Runs a command at one component.
#[cycle(running)]
fn at<'p, H: Host, D: Disk, L: Launcher, T: Trail>(
    machine: &Machine<'_>,
    work: &mut Work<'_, H, D, L>,
    trail: &mut T,
    place: u64,
    command: LentCommand<'p>,
    component: u32,
    state: &mut Progress<'p>,
) -> Result<(), Stop>
    requires ready { IsReady machine.now (D.extent work.old.disk.now) work.old.ram.now }
    requires inside { component < length machine.now.standings.now }
    requires allowed { AllowsCommand machine.now (command_of command) (component ∷ []) }
    requires under_way { IsUnderWay machine.now (state_of state.old) }
    requires trailed { IsTrailed machine.now
        (⟦<D as Stages<H, L, T>>⟧.of_work work.old trail.old) }
    requires room { HasRoom (⟦<D as Stages<H, L, T>>⟧.of_work work.old trail.old)
        (command_work (command_of command) machine.now.program.now.count 1) }
    ensures runs { RunsKept machine.now
        (at_part (command_of command.entry) machine.now.program.now.count place
        component)
        (state_of state.old)
        (⟦<D as Stages<H, L, T>>⟧.of_work work.old trail.old)
        result (state_of state.new)
        (⟦<D as Stages<H, L, T>>⟧.of_work work.new trail.new) }
    ensures leaves { LeavesWork machine.now work.old work.new }
    ensures room { Spends
        (command_work (command_of command.entry) machine.now.program.now.count
        1)
        (⟦<D as Stages<H, L, T>>⟧.of_work work.old trail.old) result
        (⟦<D as Stages<H, L, T>>⟧.of_work work.new trail.new) }
    ensures selected { state.new.selected ≡ state.old.selected }
{
    match command {
        LentCommand::Test { kind, .. } => test_kept(
            machine, work, trail, kind, place, component, state,
        ),
        LentCommand::Act { kind, .. } => act_kept(
            machine, work, trail, kind, place, component, state,
        ),
        LentCommand::Index(_) => Ok(()),
        LentCommand::Override(list) => {
            override_with(component, list, state);
            Ok(())
        }
        LentCommand::TryEach(branches) => {
            try_each(machine, work, trail, branches, place, component, state)
        }
        LentCommand::Run(inner) => run_inner(machine, work, trail, inner, component, state),
    }
}

// Runs an inner sequence.
#[cycle(running)]
fn run_inner<'p, H: Host, D: Disk, L: Launcher, T: Trail>(
    machine: &Machine<'_>,
    work: &mut Work<'_, H, D, L>,
    trail: &mut T,
    inner: LentSequence<'p>,
    component: u32,
    state: &mut Progress<'p>,
) -> Result<(), Stop>
    requires ready { IsReady machine.now (D.extent work.old.disk.now) work.old.ram.now }
    requires inside { component < length machine.now.standings.now }
    requires allowed { AllowsSequence machine.now inner (component ∷ []) }
    requires under_way { IsUnderWay machine.now (state_of state.old) }
    requires trailed { IsTrailed machine.now
        (⟦<D as Stages<H, L, T>>⟧.of_work work.old trail.old) }
    requires room { HasRoom (⟦<D as Stages<H, L, T>>⟧.of_work work.old trail.old)
        (work_of inner machine.now.program.now.count 1) }
    ensures runs { RunsKept machine.now
        (λ terms. running_inner Recalling
        (sequence_part inner.entry machine.now.program.now.count terms) component)
        (state_of state.old)
        (⟦<D as Stages<H, L, T>>⟧.of_work work.old trail.old)
        result (state_of state.new)
        (⟦<D as Stages<H, L, T>>⟧.of_work work.new trail.new) }
    ensures leaves { LeavesWork machine.now work.old work.new }
    ensures room { Spends
        (work_of inner.entry machine.now.program.now.count 1)
        (⟦<D as Stages<H, L, T>>⟧.of_work work.old trail.old) result
        (⟦<D as Stages<H, L, T>>⟧.of_work work.new trail.new) }
    ensures selected { state.new.selected ≡ state.old.selected }
{
    let mut outer = state.enter(component, false);
    match sequence(machine, work, trail, inner, state) {
        Ok(()) => {
            state.leave(&mut outer);
            Ok(())
        }
        Err(stop) => {
            *state = outer;
            match passed_on(stop, state.soft_failure) {
                None => Ok(()),
                Some(stop) => Err(stop),
            }
        }
    }
}

// Runs a try each: tries its sequences in order.
#[cycle(running)]
fn try_each<'p, H: Host, D: Disk, L: Launcher, T: Trail>(
    machine: &Machine<'_>,
    work: &mut Work<'_, H, D, L>,
    trail: &mut T,
    mut branches: LentBranches<'p>,
    place: u64,
    component: u32,
    state: &mut Progress<'p>,
) -> Result<(), Stop>
    requires ready { IsReady machine.now (D.extent work.old.disk.now) work.old.ram.now }
    requires inside { component < length machine.now.standings.now }
    requires allowed { AllowsBranches machine.now branches component }
    requires under_way { IsUnderWay machine.now (state_of state.old) }
    requires trailed { IsTrailed machine.now
        (⟦<D as Stages<H, L, T>>⟧.of_work work.old trail.old) }
    requires room { HasRoom (⟦<D as Stages<H, L, T>>⟧.of_work work.old trail.old)
        (branches_work branches machine.now.program.now.count) }
    ensures runs { RunsKept machine.now
        (branches_part branches.entry machine.now.program.now.count place component) (state_of state.old)
        (⟦<D as Stages<H, L, T>>⟧.of_work work.old trail.old)
        result (state_of state.new)
        (⟦<D as Stages<H, L, T>>⟧.of_work work.new trail.new) }
    ensures leaves { LeavesWork machine.now work.old work.new }
    ensures room { Spends
        (branches_work branches.entry machine.now.program.now.count)
        (⟦<D as Stages<H, L, T>>⟧.of_work work.old trail.old) result
        (⟦<D as Stages<H, L, T>>⟧.of_work work.new trail.new) }
    ensures selected { state.new.selected ≡ state.old.selected }
{
    while let Some(branch) = branches.next() {
        match branch {
            LentBranch::Null => return Ok(()),
            LentBranch::Inner(inner) => {
                let mut entry = state.enter(component, true);
                match sequence(machine, work, trail, inner, state) {
                    Ok(()) => {
                        state.leave(&mut entry);
                        return Ok(());
                    }
                    Err(stop) => {
                        *state = entry;
                        if let Some(stop) = passed_on(stop, state.soft_failure) {
                            return Err(stop);
                        }
                    }
                }
            }
        }
    }
    Err(Stop::Condition {
        place,
        soft_failure: state.soft_failure,
    })
}
