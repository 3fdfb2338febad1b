//! Runs commands on a state in place: conditions whose failure need not be kept, and commands that run no condition. At
//! most one state follows.

ghost use Rattle.std.specs.Prelude.{◌<◌, [], ◌∷◌, IfOk, IfErr};
ghost use Rattle.suit_commands.specs.View.{command_tree, sequence_tree};
ghost use Rattle.path_checker.specs.Exploring.{Explores, Continues, kept_if};
ghost use Rattle.path_checker.specs.Halting.{Halts};
ghost use Rattle.path_checker.specs.Inner.{RunsInside, entered};
ghost use Rattle.path_checker.specs.Small.{IsSmallSequence, IsSmallCommand, AreSmallBranches, IsStraight, AreStraight};
ghost use Rattle.path_checker.specs.Steps.{DoesStep, StepAt, StepAtEach, RunsAll, TriesIn};
ghost use Rattle.path_checker.specs.Unconditional.{IsUnconditional, AreUnconditional, FirstIsUnconditional};

use crate::judge_plan::conditions::pass_test;
use crate::judge_plan::directives::{act_in, override_each_in, override_in, settle};
use crate::judge_plan::halt::Halt;
use crate::judge_plan::kept::Kept;
use crate::judge_plan::memory::Memory;
use crate::judge_plan::overriding::{overrides_from, overrides_in};
use crate::judge_plan::selected::Selected;
use suit_commands::{Branches, Command, Sequence, Step};

// Longer runs of overrides than this are recorded together.
const FEW: usize = 3;

// Runs commands in order. Returns whether the procedure goes on.
#[cycle(in_place)]
fn steps_in<'a>(
    memory: Memory<'a>,
    count: u32,
    steps: &'a [Step],
    k: &mut Kept<'a>,
) -> Result<bool, Halt<'a>>
    requires small { IsSmallSequence count (sequence_tree steps.now) }
    requires straight { AreStraight (sequence_tree steps.now) }
    ensures ok { IfOk result
        (λ goes_on. Continues (AreUnconditional (sequence_tree steps.now))
        (RunsAll (sequence_tree steps.now) count) (k.old ∷ []) (kept_if goes_on k.new)) }
    ensures err { IfErr result
        (λ h. Halts (RunsAll (sequence_tree steps.now) count) (k.old ∷ []) h) }
{
    let mut at = 0;
    while at < steps.len() {
        let overrides = overrides_from(steps, at);
        if overrides.len() > FEW {
            overrides_in(memory, overrides, k)?;
            at += overrides.len();
        } else {
            let goes_on = command_in(memory, count, &steps[at], k)?;
            if !goes_on {
                return Ok(false);
            }
            at += 1;
        }
    }
    Ok(true)
}

/// Runs a command. Returns whether the procedure goes on, and then leaves the state after the command.
#[cycle(in_place)]
pub(crate) fn command_in<'a>(
    memory: Memory<'a>,
    count: u32,
    step: &'a Step,
    k: &mut Kept<'a>,
) -> Result<bool, Halt<'a>>
    requires small { IsSmallCommand count (command_tree step.now.command) }
    requires straight { IsStraight (command_tree step.now.command) }
    ensures ok { IfOk result
        (λ goes_on. Continues (IsUnconditional (command_tree step.now.command))
        (DoesStep step.now count) (k.old ∷ []) (kept_if goes_on k.new)) }
    ensures err { IfErr result (λ h. Halts (DoesStep step.now count) (k.old ∷ []) h) }
{
    if let Command::Index(selection) = &step.command {
        k.selection = Selected::by(selection, count);
        return Ok(true);
    }
    each_in(memory, count, step, k)
}

// Runs a command at each selected component.
#[cycle(in_place)]
fn each_in<'a>(
    memory: Memory<'a>,
    count: u32,
    step: &'a Step,
    k: &mut Kept<'a>,
) -> Result<bool, Halt<'a>>
    requires small { IsSmallCommand count (command_tree step.now.command) }
    requires straight { IsStraight (command_tree step.now.command) }
    ensures ok { IfOk result
        (λ goes_on. Continues (IsUnconditional (command_tree step.now.command))
        (StepAtEach step.now count k.old.state.selection) (k.old ∷ []) (kept_if goes_on k.new)) }
    ensures err { IfErr result
        (λ h. Halts (StepAtEach step.now count k.old.state.selection) (k.old ∷ []) h) }
{
    if let Some(component) = k.selection.sole() {
        return one_in(memory, count, step, component, k);
    }
    if let Command::Override(list) = &step.command {
        override_each_in(memory, list, k)?;
        return Ok(true);
    }
    let selection = k.selection.copy();
    for index in 0..selection.len() {
        let goes_on = one_in(memory, count, step, selection.at(index), k)?;
        if !goes_on {
            return Ok(false);
        }
    }
    Ok(true)
}

// Runs a command at one component.
#[cycle(in_place)]
fn one_in<'a>(
    memory: Memory<'a>,
    count: u32,
    step: &'a Step,
    component: u32,
    k: &mut Kept<'a>,
) -> Result<bool, Halt<'a>>
    requires room { component < 8 }
    requires small { IsSmallCommand count (command_tree step.now.command) }
    requires straight { IsStraight (command_tree step.now.command) }
    ensures ok { IfOk result
        (λ goes_on. Continues (IsUnconditional (command_tree step.now.command))
        (StepAt step.now count component) (k.old ∷ []) (kept_if goes_on k.new)) }
    ensures err { IfErr result (λ h. Halts (StepAt step.now count component) (k.old ∷ []) h) }
{
    match &step.command {
        Command::Test { kind, .. } => Ok(pass_test(memory, step.place, *kind, component, k)?),
        Command::Act { kind, .. } => act_in(memory, step.place, *kind, component, k),
        Command::Override(list) => {
            override_in(memory, list, component, k)?;
            Ok(true)
        }
        Command::TryEach(branches) => try_in(memory, count, branches, step.place, component, k),
        Command::Run(inner) => inside(memory, count, inner, component, false, k),
        Command::Index(_) => Ok(true),
    }
}

// Runs an inner sequence, and then restores the selection and soft failure.
#[cycle(in_place)]
fn inside<'a>(
    memory: Memory<'a>,
    count: u32,
    inner: &'a Sequence,
    component: u32,
    soft: bool,
    k: &mut Kept<'a>,
) -> Result<bool, Halt<'a>>
    requires room { component < 8 }
    requires small { IsSmallSequence count inner.now }
    requires unconditional { AreUnconditional inner.now }
    ensures ok { IfOk result
        (λ goes_on. RunsInside (RunsAll inner.now count) component soft k.old goes_on k.new) }
    ensures err { IfErr result
        (λ h. Halts (RunsAll inner.now count) (entered k.old.state component soft k.old ∷ []) h) }
{
    let (selection, soft_failure) = (k.selection.copy(), k.soft_failure);
    k.selection = Selected::one(component);
    k.soft_failure = soft;
    let goes_on = steps_in(memory, count, inner.as_slice(), k)?;
    k.selection = selection;
    k.soft_failure = soft_failure;
    Ok(goes_on)
}

// Runs a try each: its first branch alone, since no other one runs after it.
#[cycle(in_place)]
fn try_in<'a>(
    memory: Memory<'a>,
    count: u32,
    branches: &'a Branches,
    place: u64,
    component: u32,
    k: &mut Kept<'a>,
) -> Result<bool, Halt<'a>>
    requires room { component < 8 }
    requires small { AreSmallBranches count branches.now }
    requires unconditional { FirstIsUnconditional branches.now }
    ensures ok { IfOk result
        (λ goes_on. Explores (TriesIn branches.now count place component) (k.old ∷ [])
        (kept_if goes_on k.new) []) }
    ensures err { IfErr result
        (λ h. Halts (TriesIn branches.now count place component) (k.old ∷ []) h) }
{
    let all = branches.as_slice();
    match &all[0] {
        Some(inner) => inside(memory, count, inner, component, true, k),
        None => Ok(true),
    }
}

/// Runs commands in order, from each of the states. While many states are kept, parameters that this changed are then
/// shared.
pub(crate) fn steps_in_all<'a>(
    memory: Memory<'a>,
    count: u32,
    steps: &'a [Step],
    from: Vec<Kept<'a>>,
) -> Result<Vec<Kept<'a>>, Halt<'a>>
    requires small { IsSmallSequence count (sequence_tree steps.now) }
    requires straight { AreStraight (sequence_tree steps.now) }
    ensures ok { IfOk result
        (λ v. Continues (AreUnconditional (sequence_tree steps.now))
        (RunsAll (sequence_tree steps.now) count) from.entry.items v.items) }
    ensures err { IfErr result
        (λ h. Halts (RunsAll (sequence_tree steps.now) count) from.entry.items h) }
{
    let round = memory.gather(from.len());
    let mut now = from;
    let mut kept = 0;
    for at in 0..now.len() {
        let k = &mut now[at];
        let goes_on = steps_in(memory, count, steps, k)?;
        settle(memory, k)?;
        if !goes_on {
            continue;
        }
        now.swap(kept, at);
        kept += 1;
    }
    now.truncate(kept);
    memory.keep(round);
    Ok(now)
}
