//! The walk through a command tree, with all states at once.

ghost use Rattle.std.specs.Prelude.{◌≡◌, ◌<◌, [], ◌∷◌, OnOk, IfOk, IfErr};
ghost use Rattle.suit_commands.specs.View.{command_tree};
ghost use Rattle.path_checker.specs.Exploring.{Adds};
ghost use Rattle.path_checker.specs.Inner.{BranchAdds, outside_of};
ghost use Rattle.path_checker.specs.Small.{IsSmallSequence, IsSmallCommand, AreSmallBranches};
ghost use Rattle.path_checker.specs.Steps.{DoesStep, StepAt, StepAtEach, RunsAll, RunsInnerAt, TriesIn};
ghost use Rattle.path_checker.specs.Unconditional.{IsUnconditional};
ghost use Rattle.path_checker.specs.Halting.{Halts};

use crate::judge_plan::conditions::test;
use crate::judge_plan::failures::Failures;
use crate::judge_plan::halt::Halt;
use crate::judge_plan::in_place::steps_in_all;
use crate::judge_plan::inner::{
    Inside, Outer, enter, enter_all, exhaust, leave, leave_branch, none_inside, only, outer_of,
};
use crate::judge_plan::kept::Kept;
use crate::judge_plan::memory::Memory;
use crate::judge_plan::merged::{is_alone, merged_states};
use crate::judge_plan::reuse::reuse;
use crate::judge_plan::site::Site;
use crate::judge_plan::straight::in_place_from;
use suit_commands::{Branches, Command, Sequence, Step};

// Runs a sequence from each of the states.
#[cycle(walk)]
fn sequence<'a>(
    memory: Memory<'a>,
    count: u32,
    sequence: &'a Sequence,
    from: Vec<Kept<'a>>,
    failed: &mut Failures<'a>,
) -> Result<Vec<Kept<'a>>, Halt<'a>>
    requires small { IsSmallSequence count sequence.now }
    ensures ok { IfOk result
        (λ v. Adds (RunsAll sequence.now count) from.entry.items [] v.items failed.old failed.new) }
    ensures err { IfErr result (λ h. Halts (RunsAll sequence.now count) from.entry.items h) }
{
    let mut now = from;
    let mut stops = failed.none_like(memory.alloc);
    let mut left = 0;
    let steps = sequence.as_slice();
    let mut at = 0;
    while at < steps.len() {
        let in_place = in_place_from(steps, at, stops.keeps_none());
        if in_place.len() > 0 {
            now = steps_in_all(memory, count, in_place, now)?;
            at += in_place.len();
        } else {
            now = command(memory, count, &steps[at], now, &mut stops)?;
            stops = stops.settled(memory, &mut left)?;
            at += 1;
        }
    }
    failed.join(stops)?;
    Ok(now)
}

/// Runs a command that may run a condition, from each of the states.
#[cycle(walk)]
pub(crate) fn command<'a>(
    memory: Memory<'a>,
    count: u32,
    step: &'a Step,
    from: Vec<Kept<'a>>,
    failed: &mut Failures<'a>,
) -> Result<Vec<Kept<'a>>, Halt<'a>>
    requires small { IsSmallCommand count (command_tree step.now.command) }
    requires conditional { IsUnconditional (command_tree step.now.command) → ⊥ }
    ensures ok { IfOk result
        (λ v. Adds (DoesStep step.now count) from.entry.items [] v.items failed.old failed.new) }
    ensures err { IfErr result (λ h. Halts (DoesStep step.now count) from.entry.items h) }
{
    let alone = is_alone(&from);
    let round = memory.gather(from.len());
    let mut now = from;
    let mut next = Vec::new(memory.alloc);
    while let Some(k) = now.pop() {
        reuse(&mut now, &mut next);
        each(memory, count, step, k, &mut next, failed)?;
    }
    memory.keep(round);
    let merged = merged_states(memory, &step.command, alone, next)?;
    Ok(merged)
}

// Runs a command at each selected component.
#[cycle(walk)]
fn each<'a>(
    memory: Memory<'a>,
    count: u32,
    step: &'a Step,
    k: Kept<'a>,
    next: &mut Vec<Kept<'a>>,
    failed: &mut Failures<'a>,
) -> Result<(), Halt<'a>>
    requires small { IsSmallCommand count (command_tree step.now.command) }
    requires conditional { IsUnconditional (command_tree step.now.command) → ⊥ }
    ensures ok { OnOk result
        (Adds (StepAtEach step.now count k.entry.state.selection) (k.entry ∷ []) next.old.items
        next.new.items failed.old failed.new) }
    ensures err { IfErr result
        (λ h. Halts (StepAtEach step.now count k.entry.state.selection) (k.entry ∷ []) h) }
{
    if let Some(component) = k.selection.sole() {
        return one(memory, count, step, component, k, next, failed);
    }
    let selection = k.selection.copy();
    let mut now = only(memory.alloc, k)?;
    for index in 0..selection.len() {
        now = all_at(memory, count, step, selection.at(index), now, failed)?;
    }
    next.append(&mut now)?;
    Ok(())
}

// Runs a command at one component, from each of the states.
#[cycle(walk)]
fn all_at<'a>(
    memory: Memory<'a>,
    count: u32,
    step: &'a Step,
    component: u32,
    from: Vec<Kept<'a>>,
    failed: &mut Failures<'a>,
) -> Result<Vec<Kept<'a>>, Halt<'a>>
    requires room { component < 8 }
    requires small { IsSmallCommand count (command_tree step.now.command) }
    requires conditional { IsUnconditional (command_tree step.now.command) → ⊥ }
    ensures ok { IfOk result
        (λ v. Adds (StepAt step.now count component) from.entry.items [] v.items failed.old
        failed.new) }
    ensures err { IfErr result (λ h. Halts (StepAt step.now count component) from.entry.items h) }
{
    let mut now = from;
    let mut next = Vec::new(memory.alloc);
    while let Some(k) = now.pop() {
        one(memory, count, step, component, k, &mut next, failed)?;
    }
    Ok(next)
}

// Runs a command at one component.
#[cycle(walk)]
fn one<'a>(
    memory: Memory<'a>,
    count: u32,
    step: &'a Step,
    component: u32,
    k: Kept<'a>,
    next: &mut Vec<Kept<'a>>,
    failed: &mut Failures<'a>,
) -> Result<(), Halt<'a>>
    requires room { component < 8 }
    requires small { IsSmallCommand count (command_tree step.now.command) }
    requires conditional { IsUnconditional (command_tree step.now.command) → ⊥ }
    ensures ok { OnOk result
        (Adds (StepAt step.now count component) (k.entry ∷ []) next.old.items next.new.items
        failed.old failed.new) }
    ensures err { IfErr result (λ h. Halts (StepAt step.now count component) (k.entry ∷ []) h) }
{
    match &step.command {
        Command::Test { kind, .. } => {
            Ok(test(memory, step.place, *kind, component, k, next, failed)?)
        }
        Command::TryEach(branches) => {
            let site = Site {
                place: step.place,
                component,
            };
            try_each(memory, count, branches, site, k, next, failed)
        }
        Command::Run(inner) => run(memory, count, inner, component, k, next, failed),
        _ => unreachable!(),
    }
}

// Runs an inner sequence.
#[cycle(walk)]
fn run<'a>(
    memory: Memory<'a>,
    count: u32,
    inner: &'a Sequence,
    component: u32,
    k: Kept<'a>,
    next: &mut Vec<Kept<'a>>,
    failed: &mut Failures<'a>,
) -> Result<(), Halt<'a>>
    requires room { component < 8 }
    requires small { IsSmallSequence count inner.now }
    ensures ok { OnOk result
        (Adds (RunsInnerAt inner.now count component) (k.entry ∷ []) next.old.items next.new.items
        failed.old failed.new) }
    ensures err { IfErr result
        (λ h. Halts (RunsInnerAt inner.now count component) (k.entry ∷ []) h) }
{
    let outer = outer_of(&k)?;
    let from = only(memory.alloc, enter(component, false, k))?;
    let mut stops = none_inside(memory.alloc, true, failed, &outer);
    let done = sequence(memory, count, inner, from, &mut stops)?;
    Ok(leave(memory, &outer, done, stops, next, failed)?)
}

// Runs a try each: tries its branches in order.
#[cycle(walk)]
fn try_each<'a>(
    memory: Memory<'a>,
    count: u32,
    branches: &'a Branches,
    site: Site,
    k: Kept<'a>,
    next: &mut Vec<Kept<'a>>,
    failed: &mut Failures<'a>,
) -> Result<(), Halt<'a>>
    requires room { site.component < 8 }
    requires small { AreSmallBranches count branches.now }
    ensures ok { OnOk result
        (Adds (TriesIn branches.now count site.place site.component) (k.entry ∷ []) next.old.items
        next.new.items failed.old failed.new) }
    ensures err { IfErr result
        (λ h. Halts (TriesIn branches.now count site.place site.component) (k.entry ∷ []) h) }
{
    let outer = outer_of(&k)?;
    let around = Around { site, outer };
    try_around(memory, count, branches, &around, k, next, failed)
}

// Where a try each runs, and the state around it.
#[derive(Drop)]
struct Around<'a> {
    site: Site,
    outer: Outer<'a>,
}

// Tries the branches in order.
#[cycle(walk)]
fn try_around<'a>(
    memory: Memory<'a>,
    count: u32,
    branches: &'a Branches,
    around: &Around<'a>,
    k: Kept<'a>,
    next: &mut Vec<Kept<'a>>,
    failed: &mut Failures<'a>,
) -> Result<(), Halt<'a>>
    requires room { around.now.site.component < 8 }
    requires small { AreSmallBranches count branches.now }
    requires outer { around.now.outer ≡ k.state }
    ensures ok { OnOk result
        (Adds (TriesIn branches.now count around.now.site.place around.now.site.component)
        (k.entry ∷ []) next.old.items next.new.items failed.old failed.new) }
    ensures err { IfErr result
        (λ h. Halts (TriesIn branches.now count around.now.site.place around.now.site.component)
        (k.entry ∷ []) h) }
{
    let (place, outer) = (around.site.place, &around.outer);
    let mut now = only(memory.alloc, k)?;
    let all = branches.as_slice();
    let mut left = all.len();
    for branch in all {
        left -= 1;
        match branch {
            None => {
                next.append(&mut now)?;
                return Ok(());
            }
            Some(inner) => {
                let states = enter_all(memory.alloc, around.site.component, outer, now)?;
                let stops = none_inside(memory.alloc, left > 0, failed, outer);
                let inside = Inside { states, stops };
                now = one_branch(memory, count, inner, outer, inside, next, failed)?
            }
        }
    }
    Ok(exhaust(place, outer, now, failed)?)
}

/// Runs a branch. Returns the states in which the next branch is tried.
#[cycle(walk)]
pub(crate) fn one_branch<'a>(
    memory: Memory<'a>,
    count: u32,
    inner: &'a Sequence,
    outer: &Outer<'a>,
    inside: Inside<'a>,
    next: &mut Vec<Kept<'a>>,
    failed: &mut Failures<'a>,
) -> Result<Vec<Kept<'a>>, Halt<'a>>
    requires small { IsSmallSequence count inner.now }
    ensures ok { IfOk result
        (λ v. BranchAdds (RunsAll inner.now count) outer.now inside.entry.states.items v.items
        inside.entry.stops (outside_of next.old.items failed.old)
        (outside_of next.new.items failed.new)) }
    ensures err { IfErr result (λ h. Halts (RunsAll inner.now count) inside.entry.states.items h) }
{
    let mut stops = inside.stops;
    let done = sequence(memory, count, inner, inside.states, &mut stops)?;
    Ok(leave_branch(memory, outer, done, stops, next, failed)?)
}
