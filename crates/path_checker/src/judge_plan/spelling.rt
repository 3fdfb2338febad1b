//! Follows one path of a procedure, of which it is known which conditions fail. If no path goes that way, this returns an
//! error as if memory had run out, which claims nothing.

ghost use Rattle.std.specs.Prelude.{◌≡◌, ◌<◌, [], ◌∷◌, IfOk, IfErr};
ghost use Rattle.suit_commands.specs.Plans.{lent_tree};
ghost use Rattle.suit_commands.specs.View.{command_tree};
ghost use Rattle.path_checker.specs.Halting.{Halts};
ghost use Rattle.path_checker.specs.Inner.{left};
ghost use Rattle.path_checker.specs.Rests.{RunsRest, IsSmallRest, of_parts};
ghost use Rattle.path_checker.specs.Small.{IsSmallSequence, IsSmallCommand, AreSmallBranches};
ghost use Rattle.path_checker.specs.Spelling.{Comes};
ghost use Rattle.path_checker.specs.Steps.{TestsAt, DoesStep, StepAt, RunsAll, RunsInnerAt, TriesIn};
ghost use Rattle.path_checker.specs.Unconditional.{IsUnconditional};

use crate::judge_plan::conditions::pass_test;
use crate::judge_plan::failing::fail;
use crate::judge_plan::halt::Halt;
use crate::judge_plan::in_place::command_in;
use crate::judge_plan::inner::{
    Outer, enter, enter_branch, exhaust_one, leave_in, outer_of, restart,
};
use crate::judge_plan::kept::Kept;
use crate::judge_plan::memory::Memory;
use crate::judge_plan::misses::Misses;
use crate::judge_plan::site::Site;
use crate::judge_plan::turn::{Turn, after_failure};
use crate::judge_plan::unconditional::is_unconditional;
use suit_commands::{Branches, Command, Sequence, Step, TestKind};

/// The way that a path takes through a procedure.
#[derive(Clone, Copy)]
pub(crate) struct Way<'a, 's> {
    pub memory: Memory<'a>,
    pub misses: &'s Misses<'s>,
}

// Runs a sequence.
#[cycle(spelling)]
fn sequence<'a>(
    way: Way<'a, '_>,
    count: u32,
    sequence: &'a Sequence,
    from: Kept<'a>,
) -> Result<Turn<'a>, Halt<'a>>
    requires small { IsSmallSequence count sequence.now }
    ensures ok { IfOk result (λ turn. Comes (RunsAll sequence.now count) (from.entry ∷ []) turn) }
    ensures err { IfErr result (λ h. Halts (RunsAll sequence.now count) (from.entry ∷ []) h) }
{
    let mut now = from;
    let steps = sequence.as_slice();
    for step in steps {
        match command(way, count, step, now)? {
            Turn::On(k) => now = k,
            Turn::Over(stop) => return Ok(Turn::Over(stop)),
        }
    }
    Ok(Turn::On(now))
}

// Runs a command.
#[cycle(spelling)]
fn command<'a>(
    way: Way<'a, '_>,
    count: u32,
    step: &'a Step,
    k: Kept<'a>,
) -> Result<Turn<'a>, Halt<'a>>
    requires small { IsSmallCommand count (command_tree step.now.command) }
    ensures ok { IfOk result (λ turn. Comes (DoesStep step.now count) (k.entry ∷ []) turn) }
    ensures err { IfErr result (λ h. Halts (DoesStep step.now count) (k.entry ∷ []) h) }
{
    if !is_unconditional(&step.command) {
        return each(way, count, step, k);
    }
    let mut k = k;
    let goes_on = command_in(way.memory, count, step, &mut k)?;
    if goes_on {
        return Ok(Turn::On(k));
    }
    // No path goes this way.
    Err(Halt::NoMemory)
}

// Runs a command at each selected component.
#[cycle(spelling)]
fn each<'a>(way: Way<'a, '_>, count: u32, step: &'a Step, k: Kept<'a>) -> Result<Turn<'a>, Halt<'a>>
    requires small { IsSmallCommand count (command_tree step.now.command) }
    requires conditional { IsUnconditional (command_tree step.now.command) → ⊥ }
    ensures ok { IfOk result (λ turn. Comes (DoesStep step.now count) (k.entry ∷ []) turn) }
    ensures err { IfErr result (λ h. Halts (DoesStep step.now count) (k.entry ∷ []) h) }
{
    let selection = k.selection.copy();
    let mut now = k;
    for index in 0..selection.len() {
        match one(way, count, step, selection.at(index), now)? {
            Turn::On(k) => now = k,
            Turn::Over(stop) => return Ok(Turn::Over(stop)),
        }
    }
    Ok(Turn::On(now))
}

// Runs a command at one component.
#[cycle(spelling)]
fn one<'a>(
    way: Way<'a, '_>,
    count: u32,
    step: &'a Step,
    component: u32,
    k: Kept<'a>,
) -> Result<Turn<'a>, Halt<'a>>
    requires room { component < 8 }
    requires small { IsSmallCommand count (command_tree step.now.command) }
    requires conditional { IsUnconditional (command_tree step.now.command) → ⊥ }
    ensures ok { IfOk result (λ turn. Comes (StepAt step.now count component) (k.entry ∷ []) turn) }
    ensures err { IfErr result (λ h. Halts (StepAt step.now count component) (k.entry ∷ []) h) }
{
    let site = Site {
        place: step.place,
        component,
    };
    match &step.command {
        Command::Test { kind, .. } => test(way, site, *kind, k),
        Command::TryEach(branches) => try_each(way, count, branches, site, k),
        Command::Run(inner) => run(way, count, inner, component, k),
        _ => unreachable!(),
    }
}

// A condition, which passes or fails as the path says.
fn test<'a>(way: Way<'a, '_>, site: Site, kind: TestKind, k: Kept<'a>) -> Result<Turn<'a>, Halt<'a>>
    requires room { site.component < 8 }
    ensures ok { IfOk result
        (λ turn. Comes (TestsAt kind site.place site.component) (k.entry ∷ []) turn) }
    ensures err { IfErr result
        (λ h. Halts (TestsAt kind site.place site.component) (k.entry ∷ []) h) }
{
    if way.misses.has(k.history.number()) {
        return Ok(Turn::Over(fail(way.memory, site, kind, k)?));
    }
    let mut k = k;
    let passes = pass_test(way.memory, site.place, kind, site.component, &mut k)?;
    if passes {
        return Ok(Turn::On(k));
    }
    // No path goes this way.
    Err(Halt::NoMemory)
}

// Runs an inner sequence.
#[cycle(spelling)]
fn run<'a>(
    way: Way<'a, '_>,
    count: u32,
    inner: &'a Sequence,
    component: u32,
    k: Kept<'a>,
) -> Result<Turn<'a>, Halt<'a>>
    requires room { component < 8 }
    requires small { IsSmallSequence count inner.now }
    ensures ok { IfOk result
        (λ turn. Comes (RunsInnerAt inner.now count component) (k.entry ∷ []) turn) }
    ensures err { IfErr result
        (λ h. Halts (RunsInnerAt inner.now count component) (k.entry ∷ []) h) }
{
    let outer = outer_of(&k)?;
    match sequence(way, count, inner, enter(component, false, k))? {
        Turn::On(done) => Ok(Turn::On(left(&outer, done))),
        Turn::Over(stop) => Ok(after_failure(way.memory, &outer, stop)?),
    }
}

// Leaves a completed inner sequence.
fn left<'a>(outer: &Outer<'a>, done: Kept<'a>) -> Kept<'a>
    ensures { result ≡ left outer.now done.entry }
{
    let mut done = done;
    leave_in(outer, &mut done);
    done
}

// Runs a try each.
#[cycle(spelling)]
fn try_each<'a>(
    way: Way<'a, '_>,
    count: u32,
    branches: &'a Branches,
    site: Site,
    k: Kept<'a>,
) -> Result<Turn<'a>, Halt<'a>>
    requires room { site.component < 8 }
    requires small { AreSmallBranches count branches.now }
    ensures ok { IfOk result
        (λ turn. Comes (TriesIn branches.now count site.place site.component) (k.entry ∷ []) turn) }
    ensures err { IfErr result
        (λ h. Halts (TriesIn branches.now count site.place site.component) (k.entry ∷ []) h) }
{
    let outer = outer_of(&k)?;
    try_around(way, count, branches, site, &outer, k)
}

// Tries the branches in order.
#[cycle(spelling)]
fn try_around<'a>(
    way: Way<'a, '_>,
    count: u32,
    branches: &'a Branches,
    site: Site,
    outer: &Outer<'a>,
    k: Kept<'a>,
) -> Result<Turn<'a>, Halt<'a>>
    requires room { site.component < 8 }
    requires small { AreSmallBranches count branches.now }
    requires outer { outer.now ≡ k.state }
    ensures ok { IfOk result
        (λ turn. Comes (TriesIn branches.now count site.place site.component) (k.entry ∷ []) turn) }
    ensures err { IfErr result
        (λ h. Halts (TriesIn branches.now count site.place site.component) (k.entry ∷ []) h) }
{
    let mut now = k;
    let all = branches.as_slice();
    for branch in all {
        let Some(inner) = branch else {
            return Ok(Turn::On(now));
        };
        let inside = enter_branch(site.component, outer, now)?;
        let stop = match sequence(way, count, inner, inside)? {
            Turn::On(done) => return Ok(Turn::On(left(outer, done))),
            Turn::Over(stop) => stop,
        };
        match after_failure(way.memory, outer, stop)? {
            Turn::On(k) => now = k,
            Turn::Over(stop) => return Ok(Turn::Over(stop)),
        }
    }
    Ok(Turn::Over(exhaust_one(site.place, outer, now)))
}

/// Runs parts of a procedure in order: the shared sequence and members. Returns an error at the first uncovered invoke.
pub(crate) fn spell<'a>(
    way: Way<'a, '_>,
    count: u32,
    parts: &[Option<&'a Sequence>],
    k: Kept<'a>,
) -> Result<(), Halt<'a>>
    requires small { IsSmallRest count (of_parts parts.now) }
    ensures { IfErr result (λ h. Halts (RunsRest (of_parts parts.now) count) (k.entry ∷ []) h) }
{
    let Some((lent, others)) = parts.split_first() else {
        return Ok(());
    };
    match part(way, count, *lent, restart(k))? {
        Turn::On(k) => spell(way, count, others, k),
        Turn::Over(_) => Ok(()),
    }
}

// Runs the shared sequence or a member, if there is one.
fn part<'a>(
    way: Way<'a, '_>,
    count: u32,
    lent: Option<&'a Sequence>,
    k: Kept<'a>,
) -> Result<Turn<'a>, Halt<'a>>
    requires small { IsSmallSequence count (lent_tree lent) }
    ensures ok { IfOk result
        (λ turn. Comes (RunsAll (lent_tree lent.entry) count) (k.entry ∷ []) turn) }
    ensures err { IfErr result
        (λ h. Halts (RunsAll (lent_tree lent.entry) count) (k.entry ∷ []) h) }
{
    match lent {
        Some(member) => sequence(way, count, member, k),
        None => Ok(Turn::On(k)),
    }
}
