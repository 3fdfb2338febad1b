//! Runs the parts of a procedure: the commands outside any inner sequence, and those in the last branch of a try each
//! there. A condition that fails there ends the procedure, so no failures are kept.

ghost use Rattle.std.specs.Prelude.{◌≡◌, ◌<◌, ◌≤◌, List, [], ◌∷◌, None, length, get_or, drop, IfSome, OnOk, IfOk, IfErr};
ghost use Rattle.suit_commands.specs.Plans.{lent_tree};
ghost use Rattle.suit_commands.specs.View.{command_tree, sequence_tree};
ghost use Rattle.path_checker.specs.Exploring.{Passes};
ghost use Rattle.path_checker.specs.Going.{GoesOn, GoesLast};
ghost use Rattle.path_checker.specs.Invoking.{Covers};
ghost use Rattle.path_checker.specs.RestViews.{tried_branches};
ghost use Rattle.path_checker.specs.Rests.{Later, RunsRest, RunsThen, TriesAt, TriesThen, IsSmallRest, AreFew, OfTries, OfLeave, of_parts};
ghost use Rattle.path_checker.specs.Small.{AreSmallBranches, IsSmallSequence, IsSmallCommand, IsStraight};
ghost use Rattle.path_checker.specs.Halting.{Halts};
ghost use Rattle.path_checker.specs.Steps.{DoesStep};

use crate::judge_plan::failures::Failures;
use crate::judge_plan::halt::Halt;
use crate::judge_plan::in_place::command_in;
use crate::judge_plan::inner::{
    Inside, Outer, enter_all, leave_one, none_inside, only, outer_of, restart,
};
use crate::judge_plan::kept::Kept;
use crate::judge_plan::memory::Memory;
use crate::judge_plan::rest::{First, Rest};
use crate::judge_plan::selected::Selected;
use crate::judge_plan::straight::{is_straight, straight};
use crate::judge_plan::walk::{command, one_branch};
use crate::judge_plan::wide_try::{Tried, wide_try};
use std::alloc::AllocError;
use suit_commands::{Sequence, Step};

// More states than this go on one at a time. Equal ones are then merged only among those that follow the same state.
const MANY: usize = 8;

// Before this many straight commands in a row, several states go on one at a time.
const LONG: usize = 64;

// Whether `LONG` straight commands or more come first.
fn is_long(steps: &[Step]) -> bool {
    if steps.len() < LONG {
        return false;
    }
    for step in &steps[..LONG] {
        if !is_straight(&step.command) {
            return false;
        }
    }
    true
}

// Whether this many states go on one at a time from an index on. In the middle of straight commands this is not looked
// for again.
fn go_alone(steps: &[Step], at: usize, states: usize) -> bool
    requires within { at ≤ length steps.now }
{
    if states > MANY {
        return true;
    }
    if states < 2 || at > 1 && is_straight(&steps[at - 1].command) {
        return false;
    }
    is_long(&steps[at..])
}

// Runs a command from each of the states.
fn outermost<'a>(
    memory: Memory<'a>,
    count: u32,
    step: &'a Step,
    from: Vec<Kept<'a>>,
) -> Result<Vec<Kept<'a>>, Halt<'a>>
    requires small { IsSmallCommand count (command_tree step.now.command) }
    ensures ok { IfOk result (λ v. Passes (DoesStep step.now count) from.entry.items v.items) }
    ensures err { IfErr result (λ h. Halts (DoesStep step.now count) from.entry.items h) }
{
    if is_straight(&step.command) {
        return straight(memory, count, step, from);
    }
    let mut ended = Failures::none(memory.alloc, false, false);
    command(memory, count, step, from, &mut ended)
}

// The commands of a sequence, or none if it is absent.
fn steps_of<'a>(lent: Option<&'a Sequence>) -> &'a [Step]
    ensures { sequence_tree result.now ≡ lent_tree lent.entry }
{
    match lent {
        Some(sequence) => sequence.as_slice(),
        None => &[],
    }
}

// Chains parts of a procedure, to be run in order.
fn chain<'a>(memory: Memory<'a>, parts: &[Option<&'a Sequence>]) -> Result<&'a Rest<'a>, AllocError>
    ensures { IfOk result (λ rest. rest.now ≡ of_parts parts.now) }
{
    let Some((lent, others)) = parts.split_first() else {
        return Rest::of(memory, First::End);
    };
    let behind = chain(memory, others)?;
    Rest::of(memory, First::Part(steps_of(*lent), behind))
}

/// Runs parts of a procedure in order, from each of the states. The parts are the shared sequence and members.
pub(crate) fn parts<'a>(
    memory: Memory<'a>,
    count: u32,
    parts: &[Option<&'a Sequence>],
    from: Vec<Kept<'a>>,
) -> Result<(), Halt<'a>>
    requires small { IsSmallRest count (of_parts parts.now) }
    ensures ok { OnOk result (Covers (RunsRest (of_parts parts.now) count) from.entry.items) }
    ensures err { IfErr result
        (λ h. Halts (RunsRest (of_parts parts.now) count) from.entry.items h) }
{
    let rest = chain(memory, parts)?;
    follow(memory, count, rest, from)
}

// Runs the rest of a procedure from each of the states.
#[cycle(alone)]
fn follow<'a>(
    memory: Memory<'a>,
    count: u32,
    rest: &'a Rest<'a>,
    from: Vec<Kept<'a>>,
) -> Result<(), Halt<'a>>
    requires small { IsSmallRest count rest.now }
    ensures ok { OnOk result (Covers (RunsRest rest.now count) from.entry.items) }
    ensures err { IfErr result (λ h. Halts (RunsRest rest.now count) from.entry.items h) }
{
    let mut now = from;
    while let Some(k) = now.pop() {
        follow_alone(memory, count, rest, k)?;
    }
    Ok(())
}

// Runs the rest of a procedure from one state.
#[cycle(alone)]
fn follow_alone<'a>(
    memory: Memory<'a>,
    count: u32,
    rest: &'a Rest<'a>,
    from: Kept<'a>,
) -> Result<(), Halt<'a>>
    requires small { IsSmallRest count rest.now }
    ensures ok { OnOk result (Covers (RunsRest rest.now count) (from.entry ∷ [])) }
    ensures err { IfErr result (λ h. Halts (RunsRest rest.now count) (from.entry ∷ []) h) }
{
    match &rest.first {
        First::End => Ok(()),
        First::Part(steps, behind) => alone(memory, count, steps, behind, restart(from)),
        First::Steps(steps, behind) => alone(memory, count, steps, behind, from),
        First::Tries(tried, selection, at, behind) => {
            tries(memory, count, *tried, selection, *at, behind, from)
        }
        First::Leave(selection, soft_failure, behind) => {
            let left = leave_one(selection, *soft_failure, from);
            follow_alone(memory, count, behind, left)
        }
    }
}

// Runs commands and the rest of the procedure, from each of the states.
#[cycle(alone)]
fn commands<'a>(
    memory: Memory<'a>,
    count: u32,
    steps: &'a [Step],
    rest: &'a Rest<'a>,
    from: Vec<Kept<'a>>,
) -> Result<(), Halt<'a>>
    requires small { IsSmallSequence count (sequence_tree steps.now) }
    requires rest { IsSmallRest count rest.now }
    ensures ok { OnOk result
        (Covers (RunsThen (sequence_tree steps.now) rest.now count) from.entry.items) }
    ensures err { IfErr result
        (λ h. Halts (RunsThen (sequence_tree steps.now) rest.now count) from.entry.items h) }
{
    let mut now = from;
    let mut at = 0;
    while at < steps.len() {
        if now.is_empty() {
            return Ok(());
        }
        if let Some(tried) = wide_try(&steps[at], &now) {
            let behind = Rest::of(memory, First::Steps(&steps[at + 1..], rest))?;
            return each_tried(memory, count, tried, behind, now);
        }
        now = outermost(memory, count, &steps[at], now)?;
        at += 1;
        if go_alone(steps, at, now.len()) {
            return each_alone(memory, count, &steps[at..], rest, now);
        }
    }
    follow(memory, count, rest, now)
}

// Runs commands and the rest of the procedure, from one state after another.
#[cycle(alone)]
fn each_alone<'a>(
    memory: Memory<'a>,
    count: u32,
    steps: &'a [Step],
    rest: &'a Rest<'a>,
    from: Vec<Kept<'a>>,
) -> Result<(), Halt<'a>>
    requires small { IsSmallSequence count (sequence_tree steps.now) }
    requires rest { IsSmallRest count rest.now }
    ensures ok { OnOk result
        (Covers (RunsThen (sequence_tree steps.now) rest.now count) from.entry.items) }
    ensures err { IfErr result
        (λ h. Halts (RunsThen (sequence_tree steps.now) rest.now count) from.entry.items h) }
{
    let mut now = from;
    while let Some(k) = now.pop() {
        alone(memory, count, steps, rest, k)?;
    }
    Ok(())
}

// Runs commands and the rest of the procedure, from one state. The straight commands at the beginning run in place.
#[cycle(alone)]
fn alone<'a>(
    memory: Memory<'a>,
    count: u32,
    steps: &'a [Step],
    rest: &'a Rest<'a>,
    from: Kept<'a>,
) -> Result<(), Halt<'a>>
    requires small { IsSmallSequence count (sequence_tree steps.now) }
    requires rest { IsSmallRest count rest.now }
    ensures ok { OnOk result
        (Covers (RunsThen (sequence_tree steps.now) rest.now count) (from.entry ∷ [])) }
    ensures err { IfErr result
        (λ h. Halts (RunsThen (sequence_tree steps.now) rest.now count) (from.entry ∷ []) h) }
{
    let mut k = from;
    let done = straight_steps(memory, count, steps, &mut k)?;
    let Some(at) = done else {
        return Ok(());
    };
    if at == steps.len() {
        return follow_alone(memory, count, rest, k);
    }
    let one = only(memory.alloc, k)?;
    commands(memory, count, &steps[at..], rest, one)
}

// Runs a try each at each selected component and the rest of the procedure, from one state after another.
#[cycle(alone)]
fn each_tried<'a>(
    memory: Memory<'a>,
    count: u32,
    tried: Tried<'a>,
    behind: &'a Rest<'a>,
    from: Vec<Kept<'a>>,
) -> Result<(), Halt<'a>>
    requires few { AreFew from.items }
    requires small { AreSmallBranches count (tried_branches tried) }
    requires behind { IsSmallRest count behind.now }
    ensures ok { OnOk result
        (Covers (TriesThen (tried_branches tried.entry) tried.entry.place behind.now count)
        from.entry.items) }
    ensures err { IfErr result
        (λ h. Halts (TriesThen (tried_branches tried.entry) tried.entry.place behind.now count)
        from.entry.items h) }
{
    let mut now = from;
    while let Some(k) = now.pop() {
        let selection = k.selection.copy();
        tries(memory, count, tried, &selection, 0, behind, k)?;
    }
    Ok(())
}

// Runs a try each at the components from an index on and the rest of the procedure, from one state.
#[cycle(alone)]
fn tries<'a>(
    memory: Memory<'a>,
    count: u32,
    tried: Tried<'a>,
    selection: &Selected<'a>,
    at: usize,
    behind: &'a Rest<'a>,
    k: Kept<'a>,
) -> Result<(), Halt<'a>>
    requires small { AreSmallBranches count (tried_branches tried) }
    requires behind { IsSmallRest count behind.now }
    ensures ok { OnOk result
        (Covers
        (RunsRest
        (OfTries (tried_branches tried.entry) tried.entry.place (drop at selection.now)
        ∷ behind.now)
        count)
        (k.entry ∷ [])) }
    ensures err { IfErr result
        (λ h. Halts
        (RunsRest
        (OfTries (tried_branches tried.entry) tried.entry.place (drop at selection.now)
        ∷ behind.now)
        count)
        (k.entry ∷ []) h) }
{
    if at >= selection.len() {
        return follow_alone(memory, count, behind, k);
    }
    let later = Rest::of(
        memory,
        First::Tries(tried, selection.copy(), at + 1, behind),
    )?;
    tries_at(memory, count, tried, selection.at(at), later, k)
}

// Runs a try each at one component and the rest of the procedure, from one state. The states in the last branch go on
// through the rest of the procedure without being gathered.
#[cycle(alone)]
fn tries_at<'a>(
    memory: Memory<'a>,
    count: u32,
    tried: Tried<'a>,
    component: u32,
    behind: &'a Rest<'a>,
    k: Kept<'a>,
) -> Result<(), Halt<'a>>
    requires room { component < 8 }
    requires small { AreSmallBranches count (tried_branches tried) }
    requires behind { IsSmallRest count behind.now }
    ensures ok { OnOk result
        (Covers (TriesAt (tried_branches tried.entry) tried.entry.place component behind.now count)
        (k.entry ∷ [])) }
    ensures err { IfErr result
        (λ h. Halts
        (TriesAt (tried_branches tried.entry) tried.entry.place component behind.now count)
        (k.entry ∷ []) h) }
{
    let leave = Rest::leave(memory, &k, behind)?;
    let mut done = Vec::new(memory.alloc);
    let last = until_last(memory, count, tried, component, k, &mut done)?;
    commands(memory, count, tried.last.as_slice(), leave, last)?;
    follow(memory, count, behind, done)
}

// Runs a try each at one component, up to its last branch. Returns the states in which that begins, and appends those
// that an earlier branch completed to `done`.
fn until_last<'a>(
    memory: Memory<'a>,
    count: u32,
    tried: Tried<'a>,
    component: u32,
    k: Kept<'a>,
    done: &mut Vec<Kept<'a>>,
) -> Result<Vec<Kept<'a>>, Halt<'a>>
    requires room { component < 8 }
    requires small { AreSmallBranches count (tried_branches tried) }
    requires none { done.now.items ≡ [] }
    ensures ok { IfOk result
        (λ last. (behind : List Later)
        → GoesLast (TriesAt (tried_branches tried.entry) tried.entry.place component behind count)
        (k.entry ∷ [])
        (RunsThen tried.entry.last.now
        (OfLeave k.entry.state.selection k.entry.state.soft_failure ∷ behind) count)
        (RunsRest behind count) last.items done.new.items) }
    ensures err { IfErr result
        (λ h. (behind : List Later)
        → Halts (TriesAt (tried_branches tried.entry) tried.entry.place component behind count)
        (k.entry ∷ []) h) }
{
    let outer = outer_of(&k)?;
    tried_before(memory, count, tried, component, &outer, k, done)
}

// Does the work of `until_last`, with the state around the try each.
fn tried_before<'a>(
    memory: Memory<'a>,
    count: u32,
    tried: Tried<'a>,
    component: u32,
    outer: &Outer<'a>,
    k: Kept<'a>,
    done: &mut Vec<Kept<'a>>,
) -> Result<Vec<Kept<'a>>, Halt<'a>>
    requires room { component < 8 }
    requires small { AreSmallBranches count (tried_branches tried) }
    requires outer { outer.now ≡ k.state }
    requires none { done.now.items ≡ [] }
    ensures ok { IfOk result
        (λ last. (behind : List Later)
        → GoesLast (TriesAt (tried_branches tried.entry) tried.entry.place component behind count)
        (k.entry ∷ [])
        (RunsThen tried.entry.last.now
        (OfLeave k.entry.state.selection k.entry.state.soft_failure ∷ behind) count)
        (RunsRest behind count) last.items done.new.items) }
    ensures err { IfErr result
        (λ h. (behind : List Later)
        → Halts (TriesAt (tried_branches tried.entry) tried.entry.place component behind count)
        (k.entry ∷ []) h) }
{
    let mut ended = Failures::none(memory.alloc, false, false);
    let mut now = only(memory.alloc, k)?;
    for branch in tried.before {
        let Some(inner) = branch else {
            done.append(&mut now)?;
            return Ok(now);
        };
        let states = enter_all(memory.alloc, component, outer, now)?;
        let stops = none_inside(memory.alloc, true, &ended, outer);
        let inside = Inside { states, stops };
        now = one_branch(memory, count, inner, outer, inside, done, &mut ended)?;
    }
    Ok(enter_all(memory.alloc, component, outer, now)?)
}

// Runs the straight commands at the beginning in place. Returns how many these are, or `None` if the procedure ends.
fn straight_steps<'a>(
    memory: Memory<'a>,
    count: u32,
    steps: &'a [Step],
    k: &mut Kept<'a>,
) -> Result<Option<usize>, Halt<'a>>
    requires small { IsSmallSequence count (sequence_tree steps.now) }
    ensures within { IfOk result (λ done. IfSome done (λ at. at ≤ length steps.now)) }
    ensures on { IfOk result
        (λ done. IfSome done
        (λ at. (rest : List Later)
        → GoesOn (RunsThen (sequence_tree steps.now) rest count) (k.old ∷ [])
        (RunsThen (sequence_tree (drop at steps.now)) rest count) (k.new ∷ []))) }
    ensures ended { IfOk result
        (λ done. done ≡ None → (rest : List Later)
        → Covers (RunsThen (sequence_tree steps.now) rest count) (k.old ∷ [])) }
    ensures err { IfErr result
        (λ h. (rest : List Later)
        → Halts (RunsThen (sequence_tree steps.now) rest count) (k.old ∷ []) h) }
{
    let mut at = 0;
    while let Some(step) = straight_at(steps, at) {
        let goes_on = command_in(memory, count, step, k)?;
        if !goes_on {
            return Ok(None);
        }
        at += 1;
    }
    Ok(Some(at))
}

// The command at an index, if there is one and it is straight.
fn straight_at(steps: &[Step], at: usize) -> Option<&Step>
    ensures within { IfSome result (λ step. at < length steps.now) }
    ensures is { IfSome result (λ step. step.now ≡ get_or steps.now at step.now) }
    ensures straight { IfSome result (λ step. IsStraight (command_tree step.now.command)) }
{
    if at < steps.len() && is_straight(&steps[at].command) {
        return Some(&steps[at]);
    }
    None
}
