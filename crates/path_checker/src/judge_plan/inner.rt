//! Entering and leaving inner sequences.

ghost use Rattle.std.specs.Prelude.{◌≡◌, ◌<◌, true, [], ◌∷◌, ◌++◌, OnOk, IfOk};
ghost use Rattle.path_checker.specs.Inner.{entered, all_entered, left, all_left, resumed, if_soft, if_hard, softly, hardly, exhausted_at, exhausted, restarted, none_inside};
ghost use Rattle.path_checker.specs.Exploring.{after_stops, kept_of, state_of};

use crate::judge_plan::failures::Failures;
use crate::judge_plan::happened::Ended;
use crate::judge_plan::in_force::InForce;
use crate::judge_plan::kept::{Kept, Stopped};
use crate::judge_plan::memory::Memory;
use crate::judge_plan::selected::Selected;
use std::alloc::{AllocError, Global};
use std::marker::Model;
use std::mem;

/// The state around an inner sequence.
#[derive(Drop)]
pub(crate) struct Outer<'a> {
    params: InForce<'a>,
    selection: Selected<'a>,
    pub soft_failure: bool,
}

impl<'a> Model for Outer<'a> {
    ghost use Rattle.path_model.specs.Behaviour.{State};
    ghost use Rattle.path_checker.specs.Exploring.{state_of};

    ghost Value = { State };

    ghost view = { λ a. state_of a.params a.selection a.soft_failure };
}

pub(crate) fn outer_of<'a>(k: &Kept<'a>) -> Result<Outer<'a>, AllocError>
    ensures { IfOk result (λ outer. outer ≡ k.now.state) }
{
    let params = k.params.copy()?;
    Ok(Outer {
        params,
        selection: k.selection.copy(),
        soft_failure: k.soft_failure,
    })
}

/// A list of one state.
pub(crate) fn only<'a>(alloc: Global, k: Kept<'a>) -> Result<Vec<Kept<'a>>, AllocError>
    ensures { IfOk result (λ v. v.items ≡ k.entry ∷ []) }
{
    let mut one = Vec::new(alloc);
    one.push(k)?;
    Ok(one)
}

/// The states in which a branch begins, and its failures so far.
#[derive(Drop)]
pub(crate) struct Inside<'a> {
    pub states: Vec<Kept<'a>>,
    pub stops: Failures<'a>,
}

/// No failures of an inner sequence yet. Soft ones are kept if something goes on from them, and all are kept if the
/// outer sequence keeps the failure that they lead to.
pub(crate) fn none_inside<'a>(
    alloc: Global,
    goes_on: bool,
    failed: &Failures<'a>,
    outer: &Outer<'a>,
) -> Failures<'a>
    ensures { result ≡ none_inside goes_on failed.now outer.now }
{
    let passed_on = failed.keeps(outer.soft_failure);
    Failures::none(alloc, goes_on || passed_on, passed_on)
}

/// Enters an inner sequence, with one component selected.
pub(crate) fn enter<'a>(component: u32, soft_failure: bool, k: Kept<'a>) -> Kept<'a>
    requires room { component < 8 }
    ensures { result ≡ entered k.entry.state component soft_failure k.entry }
{
    let mut k = k;
    k.selection = Selected::one(component);
    k.soft_failure = soft_failure;
    k
}

/// The state in which a branch begins. Its parameters are those from before the try each.
pub(crate) fn enter_branch<'a>(
    component: u32,
    outer: &Outer<'a>,
    k: Kept<'a>,
) -> Result<Kept<'a>, AllocError>
    requires room { component < 8 }
    ensures { IfOk result (λ to. to ≡ entered outer.now component true k.entry) }
{
    let params = outer.params.copy()?;
    Ok(Kept {
        facts: k.facts,
        history: k.history,
        params,
        selection: Selected::one(component),
        soft_failure: true,
    })
}

/// The states in which a branch begins.
pub(crate) fn enter_all<'a>(
    alloc: Global,
    component: u32,
    outer: &Outer<'a>,
    from: Vec<Kept<'a>>,
) -> Result<Vec<Kept<'a>>, AllocError>
    requires room { component < 8 }
    ensures { IfOk result (λ v. v.items ≡ all_entered outer.now component true from.entry.items) }
{
    let mut inside = Vec::new(alloc);
    for k in from {
        inside.push(enter_branch(component, outer, k)?)?;
    }
    Ok(inside)
}

/// Leaves a completed inner sequence: restores the selection and soft failure, and keeps the parameters.
pub(crate) fn leave_in<'a>(outer: &Outer<'a>, k: &mut Kept<'a>)
    ensures { k.new ≡ left outer.now k.old }
{
    k.selection = outer.selection.copy();
    k.soft_failure = outer.soft_failure;
}

// Leaves a completed inner sequence in each of the states.
fn left_all<'a>(outer: &Outer<'a>, from: Vec<Kept<'a>>) -> Vec<Kept<'a>>
    ensures { result.items ≡ all_left outer.now from.entry.items }
{
    let mut now = from;
    for at in 0..now.len() {
        leave_in(outer, &mut now[at]);
    }
    now
}

// Appends states. Does not allocate if `next` is empty.
fn add_all<'a>(states: Vec<Kept<'a>>, next: &mut Vec<Kept<'a>>) -> Result<(), AllocError>
    ensures { OnOk result (next.new.items ≡ next.old.items ++ states.entry.items) }
{
    let mut states = states;
    if next.is_empty() {
        mem::swap(&mut states, next);
        return Ok(());
    }
    next.append(&mut states)?;
    Ok(())
}

// Leaves a completed inner sequence, and appends its states to `next`.
fn leave_all<'a>(
    outer: &Outer<'a>,
    done: Vec<Kept<'a>>,
    next: &mut Vec<Kept<'a>>,
) -> Result<(), AllocError>
    ensures { OnOk result (next.new.items ≡ next.old.items ++ all_left outer.now done.entry.items) }
{
    let left = left_all(outer, done);
    add_all(left, next)
}

/// Leaves a completed branch: restores the selection and soft failure, and keeps the parameters.
pub(crate) fn leave_one<'a>(
    selection: &Selected<'a>,
    soft_failure: bool,
    from: Kept<'a>,
) -> Kept<'a>
    ensures { result
        ≡ kept_of from.entry.facts from.entry.events
        (state_of from.entry.state.parameters selection.now soft_failure) }
{
    let mut done = from;
    done.selection = selection.copy();
    done.soft_failure = soft_failure;
    done
}

/// Leaves an inner sequence that failed softly: restores parameters, selection and soft failure.
pub(crate) fn resume<'a>(
    memory: Memory<'a>,
    outer: &Outer<'a>,
    stop: Stopped<'a>,
) -> Result<Kept<'a>, AllocError>
    ensures { IfOk result (λ k. k ≡ resumed outer.now stop.entry) }
{
    let params = outer.params.copy()?;
    let (ended, place) = (stop.ended, stop.place);
    let history = stop.history.with_end(memory, ended, place)?;
    Ok(Kept {
        facts: stop.facts,
        history,
        params,
        selection: outer.selection.copy(),
        soft_failure: outer.soft_failure,
    })
}

// Passes on a failure of an inner sequence: a soft one goes on as a state, and any other fails the outer sequence.
fn split_one<'a>(
    memory: Memory<'a>,
    outer: &Outer<'a>,
    stop: Stopped<'a>,
    next: &mut Vec<Kept<'a>>,
    failed: &mut Failures<'a>,
) -> Result<(), AllocError>
    ensures soft { OnOk result
        (next.new.items ≡ next.old.items ++ if_soft outer.now stop.entry stop.entry.soft_failure) }
    ensures hard { OnOk result
        (failed.new
        ≡ after_stops failed.old (if_hard outer.now stop.entry stop.entry.soft_failure)) }
{
    if stop.soft_failure {
        next.push(resume(memory, outer, stop)?)?;
    } else {
        let mut stop = stop;
        stop.soft_failure = outer.soft_failure;
        failed.add(stop)?;
    }
    Ok(())
}

// Passes on the failures of an inner sequence: soft ones go on as states, and the others fail the outer sequence.
fn split<'a>(
    memory: Memory<'a>,
    outer: &Outer<'a>,
    stops: Failures<'a>,
    next: &mut Vec<Kept<'a>>,
    failed: &mut Failures<'a>,
) -> Result<(), AllocError>
    ensures soft { OnOk result
        (next.new.items ≡ next.old.items ++ softly outer.now stops.entry.items) }
    ensures hard { OnOk result
        (failed.new ≡ after_stops failed.old (hardly outer.now stops.entry.items)) }
{
    for stop in stops.list {
        split_one(memory, outer, stop, next, failed)?;
    }
    Ok(())
}

/// Leaves an inner sequence. States in which it completed or failed softly go on, and other failures fail the outer
/// sequence.
pub(crate) fn leave<'a>(
    memory: Memory<'a>,
    outer: &Outer<'a>,
    done: Vec<Kept<'a>>,
    stops: Failures<'a>,
    next: &mut Vec<Kept<'a>>,
    failed: &mut Failures<'a>,
) -> Result<(), AllocError>
    ensures on { OnOk result
        (next.new.items
        ≡ (next.old.items ++ all_left outer.now done.entry.items)
        ++ softly outer.now stops.entry.items) }
    ensures hard { OnOk result
        (failed.new ≡ after_stops failed.old (hardly outer.now stops.entry.items)) }
{
    leave_all(outer, done, next)?;
    split(memory, outer, stops, next, failed)
}

/// Leaves a branch. Returns the states after its soft failures, in which the next branch is tried.
pub(crate) fn leave_branch<'a>(
    memory: Memory<'a>,
    outer: &Outer<'a>,
    done: Vec<Kept<'a>>,
    stops: Failures<'a>,
    next: &mut Vec<Kept<'a>>,
    failed: &mut Failures<'a>,
) -> Result<Vec<Kept<'a>>, AllocError>
    ensures done { OnOk result
        (next.new.items ≡ next.old.items ++ all_left outer.now done.entry.items) }
    ensures soft { IfOk result (λ rest. rest.items ≡ softly outer.now stops.entry.items) }
    ensures hard { OnOk result
        (failed.new ≡ after_stops failed.old (hardly outer.now stops.entry.items)) }
{
    leave_all(outer, done, next)?;
    let mut rest = Vec::new(memory.alloc);
    split(memory, outer, stops, &mut rest, failed)?;
    Ok(rest)
}

/// The failure of a try each in which no branch completed.
pub(crate) fn exhaust_one<'a>(place: u64, outer: &Outer<'a>, k: Kept<'a>) -> Stopped<'a>
    ensures { result ≡ exhausted_at outer.now place k.entry }
{
    Stopped {
        facts: k.facts,
        history: k.history,
        ended: Ended::Exhausted,
        place,
        soft_failure: outer.soft_failure,
    }
}

/// Fails a try each in which no branch completed, in each of the states.
pub(crate) fn exhaust<'a>(
    place: u64,
    outer: &Outer<'a>,
    from: Vec<Kept<'a>>,
    failed: &mut Failures<'a>,
) -> Result<(), AllocError>
    ensures { OnOk result
        (failed.new ≡ after_stops failed.old (exhausted outer.now place from.entry.items)) }
{
    for k in from {
        failed.add(exhaust_one(place, outer, k))?;
    }
    Ok(())
}

/// The state in which a member or the shared sequence begins.
pub(crate) fn restart<'a>(from: Kept<'a>) -> Kept<'a>
    ensures { result ≡ restarted from.entry }
{
    let mut started = from;
    started.selection = Selected::one(0);
    started.soft_failure = false;
    started
}
