//! Straight commands: conditions, and commands that run none. Where a failed condition ends the procedure, they lead a
//! state to at most one state.

ghost use Rattle.std.specs.Prelude.{◌≡◌, ◌↔◌, ◌<◌, ◌≤◌, ◌+◌, IsTrue, IfOk, IfErr, length, get_or, take, drop};
ghost use Rattle.suit_commands.specs.declared.command.Step.{Step as TheStep};
ghost use Rattle.suit_commands.specs.View.{command_tree, sequence_tree};
ghost use Rattle.path_checker.specs.Exploring.{Passes};
ghost use Rattle.path_checker.specs.Small.{IsSmallCommand, IsStraight, IsInPlace, AreInPlace};
ghost use Rattle.path_checker.specs.Halting.{Halts};
ghost use Rattle.path_checker.specs.Steps.{DoesStep};

use crate::judge_plan::halt::Halt;
use crate::judge_plan::in_place::command_in;
use crate::judge_plan::kept::{Kept, add_if};
use crate::judge_plan::memory::Memory;
use crate::judge_plan::reuse::reuse;
use crate::judge_plan::unconditional::is_unconditional;
use suit_commands::{Command, Step};

/// Whether a command is straight: a condition, or a command that runs none.
pub(crate) fn is_straight(command: &Command) -> bool
    ensures { IsTrue result ↔ IsStraight (command_tree command.now) }
{
    match command {
        Command::Test { .. } => true,
        _ => is_unconditional(command),
    }
}

// Whether a command can run on a state in place. Conditions can if their failures are not kept, as `tests` says.
fn is_in_place(command: &Command, tests: bool) -> bool
    ensures { IsTrue result ↔ IsInPlace tests (command_tree command.now) }
{
    if tests {
        is_straight(command)
    } else {
        is_unconditional(command)
    }
}

// Whether there is a command at an index that can run in place.
fn is_in_place_at(steps: &[Step], at: usize, tests: bool) -> bool
    ensures within { IsTrue result → at + 1 ≤ length steps.now }
    ensures in_place { (step : TheStep) → at < length steps.now
        → IsTrue result ↔ IsInPlace tests (command_tree (get_or steps.now at step).command) }
{
    at < steps.len() && is_in_place(&steps[at].command, tests)
}

/// The longest run of commands from an index on that can all run in place. Conditions can if their failures are not
/// kept, as `tests` says.
pub(crate) fn in_place_from(steps: &[Step], at: usize, tests: bool) -> &[Step]
    requires within { at ≤ length steps.now }
    ensures part { result.now ≡ take (length result.now) (drop at steps.now) }
    ensures fits { at + length result.now ≤ length steps.now }
    ensures in_place { AreInPlace tests (sequence_tree result.now) }
    ensures next { (step : TheStep) → at + length result.now < length steps.now
        → IsInPlace tests (command_tree (get_or steps.now (at + length result.now) step).command)
        → ⊥ }
{
    let mut end = at;
    while is_in_place_at(steps, end, tests) {
        end += 1;
    }
    &steps[at..end]
}

/// Runs a straight command from each of the states.
pub(crate) fn straight<'a>(
    memory: Memory<'a>,
    count: u32,
    step: &'a Step,
    from: Vec<Kept<'a>>,
) -> Result<Vec<Kept<'a>>, Halt<'a>>
    requires small { IsSmallCommand count (command_tree step.now.command) }
    requires straight { IsStraight (command_tree step.now.command) }
    ensures ok { IfOk result (λ v. Passes (DoesStep step.now count) from.entry.items v.items) }
    ensures err { IfErr result (λ h. Halts (DoesStep step.now count) from.entry.items h) }
{
    let mut now = from;
    let mut next = Vec::new(memory.alloc);
    while let Some(one) = now.pop() {
        reuse(&mut now, &mut next);
        let mut k = one;
        let goes_on = command_in(memory, count, step, &mut k)?;
        add_if(goes_on, k, &mut next)?;
    }
    Ok(next)
}
