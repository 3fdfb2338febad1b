//! Several overrides in a row.

ghost use Rattle.std.specs.Prelude.{◌≡◌, ◌<◌, ◌≤◌, ◌+◌, IsTrue, IfSome, IfOk, OnOk, length, get_or, take, drop};
ghost use Rattle.suit_commands.specs.View.{command_tree, sequence_tree};
ghost use Rattle.path_checker.specs.Exploring.{state_of};
ghost use Rattle.path_checker.specs.Overriding.{IsOverride, AreOverrides, after_overrides, overridden_by};
ghost use Rattle.path_checker.specs.Small.{AreSmall};

use crate::judge_plan::directives::{override_all, soft_at};
use crate::judge_plan::in_force::InForce;
use crate::judge_plan::kept::Kept;
use crate::judge_plan::memory::Memory;
use crate::judge_plan::selected::Selected;
use crate::judge_plan::telling::Told;
use std::alloc::{AllocError, Global};
use suit_commands::{Command, Step};

fn is_override(command: &Command) -> bool
    ensures { IsTrue result → IsOverride (command_tree command.now) }
{
    match command {
        Command::Override(_) => true,
        _ => false,
    }
}

// The command at an index, if it is an override.
fn override_at(steps: &[Step], at: usize) -> Option<&Step>
    ensures within { IfSome result (λ step. at < length steps.now) }
    ensures is { IfSome result (λ step. step.now ≡ get_or steps.now at step.now) }
    ensures overriding { IfSome result (λ step. IsOverride (command_tree step.now.command)) }
{
    if at < steps.len() && is_override(&steps[at].command) {
        return Some(&steps[at]);
    }
    None
}

/// The longest run of overrides from an index on.
pub(crate) fn overrides_from(steps: &[Step], at: usize) -> &[Step]
    requires within { at ≤ length steps.now }
    ensures part { result.now ≡ take (length result.now) (drop at steps.now) }
    ensures fits { at + length result.now ≤ length steps.now }
    ensures overrides { AreOverrides (sequence_tree result.now) }
{
    let mut end = at;
    while let Some(step) = override_at(steps, end) {
        end += 1;
    }
    &steps[at..end]
}

// Overrides the parameters of some components. Returns the soft failure after that.
fn set_all<'a>(
    alloc: Global,
    steps: &'a [Step],
    components: &[u32],
    soft_failure: bool,
    params: &mut InForce<'a>,
) -> Result<bool, AllocError>
    requires small { AreSmall components.now }
    ensures { IfOk result
        (λ soft_after. state_of params.new components.now soft_after
        ≡ after_overrides (state_of params.old components.now soft_failure)
        (sequence_tree steps.now)) }
{
    let mut soft_failure = soft_failure;
    for step in steps {
        if let Command::Override(list) = &step.command {
            override_all(alloc, list, components, params)?;
            soft_failure = soft_at(soft_failure, list, components);
        }
    }
    Ok(soft_failure)
}

// Overrides the parameters of the selected components. Returns the soft failure after that.
fn set_selected<'a>(
    alloc: Global,
    steps: &'a [Step],
    selection: &Selected<'a>,
    soft_failure: bool,
    params: &mut InForce<'a>,
) -> Result<bool, AllocError>
    ensures { IfOk result
        (λ soft_after. state_of params.new selection.now soft_after
        ≡ after_overrides (state_of params.old selection.now soft_failure)
        (sequence_tree steps.now)) }
{
    if let Some(component) = selection.sole() {
        return set_all(alloc, steps, &[component], soft_failure, params);
    }
    let components = selection.listed(alloc)?;
    set_all(alloc, steps, &components, soft_failure, params)
}

/// Runs several overrides in a row on a state.
pub(crate) fn overrides_in<'a>(
    memory: Memory<'a>,
    steps: &'a [Step],
    k: &mut Kept<'a>,
) -> Result<(), AllocError>
    requires { AreOverrides (sequence_tree steps.now) }
    ensures { OnOk result (k.new ≡ overridden_by k.old (sequence_tree steps.now)) }
{
    k.soft_failure = set_selected(
        memory.alloc,
        steps,
        &k.selection,
        k.soft_failure,
        &mut k.params,
    )?;
    let components = k.selection.components();
    let told = Told::Several { components, steps };
    k.history.add_told(memory, steps, components, told)?;
    Ok(())
}
