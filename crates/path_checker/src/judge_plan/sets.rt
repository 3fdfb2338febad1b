//! The events of overrides.

ghost use Rattle.std.specs.Prelude.{◌≡◌, ◌++◌, OnOk};
ghost use Rattle.path_model.specs.Directives.{set_events};
ghost use Rattle.suit_commands.specs.View.{sequence_tree};
ghost use Rattle.path_checker.specs.Happening.{sets_at, sequence_sets};
ghost use Rattle.path_checker.specs.Selecting.{components_of};

use crate::judge_plan::selected::{Components, listed};
use path_model::{Event, Events};
use std::alloc::{AllocError, Global};
use suit_commands::{Command, Step};
use suit_params::ParamList;

/// Appends the events of an override at some components, with copies of its parameters.
pub(crate) fn tell_all_sets(
    alloc: Global,
    components: Components<'_>,
    list: &ParamList,
    events: &mut Events,
) -> Result<(), AllocError>
    ensures { OnOk result
        (events.new ≡ events.old ++ sets_at (components_of components.entry) list.now) }
{
    let each = listed(alloc, components)?;
    for component in each.as_slice() {
        tell_sets(alloc, *component, list, events)?;
    }
    Ok(())
}

// Appends the events of an override at one component, with copies of its parameters.
fn tell_sets(
    alloc: Global,
    component: u32,
    list: &ParamList,
    events: &mut Events,
) -> Result<(), AllocError>
    ensures { OnOk result (events.new ≡ events.old ++ set_events component list.now) }
{
    for param in list.as_slice() {
        let param = param.copy(alloc)?;
        events.push(Event::Set { component, param })?;
    }
    Ok(())
}

/// Appends the events of several overrides in a row, with copies of their parameters.
pub(crate) fn tell_several(
    alloc: Global,
    components: Components<'_>,
    steps: &[Step],
    events: &mut Events,
) -> Result<(), AllocError>
    ensures { OnOk result
        (events.new
        ≡ events.old ++ sequence_sets (sequence_tree steps.now) (components_of components.entry)) }
{
    for step in steps {
        if let Command::Override(list) = &step.command {
            tell_all_sets(alloc, components, list, events)?;
        }
    }
    Ok(())
}
