//! Override parameters.

ghost use Rattle.path_model.specs.Directives.{after_override};
ghost use Rattle.std.specs.Prelude.{◌≡◌, ◌<◌};
ghost use Rattle.step_machine.specs.Running.{state_of};
ghost use Rattle.suit_params.specs.InForce.{IsOverridden};

use crate::progress::Progress;
use suit_cursor::ParamView;

/// Overrides a component's parameters, and soft failure if the list sets it.
pub(crate) fn override_with<'p>(component: u32, list: ParamView<'p>, state: &mut Progress<'p>)
    requires { component < 8 }
    ensures after { state_of state.new
        ≡ after_override (state_of state.old) component list.entry }
    ensures last { IsOverridden state.old.params state.new.params component list.entry }
    ensures selected { state.new.selected ≡ state.old.selected }
{
    let soft_failure = state.soft_failure;
    state.soft_failure = state.params.override_with(component, list, soft_failure);
}
