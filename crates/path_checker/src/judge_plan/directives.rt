//! Directives at one component.

ghost use Rattle.std.specs.Prelude.{◌≡◌, ◌<◌, ℕ, [], ◌∷◌, OnOk, IfOk, IfErr};
ghost use Rattle.path_model.specs.Behaviour.{Each};
ghost use Rattle.path_model.specs.Directives.{Overrides, soft_after};
ghost use Rattle.path_checker.specs.Exploring.{Explores, kept_if};
ghost use Rattle.path_checker.specs.Steps.{soft_after_all, overridden_at, soft_at, ActsAt};
ghost use Rattle.path_checker.specs.Small.{AreSmall};
ghost use Rattle.path_checker.specs.Halting.{Halts};

use crate::judge_plan::halt::{Halt, Uncovered};
use crate::judge_plan::happened::Happened;
use crate::judge_plan::in_force::InForce;
use crate::judge_plan::kept::{Kept, happens, happens_if};
use crate::judge_plan::memory::Memory;
use crate::judge_plan::selected::Components;
use std::alloc::{AllocError, Global};
use suit_commands::ActKind;
use suit_params::{Param, ParamList};

// Both components are written.
fn swap<'a>(memory: Memory<'a>, component: u32, k: &mut Kept<'a>) -> Result<bool, AllocError>
    requires room { component < 8 }
    ensures { IfOk result
        (λ goes_on. (place : ℕ)
        → Explores (ActsAt ActKind.Swap place component) (k.old ∷ []) (kept_if goes_on k.new) []) }
{
    match k.params.source(component) {
        Some(source) => {
            k.history.add_swap(memory, component, source)?;
            Ok(true)
        }
        None => Ok(false),
    }
}

fn invoke<'a>(
    memory: Memory<'a>,
    place: u64,
    component: u32,
    k: &mut Kept<'a>,
) -> Result<bool, Halt<'a>>
    requires room { component < 8 }
    ensures ok { IfOk result
        (λ goes_on. Explores (ActsAt ActKind.Invoke place component) (k.old ∷ [])
        (kept_if goes_on k.new) []) }
    ensures err { IfErr result (λ h. Halts (ActsAt ActKind.Invoke place component) (k.old ∷ []) h) }
{
    match k.params.stated(component) {
        None => {
            let size = k.params.size(component);
            let bad = Happened::Uncovered {
                component,
                digest: None,
                size,
            };
            happens(memory, k, bad)?;
            Err(Halt::Uncovered(Uncovered::take(memory, k)?))
        }
        Some(stated) => {
            let asked = k.history.asked(memory, place, component, stated)?;
            if asked.stands {
                let own = asked.own;
                happens(memory, k, Happened::Covered { component, own })?;
                return Ok(true);
            }
            let bad = Happened::Uncovered {
                component,
                digest: Some(stated.digest.get()),
                size: stated.size,
            };
            happens(memory, k, bad)?;
            Err(Halt::Uncovered(Uncovered::take(memory, k)?))
        }
    }
}

/// Runs a write, fetch, copy, swap or invoke at one component. Returns `false` if it can only fail, which ends the
/// procedure.
pub(crate) fn act_in<'a>(
    memory: Memory<'a>,
    place: u64,
    kind: ActKind,
    component: u32,
    k: &mut Kept<'a>,
) -> Result<bool, Halt<'a>>
    requires room { component < 8 }
    ensures ok { IfOk result
        (λ goes_on. Explores (ActsAt kind place component) (k.old ∷ [])
        (kept_if goes_on k.new) []) }
    ensures err { IfErr result (λ h. Halts (ActsAt kind place component) (k.old ∷ []) h) }
{
    let wrote = Happened::Wrote { component };
    match kind {
        ActKind::Write => Ok(happens_if(memory, k.params.has_content(component), k, wrote)?),
        ActKind::Fetch => Ok(happens_if(memory, k.params.has_uri(component), k, wrote)?),
        ActKind::Copy => Ok(happens_if(memory, k.params.source(component).is_some(), k, wrote)?),
        ActKind::Swap => Ok(swap(memory, component, k)?),
        ActKind::Invoke => invoke(memory, place, component, k),
    }
}

// ---- override parameters

fn soft_after(soft_failure: bool, param: &Param) -> bool
    ensures { result ≡ soft_after soft_failure param.now }
{
    match param {
        Param::Soft(value) => *value,
        _ => soft_failure,
    }
}

fn soft_after_all(soft_failure: bool, list: &ParamList) -> bool
    ensures { result ≡ soft_after_all soft_failure list.now }
{
    let mut soft_failure = soft_failure;
    for param in list.as_slice() {
        soft_failure = soft_after(soft_failure, param);
    }
    soft_failure
}

/// Overrides parameters at one component.
pub(crate) fn override_in<'a>(
    memory: Memory<'a>,
    list: &'a ParamList,
    component: u32,
    k: &mut Kept<'a>,
) -> Result<(), AllocError>
    requires room { component < 8 }
    ensures { OnOk result
        (Explores (λ identities. Overrides list.now component) (k.old ∷ []) (k.new ∷ []) []) }
{
    k.params.override_with(memory.alloc, component, list)?;
    k.history
        .add_sets(memory, Components::One(component), list)?;
    k.soft_failure = soft_after_all(k.soft_failure, list);
    Ok(())
}

/// Overrides the parameters in force of some components, in order.
pub(crate) fn override_all<'a>(
    alloc: Global,
    list: &'a ParamList,
    components: &[u32],
    params: &mut InForce<'a>,
) -> Result<(), AllocError>
    requires small { AreSmall components.now }
    ensures { OnOk result (params.new ≡ overridden_at params.old components.now list.now) }
{
    for component in components {
        params.override_with(alloc, *component, list)?;
    }
    Ok(())
}

/// Soft failure after an override at some components.
pub(crate) fn soft_at(soft_failure: bool, list: &ParamList, components: &[u32]) -> bool
    ensures { result ≡ soft_at soft_failure components.now list.now }
{
    let mut soft_failure = soft_failure;
    for _ in components {
        soft_failure = soft_after_all(soft_failure, list);
    }
    soft_failure
}

/// Overrides parameters at each selected component.
pub(crate) fn override_each_in<'a>(
    memory: Memory<'a>,
    list: &'a ParamList,
    k: &mut Kept<'a>,
) -> Result<(), AllocError>
    ensures { OnOk result
        (Explores
        (λ identities. Each (λ component. Overrides list.now component) k.old.state.selection)
        (k.old ∷ []) (k.new ∷ []) []) }
{
    let components = k.selection.listed(memory.alloc)?;
    override_all(memory.alloc, list, &components, &mut k.params)?;
    k.soft_failure = soft_at(k.soft_failure, list, &components);
    k.history.add_sets(memory, k.selection.components(), list)?;
    Ok(())
}

// ---- sharing between many states

/// While many states are kept, shares parameters that were overridden with equal ones that were made recently.
pub(crate) fn settle<'a>(memory: Memory<'a>, k: &mut Kept<'a>) -> Result<(), AllocError>
    ensures { OnOk result (k.new ≡ k.old) }
{
    if memory.is_crowded() && k.params.is_fresh() {
        k.params.share(memory)?;
    }
    Ok(())
}
