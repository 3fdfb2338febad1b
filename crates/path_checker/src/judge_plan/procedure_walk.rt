//! The walk through a procedure: the shared sequence before each of the three members.

ghost use Rattle.std.specs.Prelude.{◌≡◌, ◌↔◌, [], ◌∷◌, IsTrue, IfOk, IfErr, OnOk};
ghost use Rattle.suit_commands.specs.Plans.{plan_tree};
ghost use Rattle.path_model.specs.Path.{RunsPlan};
ghost use Rattle.path_checker.specs.Invoking.{Covers};
ghost use Rattle.path_checker.specs.Procedures.{ThirdInvokes, SecondInvokes, FirstInvokes, ArePlan, first_kept};
ghost use Rattle.path_checker.specs.Halting.{Halts};

use crate::judge_plan::facts::Facts;
use crate::judge_plan::halt::Halt;
use crate::judge_plan::history::History;
use crate::judge_plan::in_force::InForce;
use crate::judge_plan::inner::only;
use crate::judge_plan::invoking::lent_invokes;
use crate::judge_plan::kept::Kept;
use crate::judge_plan::memory::Memory;
use crate::judge_plan::misses::Misses;
use crate::judge_plan::outermost::parts;
use crate::judge_plan::selected::Selected;
use crate::judge_plan::spelling::{Way, spell};
use std::alloc::AllocError;
use suit_commands::Plan;

// The state in which a procedure of `count` components begins.
fn begun<'a>(memory: Memory<'a>, count: u32, history: History<'a>) -> Result<Kept<'a>, AllocError>
    requires none { history ≡ [] }
    ensures { IfOk result (λ k. k ≡ first_kept count) }
{
    let alloc = memory.alloc;
    let facts = Facts::unknown(alloc, count)?;
    let params = InForce::new(alloc)?;
    Ok(Kept {
        facts,
        history,
        params,
        selection: Selected::one(0),
        soft_failure: false,
    })
}

/// A list of the one state in which a procedure of `count` components begins.
pub(crate) fn first<'a>(memory: Memory<'a>, count: u32) -> Result<Vec<Kept<'a>>, AllocError>
    ensures { IfOk result (λ v. v.items ≡ first_kept count ∷ []) }
{
    let k = begun(memory, count, History::new(memory.alloc))?;
    only(memory.alloc, k)
}

/// The state in which a procedure of `count` components begins. What happens then is recorded.
pub(crate) fn first_recorded<'a>(memory: Memory<'a>, count: u32) -> Result<Kept<'a>, AllocError>
    ensures { IfOk result (λ k. k ≡ first_kept count) }
{
    let history = History::recording(memory.alloc)?;
    begun(memory, count, history)
}

// ---- whether the rest of a procedure holds an invoke

fn third_invokes(plan: &Plan<'_>) -> bool
    ensures { IsTrue result ↔ ThirdInvokes (plan_tree plan.now) }
{
    lent_invokes(plan.shared) || lent_invokes(plan.third)
}

fn second_invokes(plan: &Plan<'_>) -> bool
    ensures { IsTrue result ↔ SecondInvokes (plan_tree plan.now) }
{
    lent_invokes(plan.second) || third_invokes(plan)
}

/// Whether a procedure holds an invoke.
pub(crate) fn invokes(plan: &Plan<'_>) -> bool
    ensures { IsTrue result ↔ FirstInvokes (plan_tree plan.now) }
{
    lent_invokes(plan.first) || second_invokes(plan)
}

/// Runs a procedure that holds an invoke from each of the states. Parts after the last one with an invoke are left out.
pub(crate) fn procedure<'a>(
    memory: Memory<'a>,
    plan: &Plan<'a>,
    from: Vec<Kept<'a>>,
) -> Result<(), Halt<'a>>
    requires { ArePlan (plan_tree plan.now) }
    ensures ok { OnOk result (Covers (RunsPlan (plan_tree plan.now)) from.entry.items) }
    ensures err { IfErr result (λ h. Halts (RunsPlan (plan_tree plan.now)) from.entry.items h) }
{
    let (shared, first, second, third) = (plan.shared, plan.first, plan.second, plan.third);
    if third_invokes(plan) {
        let all = [shared, first, shared, second, shared, third];
        return parts(memory, plan.count, &all, from);
    }
    if second_invokes(plan) {
        return parts(memory, plan.count, &[shared, first, shared, second], from);
    }
    parts(memory, plan.count, &[shared, first], from)
}

/// Follows the path of a procedure on which these conditions fail. Returns an error at its first uncovered invoke.
pub(crate) fn path<'a>(
    memory: Memory<'a>,
    plan: &Plan<'a>,
    misses: &Misses<'_>,
    from: Kept<'a>,
) -> Result<(), Halt<'a>>
    requires { ArePlan (plan_tree plan.now) }
    ensures { IfErr result (λ h. Halts (RunsPlan (plan_tree plan.now)) (from.entry ∷ []) h) }
{
    let (shared, first, second, third) = (plan.shared, plan.first, plan.second, plan.third);
    let all = [shared, first, shared, second, shared, third];
    let way = Way { memory, misses };
    spell(way, plan.count, &all, from)
}
