//! Whether the two procedures of a manifest may be run.

ghost use Rattle.std.specs.Prelude.{◌≡◌, ◌≢◌, ◌⊎◌, ◌<◌, ◌^◌, IfErr, IsErrAnd, IsOk, length};
ghost use Rattle.suit_commands.specs.Allowed.{IsPlan};
ghost use Rattle.suit_commands.specs.Plans.{plan_tree};
ghost use Rattle.suit_commands.specs.Tree.{PlanTree};
ghost use Rattle.suit_manifest.specs.Procedures.{invocation_tree, update_tree};
ghost use Rattle.path_model.specs.BadPaths.{IsBadPath};
ghost use Rattle.path_model.specs.Safe.{Safe};
ghost use Rattle.admission.specs.AdmissionLaws.{JudgeAlike};
ghost use Rattle.admission.specs.Judging.{AreSafe, IsNarrow, IsNotSafe, MayNotRun, MayRun};
ghost use Rattle.admission.specs.declared.refusal.NotSafe.{NotSafe};
ghost use Rattle.admission.specs.declared.refusal.NotSafe.TheVariants.{NoMemory};

use crate::{NotSafe, Procedure, admission_laws};
use path_checker::{CheckVerdict, check};
use path_model::BadPath;
use std::alloc::Global;
use suit_commands::{Plan, width};
use suit_manifest::{Manifest, Members, invocation_plan, update_plan};

/// The largest width of a procedure that is judged.
pub const WIDEST: u64 = 4_194_304;

// Judges the invocation, once the update is known to be safe.
fn judge_invocation(alloc: Global, invocation: &Plan<'_>) -> Result<(), NotSafe>
    requires { IsPlan (plan_tree invocation.now) }
    ensures safe { IsOk result
        → (update : PlanTree) → IsNarrow update → Safe update
        → AreSafe update (plan_tree invocation.now) }
    ensures refused { IfErr result
        (λ e. e ≢ NoMemory → (update : PlanTree) → IsNarrow update → Safe update
        → IsNotSafe update (plan_tree invocation.now) e) }
{
    let procedure = Procedure::Invocation;
    match check(alloc, invocation) {
        CheckVerdict::Safe => Ok(()),
        CheckVerdict::TooWide(width) => Err(NotSafe::TooWide { procedure, width }),
        CheckVerdict::Unsafe(path) => Err(NotSafe::Unsafe { procedure, path }),
        CheckVerdict::NoMemory => Err(NotSafe::NoMemory),
    }
}

// Why an update with an uncovered path is refused. An invocation that is too wide is told before that path.
fn refuse_update(invocation: &Plan<'_>, path: BadPath) -> NotSafe
    ensures { (update : PlanTree) → IsNarrow update → IsBadPath update path
        → IsNotSafe update (plan_tree invocation.now) result }
{
    let width = width(invocation);
    if width > WIDEST {
        NotSafe::TooWide {
            procedure: Procedure::Invocation,
            width,
        }
    } else {
        NotSafe::Unsafe {
            procedure: Procedure::Update,
            path,
        }
    }
}

// Judges the update. If a path of it is not covered, the width of the invocation is judged before that is told.
fn judge_update(alloc: Global, manifest: &Manifest, members: &Members) -> Result<(), NotSafe>
    requires components { length manifest.now.components < 2 ^ 32 }
    requires plan { IsPlan (update_tree manifest.now members.now) }
    ensures narrow { IsOk result → IsNarrow (update_tree manifest.now members.now) }
    ensures safe { IsOk result → Safe (update_tree manifest.now members.now) }
    ensures refused { IfErr result
        (λ e. e ≢ NoMemory → MayNotRun manifest.now members.now e) }
{
    let update = update_plan(manifest, members);
    let invocation = invocation_plan(manifest);
    match check(alloc, &update) {
        CheckVerdict::Safe => Ok(()),
        CheckVerdict::TooWide(width) => Err(NotSafe::TooWide {
            procedure: Procedure::Update,
            width,
        }),
        CheckVerdict::Unsafe(path) => Err(refuse_update(&invocation, path)),
        CheckVerdict::NoMemory => Err(NotSafe::NoMemory),
    }
}

/// Does the work of `judge`, but keeps the members.
pub(crate) fn judge_both(
    alloc: Global,
    manifest: &Manifest,
    members: &Members,
) -> Result<(), NotSafe>
    requires components { length manifest.now.components < 2 ^ 32 }
    requires update { IsPlan (update_tree manifest.now members.now) }
    requires invocation { IsPlan (invocation_tree manifest.now) }
    ensures safe { IsOk result → MayRun manifest.now members.now }
    ensures refused { IfErr result
        (λ e. e ≢ NoMemory → MayNotRun manifest.now members.now e) }
{
    judge_update(alloc, manifest, members)?;
    judge_invocation(alloc, &invocation_plan(manifest))
}

// Does the work of `judge`.
fn judge_in_turn(alloc: Global, manifest: &Manifest, members: Members) -> Result<(), NotSafe>
    requires components { length manifest.now.components < 2 ^ 32 }
    requires update { IsPlan (update_tree manifest.now members) }
    requires invocation { IsPlan (invocation_tree manifest.now) }
    ensures safe { IsOk result → MayRun manifest.now members }
    ensures refused { IfErr result (λ e. e ≢ NoMemory → MayNotRun manifest.now members e) }
{
    judge_update(alloc, manifest, &members)?;
    drop(members);
    judge_invocation(alloc, &invocation_plan(manifest))
}

/// Judges both procedures of a manifest: first the width of the update and that of the invocation, and then their paths
/// in the same order.
///
/// Each width is counted once. `NoMemory` says nothing but that the update is not too wide. The members are freed
/// before the invocation is judged.
pub fn judge(alloc: Global, manifest: &Manifest, members: Members) -> Result<(), NotSafe>
    requires components { length manifest.now.components < 2 ^ 32 }
    requires update { IsPlan (update_tree manifest.now members) }
    requires invocation { IsPlan (invocation_tree manifest.now) }
    ensures safe { IsOk result → MayRun manifest.now members }
    ensures refused { IfErr result (λ e. e ≢ NoMemory → MayNotRun manifest.now members e) }
    ensures every_safe { MayRun manifest.now members → IfErr result (λ e. e ≡ NoMemory) }
    ensures every_refusal { (r : NotSafe) → MayNotRun manifest.now members r
        → IsErrAnd result (λ e. JudgeAlike e r ⊎ (e ≡ NoMemory)) }
{
    admission_laws();
    judge_in_turn(alloc, manifest, members)
}
