//! The judgement of a whole procedure, over all commands.

ghost use Rattle.std.specs.Prelude.{◌≡◌, None, IfOk};
ghost use Rattle.suit_commands.specs.Allowed.{IsPlan};
ghost use Rattle.suit_commands.specs.Plans.{plan_tree};
ghost use Rattle.path_model.specs.Safe.{Safe};
ghost use Rattle.path_checker.specs.Procedures.{ArePlan};
ghost use Rattle.path_checker.specs.PlanVerdicts.{Tells, Judges, JudgesPlan};

mod choice;
mod conditions;
mod directives;
mod facts;
mod failing;
mod failures;
mod fingerprint;
mod halt;
mod happened;
mod held;
mod history;
mod in_force;
mod in_place;
mod inner;
mod invoking;
mod kept;
mod known;
mod lending;
mod links;
mod made;
mod mark;
mod matches;
mod memory;
mod merged;
mod misses;
mod outermost;
mod overriding;
mod past;
mod procedure_walk;
mod rest;
mod reuse;
mod salt;
mod same_param;
mod selected;
mod sets;
mod site;
mod spelling;
mod standing;
mod stated;
mod straight;
mod telling;
mod trail;
mod turn;
mod unconditional;
mod walk;
mod wide_try;

use bumpalo::Bump;
use choice::chosen_identities;
use halt::Halt;
use kept::Kept;
use memory::{COMPARED, Memory};
use misses::Misses;
use path_model::BadPath;
use procedure_walk::{first, first_recorded, invokes, path, procedure};
use salt::salt_of;
use std::alloc::{AllocError, Global};
use std::cell::Cell;
use suit_commands::{Plan, width};

// Wider procedures than this are not judged.
const WIDEST: u64 = 4_194_304;

// The initial capacity of an arena in bytes: enough for a small procedure.
const ROOM: usize = 900;

/// The verdict on a whole procedure.
#[derive(Debug, Drop)]
pub enum CheckVerdict {
    /// Each invoke is covered on each path, for all identities.
    Safe,
    /// The last event of this path is an invoke that is not covered.
    Unsafe(BadPath),
    /// The procedure is too wide to judge. Holds its width, saturated at 64 bits.
    TooWide(u64),
    /// Memory ran out.
    NoMemory,
}

// Builds the verdict for a state whose last event is an uncovered invoke: its events, which were recorded, and identities
// for which they are a path.
fn verdict_on(alloc: Global, k: Kept<'_>) -> CheckVerdict
    ensures { Tells k.entry result }
{
    let Ok(identities) = chosen_identities(alloc, &k.facts) else {
        return CheckVerdict::NoMemory;
    };
    match k.history.recorded() {
        Some(events) => CheckVerdict::Unsafe(BadPath { identities, events }),
        None => CheckVerdict::NoMemory,
    }
}

// Judges a procedure in the given memory. Returns `None` if it is safe, and otherwise which conditions fail on a path to an
// uncovered invoke.
fn judge_in<'a>(memory: Memory<'a>, plan: Plan<'a>) -> Result<Option<Vec<u64>>, AllocError>
    requires { ArePlan (plan_tree plan) }
    ensures { IfOk result (λ misses. misses ≡ None → Safe (plan_tree plan.entry)) }
{
    let from = first(memory, plan.count)?;
    match procedure(memory, &plan, from) {
        Ok(_) => Ok(None),
        Err(Halt::NoMemory) => Err(AllocError),
        Err(Halt::Uncovered(k)) => Ok(Some(k.into_kept().history.into_misses())),
    }
}

// Follows the path on which these conditions fail, up to an uncovered invoke.
fn spell_in<'a>(memory: Memory<'a>, plan: Plan<'a>, misses: &[u64]) -> CheckVerdict
    requires { ArePlan (plan_tree plan) }
    ensures { Judges (plan_tree plan.entry) result }
{
    let Ok(from) = first_recorded(memory, plan.count) else {
        return CheckVerdict::NoMemory;
    };
    match path(memory, &plan, &Misses::new(misses), from) {
        Err(Halt::Uncovered(k)) => verdict_on(memory.alloc, k.into_kept()),
        _ => CheckVerdict::NoMemory,
    }
}

// Judges a procedure, with an arena for what states share. `left` is what may be spent on comparing states.
fn judge_with<'a>(
    alloc: Global,
    shared: &'a Bump,
    left: &'a Cell<u64>,
    plan: Plan<'a>,
) -> Result<Option<Vec<u64>>, AllocError>
    requires { ArePlan (plan_tree plan) }
    ensures { IfOk result (λ misses. misses ≡ None → Safe (plan_tree plan.entry)) }
{
    let memory = Memory::new(alloc, shared, left, salt_of(&plan))?;
    let misses = judge_in(memory, plan);
    memory.release();
    misses
}

// Follows a path, with an arena as in `judge_with`.
fn spell_with<'a>(
    alloc: Global,
    shared: &'a Bump,
    left: &'a Cell<u64>,
    plan: Plan<'a>,
    misses: &[u64],
) -> CheckVerdict
    requires { ArePlan (plan_tree plan) }
    ensures { Judges (plan_tree plan.entry) result }
{
    let Ok(memory) = Memory::new(alloc, shared, left, salt_of(&plan)) else {
        return CheckVerdict::NoMemory;
    };
    let verdict = spell_in(memory, plan, misses);
    memory.release();
    verdict
}

// Judges a procedure in memory that is freed afterwards.
fn judged(alloc: Global, plan: &Plan<'_>) -> Result<Option<Vec<u64>>, AllocError>
    requires { ArePlan (plan_tree plan.now) }
    ensures { IfOk result (λ misses. misses ≡ None → Safe (plan_tree plan.now)) }
{
    let Ok(shared) = Bump::try_with_capacity(alloc, ROOM) else {
        return Err(AllocError);
    };
    let left = Cell::new(COMPARED);
    judge_with(alloc, &shared, &left, *plan)
}

// Follows a path in memory that is freed afterwards.
fn spelled(alloc: Global, plan: &Plan<'_>, misses: &[u64]) -> CheckVerdict
    requires { ArePlan (plan_tree plan.now) }
    ensures { Judges (plan_tree plan.now) result }
{
    let Ok(shared) = Bump::try_with_capacity(alloc, ROOM) else {
        return CheckVerdict::NoMemory;
    };
    let left = Cell::new(COMPARED);
    spell_with(alloc, &shared, &left, *plan, misses)
}

// Judges a procedure. One without an invoke is safe, and takes no memory. The path of one that is not safe is followed a
// second time, and only then are its events recorded.
fn judge(alloc: Global, plan: &Plan<'_>) -> CheckVerdict
    requires { ArePlan (plan_tree plan.now) }
    ensures { Judges (plan_tree plan.now) result }
{
    if !invokes(plan) {
        return CheckVerdict::Safe;
    }
    match judged(alloc, plan) {
        Ok(None) => CheckVerdict::Safe,
        Ok(Some(misses)) => spelled(alloc, plan, &misses),
        Err(_) => CheckVerdict::NoMemory,
    }
}

/// Judges a procedure for all identities of its components (draft-ietf-suit-manifest-25, section 6.4).
///
/// A procedure whose width, its work times its spread, is above 4,194,304 is `TooWide`. Any other is `Safe` if each
/// invoke on each path is covered, and `Unsafe` if not, with a path whose last event is its first uncovered invoke and
/// with identities for which it is a path. `NoMemory` says nothing but that the procedure is not too wide.
pub fn check(alloc: Global, plan: &Plan<'_>) -> CheckVerdict
    requires { IsPlan (plan_tree plan.now) }
    ensures judged { JudgesPlan (plan_tree plan.now) result }
{
    let width = width(plan);
    if width > WIDEST {
        return CheckVerdict::TooWide(width);
    }
    judge(alloc, plan)
}
