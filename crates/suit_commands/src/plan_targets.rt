//! Which components a procedure may write.

ghost use Rattle.std.specs.Prelude.{◌≡◌, ◌≤◌, ◌∷◌, [], ℕ, ◌↔◌, IsTrue};
ghost use Rattle.suit_commands.specs.Allowed.{IsPlan};
ghost use Rattle.suit_commands.specs.Bits.{HasBit};
ghost use Rattle.suit_commands.specs.Indexed.{AreIndexed};
ghost use Rattle.suit_commands.specs.NumberLaws.{TargetLaws};
ghost use Rattle.suit_commands.specs.Plans.{lent_tree, plan_tree};
ghost use Rattle.suit_commands.specs.Targets.{Writes, Swaps, Sources, InSome, IsTarget};

use crate::reach_walk::sequence_reach;
use crate::source_walk::sequence_sources;
use crate::swap_walk::has_swap;
use crate::{Plan, Sequence, Targets};

/// The components that a procedure of one to eight components may write: those selected at one of
/// its writes, fetches, copies or swaps and, if the procedure has a swap, those that one of its
/// overrides names as source. An inner sequence counts once for each component selected at its
/// command. Each target is one of the procedure's components.
pub fn targets(plan: &Plan<'_>) -> Targets
    requires { IsPlan (plan_tree plan.now) }
    ensures { (component : ℕ)
        → HasBit result.bits component ↔ IsTarget (plan_tree plan.now) component }
{
    let written = written_by(plan);
    if swaps_in(plan) {
        return Targets {
            bits: written | sources_in(plan),
        };
    }
    Targets { bits: written }
}

#[tactic(auto, using(crate::proofs::IndexedSteps::member_indexed, crate::proofs::IndexedSteps::shared_indexed))]
fn written_by(plan: &Plan<'_>) -> u32
    requires { IsPlan (plan_tree plan.now) }
    ensures { (component : ℕ)
        → HasBit result component
        ↔ InSome (plan_tree plan.now) (λ s. Writes s plan.now.count (0 ∷ []) component) }
{
    let shared = lent_written(plan.shared, plan.count);
    let first = lent_written(plan.first, plan.count);
    let second = lent_written(plan.second, plan.count);
    let third = lent_written(plan.third, plan.count);
    shared | (first | (second | third))
}

fn swaps_in(plan: &Plan<'_>) -> bool
    ensures { IsTrue result ↔ InSome (plan_tree plan.now) Swaps }
{
    lent_swaps(plan.shared)
        || lent_swaps(plan.first)
        || lent_swaps(plan.second)
        || lent_swaps(plan.third)
}

#[tactic(auto, using(crate::proofs::IndexedSteps::member_indexed, crate::proofs::IndexedSteps::shared_indexed))]
pub(crate) fn sources_in(plan: &Plan<'_>) -> u32
    requires { IsPlan (plan_tree plan.now) }
    ensures { (component : ℕ)
        → HasBit result component ↔ InSome (plan_tree plan.now) (λ s. Sources s component) }
{
    let shared = lent_sources(plan.shared, plan.count);
    let first = lent_sources(plan.first, plan.count);
    let second = lent_sources(plan.second, plan.count);
    let third = lent_sources(plan.third, plan.count);
    shared | (first | (second | third))
}

/// The components that a sequence writes if it begins with component 0 selected.
fn lent_written(sequence: Option<&Sequence>, count: u32) -> u32
    requires indexed { AreIndexed count (lent_tree sequence) }
    requires some { 1 ≤ count }
    requires few { count ≤ 8 }
    ensures { (component : ℕ)
        → HasBit result component ↔ Writes (lent_tree sequence.entry) count (0 ∷ []) component }
{
    match sequence {
        Some(sequence) => {
            let reach = sequence_reach(sequence, count);
            if reach.start {
                reach.fixed | 1
            } else {
                reach.fixed
            }
        }
        None => 0,
    }
}

fn lent_swaps(sequence: Option<&Sequence>) -> bool
    ensures { IsTrue result ↔ Swaps (lent_tree sequence.entry) }
{
    match sequence {
        Some(sequence) => has_swap(sequence),
        None => false,
    }
}

fn lent_sources(sequence: Option<&Sequence>, count: u32) -> u32
    requires indexed { AreIndexed count (lent_tree sequence) }
    requires few { count ≤ 8 }
    ensures { (component : ℕ)
        → HasBit result component ↔ Sources (lent_tree sequence.entry) component }
{
    match sequence {
        Some(sequence) => sequence_sources(sequence, count),
        None => 0,
    }
}

/// Does nothing. Its contract has the law: each target of a procedure is a component of the
/// manifest.
pub fn target_laws()
    ensures { TargetLaws }
{}
