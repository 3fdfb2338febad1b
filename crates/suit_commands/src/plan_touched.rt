//! Which components a procedure touches, and whether it has an invoke.

ghost use Rattle.std.specs.Prelude.{◌≡◌, ◌≤◌, ◌∷◌, [], ℕ, ◌↔◌, IsTrue};
ghost use Rattle.suit_commands.specs.Allowed.{IsPlan};
ghost use Rattle.suit_commands.specs.Bits.{HasBit};
ghost use Rattle.suit_commands.specs.Indexed.{AreIndexed};
ghost use Rattle.suit_commands.specs.Plans.{lent_tree, plan_tree};
ghost use Rattle.suit_commands.specs.Targets.{InSome};
ghost use Rattle.suit_commands.specs.Touches.{Touches, IsTouched, HasAct, TouchedLaws};
ghost use Rattle.suit_commands.specs.declared.kinds.ActKind.TheVariants.{Invoke};

use crate::act_walk::has_act;
use crate::plan_targets::sources_in;
use crate::touched_walk::sequence_touched;
use crate::{ActKind, Plan, Sequence, Targets};

/// The components that a procedure of one to eight components touches: those selected at one of its
/// commands other than a set component index, and those that one of its overrides names as source.
/// An inner sequence counts once for each component selected at its command.
pub fn touched(plan: &Plan<'_>) -> Targets
    requires { IsPlan (plan_tree plan.now) }
    ensures { (component : ℕ)
        → HasBit result.bits component ↔ IsTouched (plan_tree plan.now) component }
{
    Targets {
        bits: selected_in(plan) | sources_in(plan),
    }
}

#[tactic(auto, using(crate::proofs::IndexedSteps::member_indexed, crate::proofs::IndexedSteps::shared_indexed))]
fn selected_in(plan: &Plan<'_>) -> u32
    requires { IsPlan (plan_tree plan.now) }
    ensures { (component : ℕ)
        → HasBit result component
        ↔ InSome (plan_tree plan.now) (λ s. Touches s plan.now.count (0 ∷ []) component) }
{
    let shared = lent_touched(plan.shared, plan.count);
    let first = lent_touched(plan.first, plan.count);
    let second = lent_touched(plan.second, plan.count);
    let third = lent_touched(plan.third, plan.count);
    shared | (first | (second | third))
}

/// The components that a sequence touches if it begins with component 0 selected.
fn lent_touched(sequence: Option<&Sequence>, count: u32) -> u32
    requires indexed { AreIndexed count (lent_tree sequence) }
    requires some { 1 ≤ count }
    requires few { count ≤ 8 }
    ensures { (component : ℕ)
        → HasBit result component ↔ Touches (lent_tree sequence.entry) count (0 ∷ []) component }
{
    match sequence {
        Some(sequence) => sequence_touched(sequence, count, 1),
        None => 0,
    }
}

/// Whether one of the procedure's sequences, or a sequence inside them, has an invoke.
pub fn invokes(plan: &Plan<'_>) -> bool
    ensures { IsTrue result ↔ InSome (plan_tree plan.now) (HasAct Invoke) }
{
    lent_invokes(plan.shared)
        || lent_invokes(plan.first)
        || lent_invokes(plan.second)
        || lent_invokes(plan.third)
}

fn lent_invokes(sequence: Option<&Sequence>) -> bool
    ensures { IsTrue result ↔ HasAct Invoke (lent_tree sequence.entry) }
{
    match sequence {
        Some(sequence) => has_act(sequence, ActKind::Invoke),
        None => false,
    }
}

/// Does nothing. Its contract has the laws: what a procedure touches is a component of the
/// manifest, and each of its targets is touched.
pub fn touched_laws()
    ensures { TouchedLaws }
{}
