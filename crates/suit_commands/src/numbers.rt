//! How much work it is to judge a procedure: this project's own measures, by which it bounds that
//! work.

ghost use Rattle.std.specs.Prelude.{◌≡◌};
ghost use Rattle.suit_commands.specs.Capped.{capped};
ghost use Rattle.suit_commands.specs.NumberLaws.{NumberLaws};
ghost use Rattle.suit_commands.specs.Numbers.{work_number, spread_number, width_number};
ghost use Rattle.suit_commands.specs.Plans.{plan_tree};

use crate::Plan;
use crate::capped::product;
use crate::measure::Measure;

// The work and the spread of a procedure.
fn measured(plan: &Plan<'_>) -> Measure
    ensures work { result.work ≡ capped (work_number (plan_tree plan.now)) }
    ensures on { result.on ≡ capped (spread_number (plan_tree plan.now)) }
{
    let shared = Measure::of(plan.shared, plan.count);
    let first = shared.then(Measure::of(plan.first, plan.count));
    let second = shared.then(Measure::of(plan.second, plan.count));
    let third = shared.then(Measure::of(plan.third, plan.count));
    first.then(second).then(third)
}

/// The work of a procedure: the most commands that it executes. A command counts once for each
/// selected component, but a set component index only once. A run sequence or a try each counts
/// itself and everything inside; a try each counts all of its sequences. The shared sequence counts
/// before each member. Saturates at 64 bits.
pub fn work(plan: &Plan<'_>) -> u64
    ensures { result ≡ capped (work_number (plan_tree plan.now)) }
{
    measured(plan).work
}

/// The spread of a procedure: the most ways in which it completes, given that a condition may
/// succeed or fail, and that an inner sequence may end early. It is the product over the members,
/// each with the shared sequence before it. Saturates at 64 bits.
pub fn spread(plan: &Plan<'_>) -> u64
    ensures { result ≡ capped (spread_number (plan_tree plan.now)) }
{
    measured(plan).on
}

/// The width of a procedure: its work times its spread. Saturates at 64 bits.
pub fn width(plan: &Plan<'_>) -> u64
    ensures { result ≡ capped (width_number (plan_tree plan.now)) }
{
    let measure = measured(plan);
    product(measure.work, measure.on)
}

/// Does nothing. Its contract has the laws. Each sequence of a procedure completes in at least one
/// way, so the spread is at least 1 and the width is at least the work. The width is the work times
/// the spread.
pub fn number_laws()
    ensures { NumberLaws }
{}
