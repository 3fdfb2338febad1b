//! Counts of faults.

ghost use Rattle.suit_edge.specs.Faults.{EdgeCounts, Faulted};

use suit_edge::Edge;

/// Counts a fault.
pub(crate) fn fails(faults: &mut u64)
    ensures { Faulted faults.old faults.new }
{
    *faults = faults.saturating_add(1);
}

/// Counts a failure as a fault.
pub(crate) fn counts(faults: &mut u64, done: bool) -> Edge
    ensures { EdgeCounts result faults.old faults.new }
{
    if done {
        return Edge::Done;
    }
    fails(faults);
    Edge::Failed
}
