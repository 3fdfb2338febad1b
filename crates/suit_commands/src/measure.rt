//! The two counts of a part of a procedure: its work, and the ways in which it may complete.

ghost use Rattle.std.specs.Prelude.{◌≡◌, ◌+◌, ◌*◌};
ghost use Rattle.suit_commands.specs.Capped.{capped};
ghost use Rattle.suit_commands.specs.Numbers.{work_of, ways_of, start_ways};
ghost use Rattle.suit_commands.specs.Plans.{lent_tree};

use crate::Sequence;
use crate::capped::{plus, product};
use crate::ways_walk::sequence_ways;
use crate::work_walk::sequence_work;

/// How many commands a part executes, and in how many ways it may complete.
#[derive(Clone, Copy)]
pub(crate) struct Measure {
    pub work: u64,
    pub on: u64,
}

impl Measure {
    /// The measure of a sequence that begins with one component selected. An absent sequence counts
    /// as empty.
    pub(crate) fn of(sequence: Option<&Sequence>, count: u32) -> Measure
        ensures work { result.work ≡ capped (work_of (lent_tree sequence.entry) count 1) }
        ensures on { result.on
            ≡ capped ((ways_of (lent_tree sequence.entry) count 1 start_ways).on) }
    {
        match sequence {
            Some(sequence) => Measure {
                work: sequence_work(sequence, count),
                on: sequence_ways(sequence, count).on,
            },
            None => Measure { work: 0, on: 1 },
        }
    }

    /// The measure of this part followed by the next.
    pub(crate) fn then(self, next: Measure) -> Measure
        ensures work { result.work ≡ capped (self.work + next.work) }
        ensures on { result.on ≡ capped (self.on * next.on) }
    {
        Measure {
            work: plus(self.work, next.work),
            on: product(self.on, next.on),
        }
    }
}
