//! A trail in memory.

ghost use Rattle.std.specs.Prelude.{◌≡◌, ◌≤◌, ◌↔◌, [], IfOk, IsOk, length};

use arrayvec::{ArrayVec, CapacityError};
use flash_layout::Trail;
use std::marker::Model;
use suit_edge::{Disk, Edge};

/// The most outcomes that a trail in memory holds.
pub const MOST_OUTCOMES: usize = 64;

/// Outcomes in memory, of which the first few are recalled. They do not outlive a power loss.
#[derive(Drop)]
pub struct MemoryTrail {
    outcomes: ArrayVec<bool, MOST_OUTCOMES>,
    recalled: usize,
    ghost within: { recalled ≤ length outcomes.items },
}

impl Model for MemoryTrail {
    ghost use Rattle.std.specs.Prelude.{drop, take};
    ghost use Rattle.trail_tests.specs.TrailStates.{TrailState};

    ghost Value = { TrailState };

    ghost view = { λ t. record {
      left = drop t.recalled t.outcomes.items;
      list = take t.recalled t.outcomes.items;
    } };
}

impl MemoryTrail {
    /// A trail with these outcomes to recall.
    pub fn new(outcomes: &[bool]) -> Result<MemoryTrail, CapacityError>
        ensures fits { IsOk result ↔ (length outcomes.now ≤ MOST_OUTCOMES) }
        ensures made { IfOk result (λ trail. trail ≡ record { left = outcomes.now; list = [] }) }
    {
        let mut held = ArrayVec::new();
        held.try_extend_from_slice(outcomes)?;
        Ok(MemoryTrail {
            outcomes: held,
            recalled: 0,
        })
    }
}

impl Trail for MemoryTrail {
    ghost use Rattle.std.specs.Prelude.{[], Some, true};
    ghost use Rattle.trail_tests.specs.declared.memory_trail.TheConstants.{MOST_OUTCOMES};

    ghost told = { true };

    ghost silent = { true };

    ghost left = { λ trail. trail.left };

    ghost list = { λ trail. trail.list };

    ghost room = { λ trail. Some MOST_OUTCOMES };

    ghost ranges = { λ trail. [] };

    ghost holds = { λ trail outcomes image. Unit {0} };

    ghost rests = { λ trail outcomes image other same holds. tt };

    fn kept(&self) -> u64 {
        self.recalled as u64
    }

    fn recalled(&mut self) -> Option<bool> {
        let next = self.outcomes.as_slice().get(self.recalled).copied();
        if next.is_some() {
            self.recalled += 1;
        }
        next
    }

    fn keep<D: Disk>(&mut self, disk: &mut D, passed: bool) -> Edge {
        let _ = disk;
        self.outcomes.push(passed);
        self.recalled += 1;
        Edge::Done
    }
}
