//! A host without files.

ghost use Rattle.std.specs.Prelude.{◌≡◌, ℕ, false};

use std::marker::Model;
use suit_edge::{Edge, Host, Pulled, Started};

/// A host without files: every file is absent, and every store fails.
#[derive(Drop)]
pub struct NoFiles {
    faults: u64,
}

impl Model for NoFiles {
    // the count of faults
    ghost Value = { ℕ };

    ghost view = { λ h. h.faults };
}

impl NoFiles {
    /// A host of which no call has failed.
    pub fn new() -> NoFiles
        ensures { result ≡ 0 }
    {
        NoFiles { faults: 0 }
    }
}

impl Host for NoFiles {
    ghost told = { false };

    ghost faults = { λ h. h };

    fn start(&mut self, _name: &str) -> Started {
        Started::Absent
    }

    fn pull(&mut self, _room: &mut [u8]) -> Pulled {
        Pulled::Got(0)
    }

    fn store(&mut self, _name: &str, _bytes: &[u8]) -> Edge {
        self.faults = self.faults.saturating_add(1);
        Edge::Failed
    }
}
