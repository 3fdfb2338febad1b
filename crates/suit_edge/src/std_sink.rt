//! Standard output.

ghost use Rattle.std.specs.Prelude.{◌≡◌, [], ℕ, false};

use crate::{Edge, Sink};
use std::marker::Model;

/// The standard output of the system. Its contracts do not say what was put.
#[derive(Drop)]
pub struct StdSink<R: Print + Drop> {
    rt: R,
    faults: u64,
}

impl<R: Print + Drop> Model for StdSink<R> {
    // the count of faults
    ghost Value = { ℕ };

    ghost view = { λ s. s.faults };
}

impl<R: Print + Drop> StdSink<R> {
    /// The standard output that the runtime reaches. Writes nothing yet.
    pub fn new(rt: R) -> StdSink<R>
        ensures { result ≡ 0 }
    {
        StdSink { rt, faults: 0 }
    }
}

impl<R: Print + Drop> Sink for StdSink<R> {
    ghost told = { false };

    ghost put_bytes = { λ _. [] };

    ghost faults = { λ s. s };

    fn put(&mut self, piece: &[u8]) -> Edge {
        match self.rt.write_all(piece) {
            Ok(()) => Edge::Done,
            Err(_) => {
                self.faults = self.faults.saturating_add(1);
                Edge::Failed
            }
        }
    }
}
