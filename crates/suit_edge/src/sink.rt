//! Outputs for bytes.

ghost use Rattle.std.specs.Prelude.{ℕ, Bool, IsTrue, List};
ghost use Rattle.suit_edge.specs.Faults.{EdgeCounts};
ghost use Rattle.suit_edge.specs.Sink.{Puts};

use crate::Edge;

/// An output for bytes, such as standard output.
pub trait Sink {
    /// Whether `put_bytes` describes what was put.
    ghost told: { Bool };

    /// The bytes put so far.
    ghost put_bytes: { Self → List ℕ };

    /// The count of faults, which never falls.
    ghost faults: { Self → ℕ };

    /// Appends a piece to the output. After `Failed`, any number of the piece's first bytes may
    /// have been put.
    fn put(&mut self, piece: &[u8]) -> Edge
        ensures puts { IsTrue told
            → Puts result (put_bytes self.old) (put_bytes self.new) piece.now }
        ensures counts { EdgeCounts result (faults self.old) (faults self.new) };
}
