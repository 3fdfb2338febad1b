//! A disk that can lose power at any moment.

ghost use Rattle.std.specs.Prelude.{◌≡◌, ◌+◌, ◌≤◌, ℕ, Bool, length, slice_range, IsTrue};
ghost use Rattle.suit_edge.specs.Edge.{IfDone};
ghost use Rattle.suit_edge.specs.Faults.{EdgeCounts};
ghost use Rattle.suit_edge.specs.Flash.{Flash, Grows, IsFlash, IsSame, IsSettled, Keeps};
ghost use Rattle.suit_edge.specs.Ranges.{Outside, written};

use crate::Edge;

/// Storage whose bytes survive a power loss once they are synced.
pub trait Disk {
    /// Whether the contracts of this type say what a disk holds.
    ghost told: { Bool };

    /// What reads return, and what a power loss may leave.
    ghost flash: { Self → Flash };

    /// The size in bytes, which no call changes.
    ghost extent: { Self → ℕ };

    /// How often a call has failed.
    ghost faults: { Self → ℕ };

    /// The size in bytes.
    fn size(&self) -> u64
        ensures { result ≡ extent self.now };

    /// Fills `room` with the bytes from `place` on. If it fails, `room` may hold any bytes.
    fn read_at(&mut self, place: u64, room: &mut [u8]) -> Edge
        requires { place + length room.old ≤ extent self.old }
        ensures size { extent self.new ≡ extent self.old }
        ensures counts { EdgeCounts result (faults self.old) (faults self.new) }
        ensures bytes { IsTrue told
            → IfDone result
            (room.new ≡ slice_range (flash self.old).reads place (place + length room.old)) }
        ensures same { IsTrue told → IsSame (flash self.old) (flash self.new) }
        ensures grows { IsTrue told → Grows (flash self.old) (flash self.new) };

    /// Writes the bytes from `place` on. They are durable only after a `sync`. If it fails, the
    /// range may hold any bytes.
    fn write_at(&mut self, place: u64, bytes: &[u8]) -> Edge
        requires { place + length bytes.now ≤ extent self.old }
        ensures size { extent self.new ≡ extent self.old }
        ensures counts { EdgeCounts result (faults self.old) (faults self.new) }
        ensures written { IsTrue told
            → IfDone result
            ((flash self.new).reads ≡ written (flash self.old).reads place bytes.now) }
        ensures keeps { IsTrue told
            → Keeps (Outside place (length bytes.now)) (flash self.old) (flash self.new) }
        ensures grows { IsTrue told → Grows (flash self.old) (flash self.new) };

    /// Makes everything written so far durable. If it fails, reads return the same bytes, and what
    /// was not durable may still be lost.
    fn sync(&mut self) -> Edge
        ensures size { extent self.new ≡ extent self.old }
        ensures counts { EdgeCounts result (faults self.old) (faults self.new) }
        ensures settled { IsTrue told → IfDone result (IsSettled (flash self.new)) }
        ensures same { IsTrue told → IsSame (flash self.old) (flash self.new) }
        ensures grows { IsTrue told → Grows (flash self.old) (flash self.new) };

    ghost obeys: { (disk : Self) → IsTrue told → IsFlash (flash disk) (extent disk) };
}
