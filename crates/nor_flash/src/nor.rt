//! NOR flash: a program only clears bits.

ghost use Rattle.nor_flash.specs.Blocks.{IsDeviceSize, IsErased, OutsideBlock, cleared};
ghost use Rattle.nor_flash.specs.Rises.{Rises};
ghost use Rattle.std.specs.Prelude.{◌≡◌, ◌+◌, ◌*◌, ◌%◌, ◌≤◌, ℕ, Bool, length, slice_range, IsTrue};
ghost use Rattle.suit_edge.specs.Edge.{IfDone};
ghost use Rattle.suit_edge.specs.Faults.{EdgeCounts};
ghost use Rattle.suit_edge.specs.Flash.{Flash, Grows, IsFlash, IsSame, IsSettled, Keeps};
ghost use Rattle.suit_edge.specs.Ranges.{AreBytes, Outside};

use suit_edge::Edge;

/// NOR flash in blocks of 4,096 bytes. A call that succeeds is durable at once.
pub trait Nor {
    /// Whether the contracts of this type say what a device holds.
    ghost told: { Bool };

    /// What reads return, and what a power loss may leave.
    ghost flash: { Self → Flash };

    /// The size in bytes, which no call changes.
    ghost extent: { Self → ℕ };

    /// How often a call has failed.
    ghost faults: { Self → ℕ };

    /// How many erases were attempted.
    ghost erases: { Self → ℕ };

    /// The size in bytes.
    fn size(&self) -> u64
        ensures value { result ≡ extent self.now }
        ensures shape { IsDeviceSize (extent self.now) };

    /// Fills `room` with the bytes from `place` on. If it fails, `room` may hold any bytes.
    fn read_at(&mut self, place: u64, room: &mut [u8]) -> Edge
        requires { place + length room.old ≤ extent self.old }
        ensures size { extent self.new ≡ extent self.old }
        ensures counts { EdgeCounts result (faults self.old) (faults self.new) }
        ensures bytes { IsTrue told
            → IfDone result
            (room.new ≡ slice_range (flash self.old).reads place (place + length room.old)) }
        ensures same { IsTrue told → IsSame (flash self.old) (flash self.new) }
        ensures grows { IsTrue told → Grows (flash self.old) (flash self.new) }
        ensures erases { IsTrue told → erases self.new ≡ erases self.old };

    /// Clears, in the bytes from `place` on, all bits that are not set in `bytes`. The range lies
    /// in one block. If it fails, the range may hold any bytes.
    fn program(&mut self, place: u64, bytes: &[u8]) -> Edge
        requires fits { place + length bytes.now ≤ extent self.old }
        requires block { place % 4096 + length bytes.now ≤ 4096 }
        ensures size { extent self.new ≡ extent self.old }
        ensures counts { EdgeCounts result (faults self.old) (faults self.new) }
        ensures cleared { IsTrue told
            → IfDone result
            ((flash self.new).reads ≡ cleared (flash self.old).reads place bytes.now) }
        ensures keeps { IsTrue told
            → Keeps (Outside place (length bytes.now)) (flash self.old) (flash self.new) }
        ensures grows { IsTrue told → Grows (flash self.old) (flash self.new) }
        ensures erases { IsTrue told → erases self.new ≡ erases self.old };

    /// Sets all bytes of the block to 0xFF. If it fails, the block may hold any bytes.
    fn erase(&mut self, block: u64) -> Edge
        requires { 4096 * block + 4096 ≤ extent self.old }
        ensures size { extent self.new ≡ extent self.old }
        ensures counts { EdgeCounts result (faults self.old) (faults self.new) }
        ensures erased { IsTrue told → IfDone result (IsErased block (flash self.new).reads) }
        ensures keeps { IsTrue told → Keeps (OutsideBlock block) (flash self.old) (flash self.new) }
        ensures grows { IsTrue told → Grows (flash self.old) (flash self.new) }
        ensures erases { IsTrue told → Rises (erases self.old) (erases self.new) };

    ghost obeys: { (nor : Self) → IsTrue told → IsFlash (flash nor) (extent nor) };

    /// Nothing is pending between calls.
    ghost rests: { (nor : Self) → IsTrue told → IsSettled (flash nor) };

    /// What reads return are bytes.
    ghost cells: { (nor : Self) → IsTrue told → AreBytes (flash nor).reads };
}
