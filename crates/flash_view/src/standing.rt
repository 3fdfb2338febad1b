//! Whether a disk holds given bytes.

ghost use Rattle.flash_view.specs.Standing.{IsStood, StoodCounts};
ghost use Rattle.std.specs.Prelude.{◌≡◌, ◌+◌, ◌≤◌, IsTrue, length, slice_range};
ghost use Rattle.suit_edge.specs.Flash.{Grows, IsSame};

use lane_bytes::same;
use suit_edge::{Disk, Edge};

/// How many bytes are compared at once.
const PIECE: usize = 64;

/// Whether a range of a disk holds given bytes.
#[derive(Clone, Copy, Debug, PartialEq, Eq)]
pub(crate) enum Stood {
    /// It does.
    Same,
    /// A byte differs.
    Differs,
    /// The disk failed, and its count of faults rose.
    DiskFailed,
}

/// Whether the disk holds these bytes from `place` on.
pub(crate) fn stands<D: Disk>(disk: &mut D, place: u64, bytes: &[u8]) -> Stood
    requires { place + length bytes.now ≤ D.extent disk.old }
    ensures size { D.extent disk.new ≡ D.extent disk.old }
    ensures counts { StoodCounts result (D.faults disk.old) (D.faults disk.new) }
    ensures stood { IsTrue D.told
        → IsStood result bytes.now
        (slice_range (D.flash disk.old).reads place (place + length bytes.now)) }
    ensures same { IsTrue D.told → IsSame (D.flash disk.old) (D.flash disk.new) }
    ensures grows { IsTrue D.told → Grows (D.flash disk.old) (D.flash disk.new) }
{
    // The size fits a `u64`, and so does each place. The proof learns it here.
    let _size = disk.size();
    let mut room = [0u8; PIECE];
    let mut done: usize = 0;
    while done < bytes.len() {
        let count = (bytes.len() - done).min(PIECE);
        match disk.read_at(place + done as u64, &mut room[..count]) {
            Edge::Done => {}
            Edge::Failed => return Stood::DiskFailed,
        }
        if !same(&room[..count], &bytes[done..done + count]) {
            return Stood::Differs;
        }
        done += count;
    }
    Stood::Same
}
