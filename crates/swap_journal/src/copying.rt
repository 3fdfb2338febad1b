//! Making the copies of an exchange on a disk.

ghost use Rattle.std.specs.Prelude.{◌≡◌, ◌<◌, ◌≤◌, ◌+◌, length, IsTrue};
ghost use Rattle.suit_edge.specs.Edge.{IfDone};
ghost use Rattle.suit_edge.specs.Faults.{EdgeCounts};
ghost use Rattle.suit_edge.specs.Flash.{Grows, IsSettled, Keeps, Passes};
ghost use Rattle.suit_edge.specs.Ranges.{Outside, OutsideEach};
ghost use Rattle.swap_journal.specs.Exchanges.{AreApart, FitsDisk, IsCopy, RecoversSame, areas, copies};

use crate::Exchange;
use suit_edge::{Disk, Edge, write_and_sync};

// Copies as many bytes as `room` has, and syncs them.
fn copy_range<D: Disk>(disk: &mut D, from: u64, to: u64, room: &mut [u8]) -> Edge
    requires from { from + length room.old ≤ D.extent disk.old }
    requires to { to + length room.old ≤ D.extent disk.old }
    ensures size { D.extent disk.new ≡ D.extent disk.old }
    ensures counts { EdgeCounts result (D.faults disk.old) (D.faults disk.new) }
    ensures copied { IsTrue D.told
        → IfDone result
        (IsCopy from to (length room.old) (D.flash disk.old).reads (D.flash disk.new).reads) }
    ensures settled { IsTrue D.told → IfDone result (IsSettled (D.flash disk.new)) }
    ensures keeps { IsTrue D.told
        → Keeps (Outside to (length room.old)) (D.flash disk.old) (D.flash disk.new) }
    ensures grows { IsTrue D.told → Grows (D.flash disk.old) (D.flash disk.new) }
{
    match disk.read_at(from, room) {
        Edge::Failed => return Edge::Failed,
        Edge::Done => {}
    }
    write_and_sync(disk, to, room)
}

/// Makes the copy with this number, and syncs it. At any moment, even after a failure, a power loss
/// leaves an image from which the same contents are recovered by this copy and those after it; once
/// the call is done, by those after it.
pub fn make_copy<D: Disk>(
    disk: &mut D,
    exchange: &Exchange,
    copy: u64,
    room: &mut [u8; 4096],
) -> Edge
    requires apart { AreApart exchange.now }
    requires fits { FitsDisk exchange.now (D.extent disk.old) }
    requires copy { copy < copies exchange.now }
    requires settled { IsTrue D.told → IsSettled (D.flash disk.old) }
    ensures size { D.extent disk.new ≡ D.extent disk.old }
    ensures counts { EdgeCounts result (D.faults disk.old) (D.faults disk.new) }
    ensures copied { IsTrue D.told
        → IfDone result
        (RecoversSame exchange.now copy (D.flash disk.old).reads (copy + 1)
        (D.flash disk.new).reads) }
    ensures settled { IsTrue D.told → IfDone result (IsSettled (D.flash disk.new)) }
    ensures any_moment { IsTrue D.told
        → Passes (D.flash disk.old) (D.flash disk.new)
        (RecoversSame exchange.now copy (D.flash disk.old).reads copy) }
    ensures keeps { IsTrue D.told
        → Keeps (OutsideEach (areas exchange.now)) (D.flash disk.old) (D.flash disk.new) }
    ensures grows { IsTrue D.told → Grows (D.flash disk.old) (D.flash disk.new) }
{
    // The size fits a `u64`, and so does each place. The proof learns it here.
    let _size = disk.size();
    let size = exchange.copy_size(copy) as usize;
    copy_range(
        disk,
        exchange.copy_from(copy),
        exchange.copy_to(copy),
        &mut room[..size],
    )
}
