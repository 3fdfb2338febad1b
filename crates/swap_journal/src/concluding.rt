//! The end of a swap: the copies that are left, and the lengths.

ghost use Rattle.std.specs.Prelude.{◌≡◌, IsTrue};
ghost use Rattle.suit_edge.specs.Edge.{IfDone};
ghost use Rattle.suit_edge.specs.Faults.{EdgeCounts};
ghost use Rattle.suit_edge.specs.Flash.{Grows, IsSettled, Keeps, Passes};
ghost use Rattle.suit_edge.specs.Ranges.{OutsideEach};
ghost use Rattle.swap_journal.specs.Progress.{GivesProgress};
ghost use Rattle.swap_journal.specs.Swaps.{ArePlaced, GoesOn, HasRoom, IsCompleted, IsJournal, IsNoted, touched};

use crate::lengths::set_lengths;
use crate::{Journal, Progress, Swap, finish};
use suit_edge::{Disk, Edge};

/// Makes the copies that are left, then stores the lengths. At any moment, even after a failure,
/// the page records the swap, which still leads to the same contents.
pub(crate) fn conclude<D: Disk>(
    disk: &mut D,
    journal: &Journal,
    swap: &Swap,
    progress: Progress,
    room: &mut [u8; 4096],
) -> Edge
    requires journal { IsJournal journal.now (D.extent disk.old) }
    requires slots { ArePlaced journal.now (D.extent disk.old) swap.now.first swap.now.second }
    requires room { HasRoom swap.now }
    requires settled { IsTrue D.told → IsSettled (D.flash disk.old) }
    requires noted { IsTrue D.told → IsNoted journal.now swap.now (D.flash disk.old).reads }
    requires gives { IsTrue D.told
        → GivesProgress (D.flash disk.old).reads journal.now.page progress.spare progress.made }
    ensures size { D.extent disk.new ≡ D.extent disk.old }
    ensures counts { EdgeCounts result (D.faults disk.old) (D.faults disk.new) }
    ensures completed { IsTrue D.told
        → IfDone result
        (IsCompleted journal.now swap.now (D.flash disk.old).reads (D.flash disk.new).reads) }
    ensures settled { IsTrue D.told → IfDone result (IsSettled (D.flash disk.new)) }
    ensures any_moment { IsTrue D.told
        → Passes (D.flash disk.old) (D.flash disk.new)
        (GoesOn journal.now swap.now (D.flash disk.old).reads) }
    ensures keeps { IsTrue D.told
        → Keeps (OutsideEach (touched journal.now swap.now.first swap.now.second))
        (D.flash disk.old) (D.flash disk.new) }
    ensures grows { IsTrue D.told → Grows (D.flash disk.old) (D.flash disk.new) }
{
    // The size fits a `u64`, and so does each place. The proof learns it here.
    let _size = disk.size();
    let exchange = swap.exchange(journal);
    match finish(disk, &exchange, journal.page, progress, room) {
        Edge::Failed => return Edge::Failed,
        Edge::Done => {}
    }
    match set_lengths(
        disk,
        swap.first,
        swap.second,
        swap.second_length,
        swap.first_length,
    ) {
        Edge::Failed => Edge::Failed,
        Edge::Done => Edge::Done,
    }
}
