//! The lengths of two contents.

ghost use Rattle.flash_layout.specs.Layouts.{AreClear};
ghost use Rattle.flash_layout.specs.Slots.{LiesWithin, extent_of};
ghost use Rattle.std.specs.Prelude.{◌≡◌, IsTrue};
ghost use Rattle.suit_edge.specs.Edge.{IfDone};
ghost use Rattle.suit_edge.specs.Faults.{EdgeCounts};
ghost use Rattle.suit_edge.specs.Flash.{Grows, IsSettled, Keeps};
ghost use Rattle.suit_edge.specs.Ranges.{OutsideEach};
ghost use Rattle.swap_journal.specs.Swaps.{IsStored, length_fields};

use flash_layout::Slot;
use suit_edge::{Disk, Edge, write_and_sync};

/// Writes the lengths of both contents, and syncs everything that is pending.
pub(crate) fn set_lengths<D: Disk>(
    disk: &mut D,
    first: Slot,
    second: Slot,
    first_length: u64,
    second_length: u64,
) -> Edge
    requires first { LiesWithin (D.extent disk.old) first }
    requires second { LiesWithin (D.extent disk.old) second }
    requires apart { AreClear first.start (extent_of first) second.start (extent_of second) }
    ensures size { D.extent disk.new ≡ D.extent disk.old }
    ensures counts { EdgeCounts result (D.faults disk.old) (D.faults disk.new) }
    ensures first { IsTrue D.told
        → IfDone result (IsStored first first_length (D.flash disk.new).reads) }
    ensures second { IsTrue D.told
        → IfDone result (IsStored second second_length (D.flash disk.new).reads) }
    ensures settled { IsTrue D.told → IfDone result (IsSettled (D.flash disk.new)) }
    ensures keeps { IsTrue D.told
        → Keeps (OutsideEach (length_fields first second)) (D.flash disk.old)
        (D.flash disk.new) }
    ensures grows { IsTrue D.told → Grows (D.flash disk.old) (D.flash disk.new) }
{
    match disk.write_at(first.start, &first_length.to_be_bytes()) {
        Edge::Failed => return Edge::Failed,
        Edge::Done => {}
    }
    write_and_sync(disk, second.start, &second_length.to_be_bytes())
}
