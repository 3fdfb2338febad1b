//! Making a copy, and recording the progress after it.

ghost use Rattle.std.specs.Prelude.{◌≡◌, ◌<◌, ◌≤◌, ◌+◌, ◌++◌, IsTrue};
ghost use Rattle.suit_edge.specs.Edge.{IfDone};
ghost use Rattle.suit_edge.specs.Faults.{EdgeCounts};
ghost use Rattle.suit_edge.specs.Flash.{Grows, IsSettled, Keeps, Passes};
ghost use Rattle.suit_edge.specs.Ranges.{OutsideEach};
ghost use Rattle.swap_journal.specs.Exchanges.{AreApart, FitsDisk, areas, copies};
ghost use Rattle.swap_journal.specs.Progress.{GivesProgress, IsPageApart, RecoversNow, entries, other_entry};

use crate::{Entry, Exchange, make_copy};
use suit_edge::{Disk, Edge, write_gated};

/// Makes the copy with this number, then records it as made in the spare entry of the page. At any
/// moment, even after a failure, a power loss leaves an image from which the same contents are
/// recovered, by the progress that its page gives.
pub fn advance<D: Disk>(
    disk: &mut D,
    exchange: &Exchange,
    page: u64,
    copy: u64,
    spare: Entry,
    room: &mut [u8; 4096],
) -> Edge
    requires apart { AreApart exchange.now }
    requires page { IsPageApart exchange.now page }
    requires fits { FitsDisk exchange.now (D.extent disk.old) }
    requires page_fits { page + 89 ≤ D.extent disk.old }
    requires copy { copy < copies exchange.now }
    requires settled { IsTrue D.told → IsSettled (D.flash disk.old) }
    requires gives { IsTrue D.told → GivesProgress (D.flash disk.old).reads page spare copy }
    ensures size { D.extent disk.new ≡ D.extent disk.old }
    ensures counts { EdgeCounts result (D.faults disk.old) (D.faults disk.new) }
    ensures gives { IsTrue D.told
        → IfDone result
        (GivesProgress (D.flash disk.new).reads page (other_entry spare) (copy + 1)) }
    ensures settled { IsTrue D.told → IfDone result (IsSettled (D.flash disk.new)) }
    ensures any_moment { IsTrue D.told
        → Passes (D.flash disk.old) (D.flash disk.new)
        (RecoversNow exchange.now page (D.flash disk.old).reads) }
    ensures keeps { IsTrue D.told
        → Keeps (OutsideEach (areas exchange.now ++ entries page)) (D.flash disk.old)
        (D.flash disk.new) }
    ensures grows { IsTrue D.told → Grows (D.flash disk.old) (D.flash disk.new) }
{
    // The size fits a `u64`, and so does each place. The proof learns it here.
    let _size = disk.size();
    match make_copy(disk, exchange, copy, room) {
        Edge::Failed => return Edge::Failed,
        Edge::Done => {}
    }
    let gate = spare.gate(page);
    let number = (copy + 1).to_be_bytes();
    match write_gated(disk, gate, gate + 1, &number) {
        Edge::Failed => Edge::Failed,
        Edge::Done => Edge::Done,
    }
}
