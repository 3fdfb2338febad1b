//! The copies of an exchange that are left.

ghost use Rattle.std.specs.Prelude.{◌≡◌, ◌≤◌, ◌+◌, ◌++◌, IsTrue};
ghost use Rattle.suit_edge.specs.Edge.{IfDone};
ghost use Rattle.suit_edge.specs.Faults.{EdgeCounts};
ghost use Rattle.suit_edge.specs.Flash.{Grows, IsSettled, Keeps, Passes};
ghost use Rattle.suit_edge.specs.Ranges.{OutsideEach};
ghost use Rattle.swap_journal.specs.Exchanges.{AreApart, FitsDisk, areas};
ghost use Rattle.swap_journal.specs.Progress.{GivesProgress, IsPageApart, RecoversNow, Stands, entries};

use crate::{Exchange, Progress, advance};
use suit_edge::{Disk, Edge};

/// Makes the copies that are left, and records each in the page. At any moment, even after a
/// failure, a power loss leaves an image from which the same contents are recovered, by the
/// progress that its page gives; so the call can be repeated.
pub fn finish<D: Disk>(
    disk: &mut D,
    exchange: &Exchange,
    page: u64,
    progress: Progress,
    room: &mut [u8; 4096],
) -> Edge
    requires apart { AreApart exchange.now }
    requires page { IsPageApart exchange.now page }
    requires fits { FitsDisk exchange.now (D.extent disk.old) }
    requires page_fits { page + 89 ≤ D.extent disk.old }
    requires settled { IsTrue D.told → IsSettled (D.flash disk.old) }
    requires gives { IsTrue D.told
        → GivesProgress (D.flash disk.old).reads page progress.spare progress.made }
    ensures size { D.extent disk.new ≡ D.extent disk.old }
    ensures counts { EdgeCounts result (D.faults disk.old) (D.faults disk.new) }
    ensures stands { IsTrue D.told
        → IfDone result
        (Stands exchange.now page (D.flash disk.old).reads (D.flash disk.new).reads) }
    ensures settled { IsTrue D.told → IfDone result (IsSettled (D.flash disk.new)) }
    ensures any_moment { IsTrue D.told
        → Passes (D.flash disk.old) (D.flash disk.new)
        (RecoversNow exchange.now page (D.flash disk.old).reads) }
    ensures keeps { IsTrue D.told
        → Keeps (OutsideEach (areas exchange.now ++ entries page)) (D.flash disk.old)
        (D.flash disk.new) }
    ensures grows { IsTrue D.told → Grows (D.flash disk.old) (D.flash disk.new) }
{
    let mut spare = progress.spare;
    for copy in progress.made..exchange.copies() {
        match advance(disk, exchange, page, copy, spare, room) {
            Edge::Failed => return Edge::Failed,
            Edge::Done => {}
        }
        spare = spare.other();
    }
    Edge::Done
}
