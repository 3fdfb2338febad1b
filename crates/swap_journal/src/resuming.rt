//! Reading the progress of an exchange.

ghost use Rattle.std.specs.Prelude.{◌≡◌, ◌≤◌, ◌+◌, ◌++◌, IfSome, IsTrue, MatchOption};
ghost use Rattle.suit_edge.specs.Edge.{IfDone};
ghost use Rattle.suit_edge.specs.Faults.{EdgeCounts, Faulted};
ghost use Rattle.suit_edge.specs.Flash.{Grows, IsSame, IsSettled, Keeps, Passes};
ghost use Rattle.suit_edge.specs.Ranges.{OutsideEach};
ghost use Rattle.swap_journal.specs.Exchanges.{AreApart, FitsDisk, areas};
ghost use Rattle.swap_journal.specs.Progress.{GivesProgress, IsPageApart, Stands, StillRecovers, entries, number_at};

use crate::{Entry, Exchange, Progress, finish};
use suit_edge::{Disk, Edge, OPEN};

// Reads the number of the entry with this gate, which is 0 if the gate is closed. `None` if a read
// fails.
fn read_number<D: Disk>(disk: &mut D, gate: u64) -> Option<u64>
    requires { gate + 9 ≤ D.extent disk.old }
    ensures size { D.extent disk.new ≡ D.extent disk.old }
    ensures counts { MatchOption result (Faulted (D.faults disk.old) (D.faults disk.new))
        (λ _. D.faults disk.new ≡ D.faults disk.old) }
    ensures number { IsTrue D.told
        → IfSome result (λ number. number ≡ number_at (D.flash disk.old).reads gate) }
    ensures same { IsTrue D.told → IsSame (D.flash disk.old) (D.flash disk.new) }
    ensures grows { IsTrue D.told → Grows (D.flash disk.old) (D.flash disk.new) }
{
    // The size fits a `u64`, and so does each place. The proof learns it here.
    let _size = disk.size();
    let mut byte = [0u8; 1];
    match disk.read_at(gate, &mut byte) {
        Edge::Failed => return None,
        Edge::Done => {}
    }
    if byte[0] != OPEN {
        return Some(0);
    }
    let mut number = [0u8; 8];
    match disk.read_at(gate + 1, &mut number) {
        Edge::Failed => None,
        Edge::Done => Some(u64::from_be_bytes(number)),
    }
}

/// Reads how many copies the page says have been made. `None` if a read fails.
pub fn read_progress<D: Disk>(disk: &mut D, page: u64) -> Option<Progress>
    requires { page + 89 ≤ D.extent disk.old }
    ensures size { D.extent disk.new ≡ D.extent disk.old }
    ensures counts { MatchOption result (Faulted (D.faults disk.old) (D.faults disk.new))
        (λ _. D.faults disk.new ≡ D.faults disk.old) }
    ensures gives { IsTrue D.told
        → IfSome result (λ p. GivesProgress (D.flash disk.old).reads page p.spare p.made) }
    ensures same { IsTrue D.told → IsSame (D.flash disk.old) (D.flash disk.new) }
    ensures grows { IsTrue D.told → Grows (D.flash disk.old) (D.flash disk.new) }
{
    // The size fits a `u64`, and so does each place. The proof learns it here.
    let _size = disk.size();
    let first = read_number(disk, Entry::First.gate(page))?;
    let second = read_number(disk, Entry::Second.gate(page))?;
    if first > second {
        return Some(Progress {
            made: first,
            spare: Entry::Second,
        });
    }
    Some(Progress {
        made: second,
        spare: Entry::First,
    })
}

/// Syncs, then makes the copies that are left. At any moment, even after a failure, a power loss
/// leaves an image of the start, or one from which the same contents are recovered as from what the
/// disk read at the start.
pub fn resume<D: Disk>(disk: &mut D, exchange: &Exchange, page: u64, room: &mut [u8; 4096]) -> Edge
    requires apart { AreApart exchange.now }
    requires page { IsPageApart exchange.now page }
    requires fits { FitsDisk exchange.now (D.extent disk.old) }
    requires page_fits { page + 89 ≤ D.extent disk.old }
    ensures size { D.extent disk.new ≡ D.extent disk.old }
    ensures counts { EdgeCounts result (D.faults disk.old) (D.faults disk.new) }
    ensures stands { IsTrue D.told
        → IfDone result
        (Stands exchange.now page (D.flash disk.old).reads (D.flash disk.new).reads) }
    ensures settled { IsTrue D.told → IfDone result (IsSettled (D.flash disk.new)) }
    ensures any_moment { IsTrue D.told
        → Passes (D.flash disk.old) (D.flash disk.new)
        (StillRecovers exchange.now page (D.flash disk.old)) }
    ensures keeps { IsTrue D.told
        → Keeps (OutsideEach (areas exchange.now ++ entries page)) (D.flash disk.old)
        (D.flash disk.new) }
    ensures grows { IsTrue D.told → Grows (D.flash disk.old) (D.flash disk.new) }
{
    match disk.sync() {
        Edge::Failed => return Edge::Failed,
        Edge::Done => {}
    }
    let Some(progress) = read_progress(disk, page) else {
        return Edge::Failed;
    };
    match finish(disk, exchange, page, progress, room) {
        Edge::Failed => Edge::Failed,
        Edge::Done => Edge::Done,
    }
}
