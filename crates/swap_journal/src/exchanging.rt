//! A swap, from its beginning.

ghost use Rattle.flash_layout.specs.FaultCounts.{ResultCounts};
ghost use Rattle.flash_layout.specs.Slots.{slot_content};
ghost use Rattle.std.specs.Prelude.{◌≡◌, IsTrue, OnOk};
ghost use Rattle.suit_edge.specs.Edge.{IfDone};
ghost use Rattle.suit_edge.specs.Faults.{EdgeCounts};
ghost use Rattle.suit_edge.specs.Flash.{Grows, IsSettled, Keeps, Passes};
ghost use Rattle.suit_edge.specs.Gate.{IsShut};
ghost use Rattle.suit_edge.specs.Ranges.{OutsideEach};
ghost use Rattle.swap_journal.specs.declared.progress.Entry.TheVariants as entries;
ghost use Rattle.swap_journal.specs.Progress.{GivesProgress};
ghost use Rattle.swap_journal.specs.Swaps.{ArePlaced, HasRoom, HoldsContents, IsExchanged, IsJournal, IsNoted, IsUntouchedOrExchanged, touched};

use crate::concluding::conclude;
use crate::lengths::set_lengths;
use crate::swap::spell;
use crate::{Entry, Journal, Progress, Swap};
use flash_layout::FlashFault;
use suit_edge::{Disk, Edge, open_written};

// Records the swap in the page, then empties both slots.
fn begin<D: Disk>(disk: &mut D, journal: &Journal, swap: &Swap) -> Edge
    requires journal { IsJournal journal.now (D.extent disk.old) }
    requires slots { ArePlaced journal.now (D.extent disk.old) swap.now.first swap.now.second }
    requires room { HasRoom swap.now }
    requires shut { IsTrue D.told → IsShut journal.now.page (D.flash disk.old) }
    requires contents { IsTrue D.told → HoldsContents swap.now (D.flash disk.old) }
    ensures size { D.extent disk.new ≡ D.extent disk.old }
    ensures counts { EdgeCounts result (D.faults disk.old) (D.faults disk.new) }
    ensures exchanged { IsTrue D.told
        → IfDone result
        (IsExchanged journal.now swap.now (D.flash disk.old).reads (D.flash disk.new).reads) }
    ensures gives { IsTrue D.told
        → IfDone result
        (GivesProgress (D.flash disk.new).reads journal.now.page entries.First 0) }
    ensures settled { IsTrue D.told → IfDone result (IsSettled (D.flash disk.new)) }
    ensures any_moment { IsTrue D.told
        → Passes (D.flash disk.old) (D.flash disk.new)
        (IsUntouchedOrExchanged journal.now swap.now (D.flash disk.old).reads) }
    ensures keeps { IsTrue D.told
        → Keeps (OutsideEach (touched journal.now swap.now.first swap.now.second))
        (D.flash disk.old) (D.flash disk.new) }
    ensures grows { IsTrue D.told → Grows (D.flash disk.old) (D.flash disk.new) }
{
    // The size fits a `u64`, and so does each place. The proof learns it here.
    let _size = disk.size();
    let page = spell(swap);
    match open_written(disk, journal.page, journal.page + 1, page.as_slice()) {
        Edge::Failed => return Edge::Failed,
        Edge::Done => {}
    }
    match set_lengths(disk, swap.first, swap.second, 0, 0) {
        Edge::Failed => Edge::Failed,
        Edge::Done => Edge::Done,
    }
}

/// Exchanges the contents of two slots. The page records the swap, and stays open. At any moment,
/// even after a failure, either the page is closed and both contents are the old ones, or
/// `complete` does the rest of the swap.
pub fn exchange<D: Disk>(
    disk: &mut D,
    journal: &Journal,
    swap: &Swap,
    room: &mut [u8; 4096],
) -> Result<(), FlashFault>
    requires journal { IsJournal journal.now (D.extent disk.old) }
    requires slots { ArePlaced journal.now (D.extent disk.old) swap.now.first swap.now.second }
    requires room { HasRoom swap.now }
    requires shut { IsTrue D.told → IsShut journal.now.page (D.flash disk.old) }
    requires contents { IsTrue D.told → HoldsContents swap.now (D.flash disk.old) }
    ensures size { D.extent disk.new ≡ D.extent disk.old }
    ensures counts { ResultCounts result (D.faults disk.old) (D.faults disk.new) }
    ensures first { IsTrue D.told
        → OnOk result
        (slot_content swap.now.first (D.flash disk.new).reads
        ≡ slot_content swap.now.second (D.flash disk.old).reads) }
    ensures second { IsTrue D.told
        → OnOk result
        (slot_content swap.now.second (D.flash disk.new).reads
        ≡ slot_content swap.now.first (D.flash disk.old).reads) }
    ensures noted { IsTrue D.told
        → OnOk result (IsNoted journal.now swap.now (D.flash disk.new).reads) }
    ensures settled { IsTrue D.told → OnOk result (IsSettled (D.flash disk.new)) }
    ensures any_moment { IsTrue D.told
        → Passes (D.flash disk.old) (D.flash disk.new)
        (IsUntouchedOrExchanged journal.now swap.now (D.flash disk.old).reads) }
    ensures keeps { IsTrue D.told
        → Keeps (OutsideEach (touched journal.now swap.now.first swap.now.second))
        (D.flash disk.old) (D.flash disk.new) }
    ensures grows { IsTrue D.told → Grows (D.flash disk.old) (D.flash disk.new) }
{
    match begin(disk, journal, swap) {
        Edge::Failed => return Err(FlashFault),
        Edge::Done => {}
    }
    let progress = Progress {
        made: 0,
        spare: Entry::First,
    };
    match conclude(disk, journal, swap, progress, room) {
        Edge::Failed => Err(FlashFault),
        Edge::Done => Ok(()),
    }
}
