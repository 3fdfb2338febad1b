//! Completing a swap that was interrupted.

ghost use Rattle.flash_layout.specs.FaultCounts.{ResultCounts};
ghost use Rattle.std.specs.Prelude.{◌≡◌, ◌↔◌, ◌+◌, ◌≤◌, IfOk, IfSome, IsTrue, MatchOption, OnOk};
ghost use Rattle.suit_edge.specs.Flash.{Grows, IsSame, IsSettled, Keeps, Passes};
ghost use Rattle.suit_edge.specs.Gate.{Closes, IsClosing, IsOpen};
ghost use Rattle.suit_edge.specs.Ranges.{Outside, OutsideEach};
ghost use Rattle.swap_journal.specs.Swaps.{ArePlacedAll, Completes, IsAmong, IsJournal, IsTagOf, StandsOpen, StillOrGoesOn, swap_at, touched_by};

use crate::concluding::conclude;
use crate::swap::{FIELD_BYTES, read_swap};
use crate::{Journal, Swap, read_progress};
use flash_layout::{FlashFault, Slot};
use suit_edge::{Disk, Edge, OPEN, close_gate};

// Whether the swap is between two distinct slots of the list, with room for both contents in each.
fn is_among(slots: &[Slot], swap: &Swap) -> bool
    ensures { IsTrue result ↔ IsAmong slots.now swap.now }
{
    slots.contains(&swap.first)
        && slots.contains(&swap.second)
        && swap.first != swap.second
        && swap.has_room()
}

// Reads the swap that the page records, or `None` if its gate is closed.
fn read_open<D: Disk>(disk: &mut D, page: u64) -> Result<Option<Swap>, FlashFault>
    requires { page + 57 ≤ D.extent disk.old }
    ensures size { D.extent disk.new ≡ D.extent disk.old }
    ensures counts { ResultCounts result (D.faults disk.old) (D.faults disk.new) }
    ensures tells { IsTrue D.told
        → IfOk result
        (λ swap. MatchOption swap (IsOpen (D.flash disk.old).reads page → ⊥)
        (λ s. IsOpen (D.flash disk.old).reads page × (swap_at (D.flash disk.old).reads page ≡ s))) }
    ensures same { IsTrue D.told → IsSame (D.flash disk.old) (D.flash disk.new) }
    ensures grows { IsTrue D.told → Grows (D.flash disk.old) (D.flash disk.new) }
{
    // The size fits a `u64`, and so does each place. The proof learns it here.
    let _size = disk.size();
    let mut gate = [0u8; 1];
    match disk.read_at(page, &mut gate) {
        Edge::Failed => return Err(FlashFault),
        Edge::Done => {}
    }
    if gate[0] != OPEN {
        return Ok(None);
    }
    let mut bytes = [0u8; FIELD_BYTES];
    match disk.read_at(page + 1, &mut bytes) {
        Edge::Failed => Err(FlashFault),
        Edge::Done => Ok(Some(read_swap(&bytes))),
    }
}

/// Completes the swap that is open, if it is between two distinct slots of the list with room for
/// both contents in each, and returns its tag. Returns `None` if no such swap is open. At any
/// moment, even after a failure, a power loss leaves an image of the start, or one from which the
/// call makes the same contents.
pub fn complete<D: Disk>(
    disk: &mut D,
    journal: &Journal,
    slots: &[Slot],
    room: &mut [u8; 4096],
) -> Result<Option<u64>, FlashFault>
    requires journal { IsJournal journal.now (D.extent disk.old) }
    requires slots { ArePlacedAll journal.now (D.extent disk.old) slots.now }
    ensures size { D.extent disk.new ≡ D.extent disk.old }
    ensures counts { ResultCounts result (D.faults disk.old) (D.faults disk.new) }
    ensures tag { IsTrue D.told
        → IfOk result (IsTagOf journal.now slots.now (D.flash disk.old).reads) }
    ensures completed { IsTrue D.told
        → IfOk result
        (λ t. IfSome t
        (λ _. Completes journal.now (D.flash disk.old).reads (D.flash disk.new).reads)) }
    ensures settled { IsTrue D.told → OnOk result (IsSettled (D.flash disk.new)) }
    ensures any_moment { IsTrue D.told
        → Passes (D.flash disk.old) (D.flash disk.new)
        (StillOrGoesOn journal.now (D.flash disk.old)) }
    ensures keeps { IsTrue D.told → StandsOpen journal.now slots.now (D.flash disk.old).reads
        → Keeps (OutsideEach (touched_by journal.now (D.flash disk.old).reads))
        (D.flash disk.old) (D.flash disk.new) }
    ensures same { IsTrue D.told
        → (StandsOpen journal.now slots.now (D.flash disk.old).reads → ⊥)
        → IsSame (D.flash disk.old) (D.flash disk.new) }
    ensures grows { IsTrue D.told → Grows (D.flash disk.old) (D.flash disk.new) }
{
    match disk.sync() {
        Edge::Failed => return Err(FlashFault),
        Edge::Done => {}
    }
    let Some(swap) = read_open(disk, journal.page)? else {
        return Ok(None);
    };
    if !is_among(slots, &swap) {
        return Ok(None);
    }
    let Some(progress) = read_progress(disk, journal.page) else {
        return Err(FlashFault);
    };
    match conclude(disk, journal, &swap, progress, room) {
        Edge::Failed => Err(FlashFault),
        Edge::Done => Ok(Some(swap.tag)),
    }
}

/// Closes the page, so that no swap is open, and syncs everything that is pending.
pub fn close<D: Disk>(disk: &mut D, journal: &Journal) -> Result<(), FlashFault>
    requires { journal.now.page + 1 ≤ D.extent disk.old }
    ensures size { D.extent disk.new ≡ D.extent disk.old }
    ensures counts { ResultCounts result (D.faults disk.old) (D.faults disk.new) }
    ensures closes { IsTrue D.told
        → OnOk result
        (Closes journal.now.page (D.flash disk.old).reads (D.flash disk.new).reads) }
    ensures settled { IsTrue D.told → OnOk result (IsSettled (D.flash disk.new)) }
    ensures keeps { IsTrue D.told
        → Keeps (Outside journal.now.page 1) (D.flash disk.old) (D.flash disk.new) }
    ensures any_moment { IsTrue D.told
        → Passes (D.flash disk.old) (D.flash disk.new)
        (IsClosing journal.now.page (D.flash disk.old)) }
    ensures grows { IsTrue D.told → Grows (D.flash disk.old) (D.flash disk.new) }
{
    match close_gate(disk, journal.page) {
        Edge::Failed => Err(FlashFault),
        Edge::Done => Ok(()),
    }
}
