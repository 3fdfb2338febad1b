//! The slots that are in use.

ghost use Rattle.std.specs.Prelude.{◌≡◌, ◌≤◌, length};
ghost use Rattle.step_machine.specs.InUse.{AreInUse, slot_in_use};

use flash_layout::{Entry, Layout, MOST_ENTRIES};

// The slot with this number if the component has two slots, or else its first.
fn slot_in_use(entry: &Entry, number: u8) -> u8
    ensures { result ≡ slot_in_use entry.now number }
{
    if number == 1 && entry.slots == 2 {
        1
    } else {
        0
    }
}

/// The slot in use of each component of the layout, by the numbers in a record. After the last component there are
/// zeros.
pub fn slots_in_use(layout: &Layout, active: &[u8; MOST_ENTRIES]) -> [u8; MOST_ENTRIES]
    requires { length layout.now ≤ MOST_ENTRIES }
    ensures { AreInUse layout.now active.now result }
{
    let entries = layout.as_slice();
    let mut numbers = [0u8; MOST_ENTRIES];
    for i in 0..entries.len() {
        numbers[i] = slot_in_use(&entries[i], active[i]);
    }
    numbers
}
