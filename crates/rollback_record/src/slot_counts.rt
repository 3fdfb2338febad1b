//! How many slots each component has. A record names one of them for each.

ghost use Rattle.flash_layout.specs.declared.layout.Entry.{Entry};
ghost use Rattle.flash_layout.specs.Frames.{most, page_bytes};
ghost use Rattle.rollback_record.specs.RecordPage.{CountSlots, HasSecondSlot};
ghost use Rattle.std.specs.Prelude.{◌≡◌, ◌↔◌, ◌<◌, ℕ, get_or, length, slice_index};

use flash_layout::{ENTRY_SIZE, Entry, FRONT_SIZE, Frame, Layout, MOST_ENTRIES, most};

// How many slots the component with that index has by the configuration page. 0 if there is no such component.
fn slots_on(frame: Frame, config: &[u8], i: usize) -> u8
    requires page { length config.now ≡ page_bytes frame }
    requires few { i < most frame }
    ensures { (result ≡ 2) ↔ HasSecondSlot config.now i }
{
    if i < config[3] as usize {
        config[ENTRY_SIZE * i + (FRONT_SIZE + 1)]
    } else {
        0
    }
}

/// How many slots each component has by the configuration page.
pub(crate) fn counts_on(frame: Frame, config: &[u8]) -> [u8; MOST_ENTRIES]
    requires { length config.now ≡ page_bytes frame }
    ensures { CountSlots frame config.now result }
{
    let mut slots = [0; MOST_ENTRIES];
    for i in 0..most(frame) {
        slots[i] = slots_on(frame, config, i);
    }
    slots
}

// How many slots the component with that index has. 0 if there is no such component.
fn slots_in(entries: &[Entry], i: usize) -> u8
    ensures { (result ≡ 2)
        ↔ ((i < length entries.now) × ((d : Entry) → (get_or entries.now i d).slots ≡ 2)) }
{
    if i < entries.len() {
        entries[i].slots
    } else {
        0
    }
}

/// How many slots each component of a layout has.
pub(crate) fn counts_in(layout: &Layout) -> [u8; MOST_ENTRIES]
    ensures { (i : ℕ) → i < 32 → (slice_index result i ≡ 2)
        ↔ ((i < length layout.now) × ((d : Entry) → (get_or layout.now i d).slots ≡ 2)) }
{
    let entries = layout.as_slice();
    let mut slots = [0; MOST_ENTRIES];
    for i in 0..MOST_ENTRIES {
        slots[i] = slots_in(entries, i);
    }
    slots
}
