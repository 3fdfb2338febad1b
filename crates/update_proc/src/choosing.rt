//! Which slot each component stands for in an update.

ghost use Rattle.std.specs.Prelude.{◌≡◌, ◌↔◌, ◌⊎◌, ◌<◌, ◌≤◌, ◌-◌, ℕ, IsTrue, length, slice_index};
ghost use Rattle.suit_commands.specs.Allowed.{IsPlan};
ghost use Rattle.suit_commands.specs.Bits.{HasBit};
ghost use Rattle.suit_commands.specs.Plans.{plan_tree};
ghost use Rattle.update_proc.specs.ChoiceLaws.{ChoiceLaw};
ghost use Rattle.update_proc.specs.Choices.{AreChosen, HasWritten};

use flash_layout::{Layout, MOST_ENTRIES, Places};
use suit_commands::{Plan, targets};

// Whether a component is in the set.
fn has_bit(bits: u32, component: u32) -> bool
    requires { component < 32 }
    ensures { IsTrue result ↔ HasBit bits component }
{
    (bits >> component) % 2 == 1
}

// Whether a component of the set has this index in the layout.
fn has_written(places: &Places, bits: u32, index: u32) -> bool
    requires { places.now.count ≤ 8 }
    ensures { IsTrue result ↔ HasWritten places.now bits index }
{
    for k in 0..places.count {
        if has_bit(bits, k) && places.layout_index[k as usize] == index {
            return true;
        }
    }
    false
}

// The slot that a component stands for: the other one if it may be written and has two, and otherwise the active one.
fn number_of(slots: u8, written: bool, active: u8) -> u8
    requires { active ≤ 1 }
    ensures other { IsTrue written → slots ≡ 2 → result ≡ 1 - active }
    ensures same { (IsTrue written → slots ≡ 2 → ⊥) → result ≡ active }
    ensures either { (result ≡ active) ⊎ ((slots ≡ 2) × (result ≡ 1 - active)) }
{
    if written && slots == 2 {
        1 - active
    } else {
        active
    }
}

/// The slot that each component of the layout stands for in an update. A component that the procedure may write stands
/// for its other slot, if it has one; all others stand for the slot in use.
pub fn choose(
    layout: &Layout,
    places: &Places,
    plan: &Plan<'_>,
    active: &[u8; MOST_ENTRIES],
) -> [u8; MOST_ENTRIES]
    requires layout { length layout.now ≤ MOST_ENTRIES }
    requires places { places.now.count ≤ 8 }
    requires plan { IsPlan (plan_tree plan.now) }
    requires active { (i : ℕ) → slice_index active.now i ≤ 1 }
    ensures { AreChosen layout.now places.now (plan_tree plan.now) active.now result }
{
    let bits = targets(plan).bits;
    let entries = layout.as_slice();
    let mut numbers = *active;
    for i in 0..entries.len() {
        let written = has_written(places, bits, i as u32);
        let slots = entries[i].slots;
        numbers[i] = number_of(slots, written, active[i]);
    }
    numbers
}

/// Does nothing. Its contract is the law: slots that are chosen for an update may be recorded as those in use.
pub fn choice_laws()
    ensures { ChoiceLaw }
{}
