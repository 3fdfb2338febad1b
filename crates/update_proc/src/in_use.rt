//! The slots that are in use.

ghost use Rattle.flash_layout.specs.declared.frame.Frame.{Frame};
ghost use Rattle.flash_layout.specs.Layouts.{IsLayout};
ghost use Rattle.std.specs.Prelude.{◌≤◌, ℕ, List, length, option_map};
ghost use Rattle.step_machine.specs.InUse.{AreInUse};
ghost use Rattle.step_machine.specs.Worlds.{IsChoice};
ghost use Rattle.suit_commands.specs.Allowed.{IsPlan};
ghost use Rattle.suit_commands.specs.Plans.{plan_tree};
ghost use Rattle.update_proc.specs.Choices.{AreChosen, active_slots};

use crate::choose;
use flash_layout::{Layout, MOST_ENTRIES, Places, Record};
use step_machine::{SlotChoice, slots_in_use};
use suit_commands::Plan;

// The slots that the record has in use, or the first ones if there is no record.
fn slots_held(layout: &Layout, held: Option<&Record>) -> [u8; MOST_ENTRIES]
    requires { length layout.now ≤ MOST_ENTRIES }
    ensures { AreInUse layout.now (active_slots (option_map (λ r. r.now) held.entry)) result }
{
    match held {
        None => slots_in_use(layout, &[0; MOST_ENTRIES]),
        Some(held) => slots_in_use(layout, &held.active),
    }
}

/// The slots that components stand for in an update after this record. Each component has the slot that is chosen for
/// it.
pub(crate) fn choose_slots(
    layout: &Layout,
    places: &Places,
    plan: &Plan<'_>,
    held: Option<&Record>,
) -> SlotChoice
    requires layout { (frame : Frame) × (size : ℕ) × IsLayout frame size layout.now }
    requires places { places.now.count ≤ 8 }
    requires plan { IsPlan (plan_tree plan.now) }
    ensures chosen { (active : List ℕ)
        × AreInUse layout.now (active_slots (option_map (λ r. r.now) held.entry)) active
        × AreChosen layout.now places.now (plan_tree plan.now) active result.number }
    ensures choice { IsChoice layout.now result }
{
    let active = slots_held(layout, held);
    SlotChoice {
        number: choose(layout, places, plan, &active),
    }
}
