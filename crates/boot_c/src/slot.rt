//! The slot of a component that is in use.

ghost use Rattle.boot_c.specs.SlotAnswers.{IsFaultAnswer, IsHeldAnswer, IsSlotAnswer};
ghost use Rattle.boot_c.specs.SlotsInUse.{IsInUse, IsSlotOf, SlotLiesIn};
ghost use Rattle.flash_layout.specs.Configs.{ConfigOf, Configured, IsAllowed};
ghost use Rattle.flash_layout.specs.Layouts.{IsEntry};
ghost use Rattle.flash_layout.specs.declared.frame.Frame.{Frame};
ghost use Rattle.flash_layout.specs.declared.layout.Memory.TheVariants as memory;
ghost use Rattle.std.specs.Prelude.{◌≡◌, ◌≢◌, ◌⊎◌, ◌<◌, IfErr, IfOk, length};
ghost use Rattle.step_machine.specs.InUse.{slot_in_use};
ghost use Rattle.suit_answers.specs.Answers.{code_of};
ghost use Rattle.suit_answers.specs.declared.answer.Answer.{Answer};
ghost use Rattle.suit_answers.specs.declared.answer.Answer.TheVariants as answers;

use flash_layout::{
    Entry, FlashFault, Frame, Key, LENGTH_SIZE, Layout, Loaded, Memory, Slot, config_laws,
    load_config, slots_of,
};
use flash_slots::length;
use flash_view::ViewDisk;
use rollback_record::{load_record_by, record_laws};
use std::alloc::Global;
use suit_answers::Answer;

/// The content of a component, in the slot that is in use.
#[repr(C)]
#[derive(Clone, Copy)]
pub struct SuitSlot {
    /// Where it begins, in bytes from the start of the flash.
    pub place: u64,
    /// How many bytes it has.
    pub length: u64,
    /// How many bytes it may have.
    pub capacity: u64,
    /// The number of the slot, 0 or 1.
    pub number: u32,
}

// The number of the slot in use, if the component has it.
fn number_of(entry: &Entry, active: u8) -> u32
    ensures is { result ≡ slot_in_use entry.now active }
    ensures few { result < 2 }
    ensures has { result ≡ 1 → entry.now.slots ≡ 2 }
{
    if active == 1 && entry.slots == 2 {
        1
    } else {
        0
    }
}

// Shows the prover that there are two starts.
fn room(starts: &[u64; 2])
    ensures { length starts.now ≡ 2 }
{
    let _ = starts;
}

// A component's slot of this number.
fn slot_in(entry: &Entry, number: u32, flash: &[u8]) -> Result<SuitSlot, FlashFault>
    requires entry { (frame : Frame) × IsEntry frame (length flash.now) entry.now }
    requires stands { entry.now.memory ≡ memory.Flash }
    requires few { number < 2 }
    requires has { number ≡ 1 → entry.now.slots ≡ 2 }
    ensures slot { IfOk result (IsSlotOf entry.now number flash.now) }
    ensures within { IfOk result (SlotLiesIn flash.now) }
{
    room(&entry.starts);
    let starts = slots_of(entry);
    let slot = Slot {
        start: starts[number as usize],
        capacity: entry.capacity,
    };
    let mut disk = ViewDisk::new(flash);
    let length = length(&mut disk, slot)?;
    Ok(SuitSlot {
        place: slot.start + LENGTH_SIZE,
        length,
        capacity: slot.capacity,
        number,
    })
}

// The slot of a component that the flash's record has in use, by its configuration.
fn slot_by(
    flash: &[u8],
    layout: &Layout,
    frame: Frame,
    key: &Key,
    component: u32,
) -> Result<SuitSlot, Answer>
    requires allowed { IsAllowed frame (length flash.now) layout.now key.now }
    requires held { ConfigOf (length flash.now) flash.now (Configured layout.now key.now frame) }
    ensures slot { IfOk result (IsInUse flash.now component) }
    ensures within { IfOk result (SlotLiesIn flash.now) }
    ensures told { IfErr result (λ answer. answer ≢ answers.Done) }
    ensures answers { IfErr result (IsSlotAnswer flash.now component) }
{
    let entries = layout.as_slice();
    let entry = match entries.get(component as usize) {
        Some(entry) => entry,
        None => return Err(Answer::UnknownComponent),
    };
    match entry.memory {
        Memory::Flash => {}
        Memory::Ram => return Err(Answer::UnknownComponent),
    }
    let mut disk = ViewDisk::new(flash);
    let installed = match load_record_by(&mut disk, frame, layout) {
        Ok(Some(installed)) => installed,
        Ok(None) => return Err(Answer::NothingInstalled),
        Err(FlashFault) => return Err(Answer::FlashFault),
    };
    let number = number_of(entry, installed.active[component as usize]);
    match slot_in(entry, number, flash) {
        Ok(slot) => Ok(slot),
        Err(FlashFault) => Err(Answer::FlashFault),
    }
}

// The slot of a component that is in use.
fn slot_from(alloc: Global, flash: &[u8], component: u32) -> Result<SuitSlot, Answer>
    ensures slot { IfOk result (IsInUse flash.now component) }
    ensures within { IfOk result (SlotLiesIn flash.now) }
    ensures told { IfErr result (λ answer. answer ≢ answers.Done) }
    ensures answers { IfErr result (IsSlotAnswer flash.now component) }
{
    let mut disk = ViewDisk::new(flash);
    match load_config(alloc, &mut disk) {
        Loaded::Config(layout, key, frame) => slot_by(flash, &layout, frame, &key, component),
        Loaded::Blank | Loaded::BadConfig => Err(Answer::Unconfigured),
        Loaded::FlashFault => Err(Answer::FlashFault),
        Loaded::NoMemory => Err(Answer::NoMemory),
    }
}

// See `suit_slot`.
fn slot_told(alloc: Global, flash: &[u8], component: u32, out: &mut SuitSlot) -> Answer
    ensures slot { result ≡ answers.Done → IsInUse flash.now component out.new }
    ensures within { result ≡ answers.Done → SlotLiesIn flash.now out.new }
    ensures stays { result ≢ answers.Done → out.new ≡ out.old }
    ensures answers { IsSlotAnswer flash.now component result }
    ensures every_answer { (answer : Answer) → IsHeldAnswer flash.now component answer
        → (result ≡ answer) ⊎ IsFaultAnswer result }
{
    config_laws();
    record_laws();
    match slot_from(alloc, flash, component) {
        Ok(slot) => {
            *out = slot;
            Answer::Done
        }
        Err(answer) => answer,
    }
}

/// Tells where the content of the component with this index in the layout stands. Returns 0, or leaves `out` as it was and
/// returns 13 where the flash has no configuration, 18 where its layout has no such component in flash, else 15 where it has
/// no record; 8 where the flash failed, and 11 where memory ran out.
#[unsafe(no_mangle)]
pub extern "C" fn suit_slot(alloc: Global, flash: &[u8], component: u32, out: &mut SuitSlot) -> i32
    ensures slot { result ≡ code_of answers.Done → IsInUse flash.now component out.new }
    ensures within { result ≡ code_of answers.Done → SlotLiesIn flash.now out.new }
    ensures stays { result ≢ code_of answers.Done → out.new ≡ out.old }
    ensures answers { (answer : Answer)
        × (result ≡ code_of answer) × IsSlotAnswer flash.now component answer }
    ensures every_answer { (answer : Answer) → IsHeldAnswer flash.now component answer
        → (result ≡ code_of answer) ⊎ (result ≡ code_of answers.FlashFault)
        ⊎ (result ≡ code_of answers.NoMemory) }
{
    slot_told(alloc, flash, component, out).code()
}
