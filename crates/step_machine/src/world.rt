//! The world of a procedure, beside the flash, the host and the launcher.

ghost use Rattle.flash_layout.specs.declared.frame.Frame.{Frame};
ghost use Rattle.flash_layout.specs.Layouts.{IsLayout};
ghost use Rattle.flash_slots.specs.RamContents.{IsRamOf, empty_ram};
ghost use Rattle.std.specs.Prelude.{◌≡◌, ◌<◌, ℕ, IfOk, length};
ghost use Rattle.step_machine.specs.Worlds.{AreDistinct, AreStandings, HaveAtMost, HaveTwo, IsChoice, StandAs, StandAtMost, spot_of, standing_of};

use crate::{Spot, Standing, Uris};
use arrayvec::ArrayVec;
use flash_layout::{Entry, Frame, Layout, MAX_COMPONENTS, MOST_ENTRIES, Memory, Places, Slot};
use flash_slots::Ram;
use path_model::Identity;
use std::alloc::{AllocError, Global};
use suit_envelope::Envelope;

/// The number of the slot that each component of the layout stands for: 0 or 1, 0 for working memory, and 0 after the
/// last.
#[derive(Clone, Copy, Debug, PartialEq, Eq)]
pub struct SlotChoice {
    pub number: [u8; MOST_ENTRIES],
}

/// The frame of the flash, the components of a procedure and where their contents stand, the contents in working
/// memory, and where payloads come from: an envelope, if there is one, and files by their URIs.
#[derive(Drop)]
pub struct World<'a> {
    pub(crate) frame: Frame,
    pub(crate) standings: ArrayVec<Standing, MAX_COMPONENTS>,
    pub(crate) ram: Ram,
    pub(crate) uris: &'a Uris,
    pub(crate) envelope: Option<&'a Envelope<'a>>,
}

// Does nothing. Its contract says that the list of a component's starts has two entries.
fn has_two(entry: &Entry)
    ensures { length entry.now.starts ≡ 2 }
{
    let starts = &entry.starts[..];
    let _count = starts.len();
}

// Where the content of a component stands.
fn spot_of(entry: &Entry, index: u32, number: u8) -> Spot
    requires { number < 2 }
    ensures { result ≡ spot_of entry.now.memory entry.now index number }
{
    match entry.memory {
        Memory::Flash => Spot::Flash(Slot {
            start: entry.starts[number as usize],
            capacity: entry.capacity,
        }),
        Memory::Ram => Spot::Ram(index),
    }
}

fn standing_of(entry: &Entry, component: u32, index: u32, number: u8) -> Standing
    requires { number < 2 }
    ensures { result ≡ standing_of entry.now component index number }
{
    Standing {
        component,
        identity: Identity {
            vendor: entry.vendor,
            class: entry.class,
            device: entry.device,
            slot: number as u64,
        },
        capacity: entry.capacity,
        spot: spot_of(entry, index, number),
    }
}

// The components and where their contents stand, in the manifest's order.
fn stand(layout: &Layout, places: &Places, slots: &SlotChoice) -> ArrayVec<Standing, MAX_COMPONENTS>
    requires places { AreDistinct layout.now places.now }
    requires slots { IsChoice layout.now slots.now }
    ensures stand { StandAs layout.now places.now slots.now result.items }
    ensures two { HaveTwo layout.now places.now places.now.count }
{
    let entries = layout.as_slice();
    let mut list = ArrayVec::new();
    for component in 0..places.count {
        let index = places.layout_index[component as usize];
        let entry = &entries[index as usize];
        has_two(entry);
        list.push(standing_of(entry, component, index, slots.number[index as usize]));
    }
    list
}

impl<'a> World<'a> {
    /// The world of a procedure whose components have these places in the layout and stand for the chosen slots.
    /// Contents in working memory are empty. Payloads are those of the envelope; without one there are none. Allocates
    /// all memory that the procedure needs.
    pub fn new(
        alloc: Global,
        layout: &Layout,
        frame: Frame,
        places: &Places,
        slots: &SlotChoice,
        uris: &'a Uris,
        envelope: Option<&'a Envelope<'a>>,
    ) -> Result<World<'a>, AllocError>
        requires places { AreDistinct layout.now places.now }
        requires slots { IsChoice layout.now slots.now }
        ensures stand { IfOk result
            (λ world. StandAs layout.now places.now slots.now world.standings.items) }
        ensures ram { IfOk result (λ world. world.ram ≡ empty_ram layout.now) }
        ensures uris { IfOk result (λ world. world.uris.now ≡ uris.now) }
        ensures envelope { IfOk result (λ world. world.envelope ≡ envelope.entry) }
        ensures frame { IfOk result (λ world. world.frame ≡ frame) }
        ensures fit { IfOk result
            (λ world. (other : Frame) (size : ℕ) → IsLayout other size layout.now
            → AreStandings size world.ram world.standings.items) }
        ensures rooms { IfOk result
            (λ world. (room : ℕ) → HaveAtMost layout.now room
            → StandAtMost world.standings.items room) }
    {
        let ram = Ram::new(alloc, layout)?;
        Ok(World::with_ram(ram, layout, frame, places, slots, uris, envelope))
    }

    /// Like `new`, with contents in memory that was made for the layout before (`Ram::new`). They stay as they are.
    /// Does not allocate.
    pub fn with_ram(
        ram: Ram,
        layout: &Layout,
        frame: Frame,
        places: &Places,
        slots: &SlotChoice,
        uris: &'a Uris,
        envelope: Option<&'a Envelope<'a>>,
    ) -> World<'a>
        requires places { AreDistinct layout.now places.now }
        requires slots { IsChoice layout.now slots.now }
        ensures stand { StandAs layout.now places.now slots.now result.standings.items }
        ensures ram { result.ram ≡ ram }
        ensures uris { result.uris.now ≡ uris.now }
        ensures envelope { result.envelope ≡ envelope.entry }
        ensures frame { result.frame ≡ frame }
        ensures fit { IsRamOf layout.now ram → (other : Frame) (size : ℕ)
            → IsLayout other size layout.now
            → AreStandings size result.ram result.standings.items }
        ensures rooms { (room : ℕ) → HaveAtMost layout.now room
            → StandAtMost result.standings.items room }
    {
        World {
            frame,
            standings: stand(layout, places, slots),
            ram,
            uris,
            envelope,
        }
    }
}
