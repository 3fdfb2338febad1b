//! Contents in working memory.

ghost use Rattle.flash_slots.specs.RamContents.{AppendsTo, Stretches, empty_ram, held_by, holding, ram_capacity};
ghost use Rattle.std.specs.Prelude.{◌≡◌, ◌<◌, ◌≤◌, ◌+◌, [], IfOk, length, take};
ghost use Rattle.suit_edge.specs.Ranges.{written};

use crate::area::{Area, TooLarge};
use flash_layout::{Entry, Layout, Memory};
use std::alloc::{AllocError, Global};
use std::marker::Model;

/// The contents of those components of a layout that are kept in working memory. All memory is
/// allocated at the start. A component is given by its index in the layout; one in flash has no
/// room here.
#[derive(Drop)]
pub struct Ram {
    areas: Vec<Area>,
}

impl Model for Ram {
    ghost use Rattle.flash_slots.specs.RamContents.{Held};
    ghost use Rattle.std.specs.Prelude.{List};

    ghost Value = { List Held };

    ghost view = { λ r. r.areas.items };
}

// How many bytes the component may hold in working memory.
fn ram_capacity_of(entry: &Entry) -> usize
    ensures { result ≡ ram_capacity entry.now }
{
    match entry.memory {
        Memory::Flash => 0,
        Memory::Ram => entry.capacity as usize,
    }
}

impl Ram {
    /// Makes room for the contents of a layout, all of which are empty.
    pub fn new(alloc: Global, layout: &Layout) -> Result<Ram, AllocError>
        ensures { IfOk result (λ ram. ram ≡ empty_ram layout.now) }
    {
        let mut areas = Vec::new(alloc);
        for entry in layout.as_slice() {
            let area = Area::new(alloc, ram_capacity_of(entry))?;
            areas.push(area)?;
        }
        Ok(Ram { areas })
    }

    /// Borrows a component's content.
    pub fn content(&self, component: u32) -> &[u8]
        requires { component < length self.now }
        ensures content { result.now ≡ (held_by self.now component).content }
        ensures fits { length result.now ≤ (held_by self.now component).capacity }
    {
        let area = &self.areas[component as usize];
        area.content()
    }

    /// Empties a component's content.
    pub fn clear(&mut self, component: u32)
        requires { component < length self.old }
        ensures { self.new ≡ holding self.old component [] }
    {
        let area = &mut self.areas[component as usize];
        area.clear();
    }

    /// Appends a piece to a component's content. If it does not fit, nothing changes.
    pub fn append(&mut self, component: u32, piece: &[u8]) -> Result<(), TooLarge>
        requires { component < length self.old }
        ensures { AppendsTo self.old component piece.now self.new result }
    {
        let area = &mut self.areas[component as usize];
        area.append(piece)
    }

    /// Overwrites a component's content with a piece, from byte `from` on.
    pub fn put(&mut self, component: u32, from: usize, piece: &[u8])
        requires component { component < length self.old }
        requires within { from + length piece.now ≤ length (held_by self.old component).content }
        ensures { self.new
            ≡ holding self.old component
            (written (held_by self.old component).content from piece.now) }
    {
        let area = &mut self.areas[component as usize];
        area.put(from, piece);
    }

    /// Cuts a component's content to its first `size` bytes.
    pub fn cut(&mut self, component: u32, size: usize)
        requires component { component < length self.old }
        requires within { size ≤ length (held_by self.old component).content }
        ensures { self.new
            ≡ holding self.old component (take size (held_by self.old component).content) }
    {
        let area = &mut self.areas[component as usize];
        area.cut(size);
    }

    /// Extends a component's content to `size` bytes. The new ones may be any.
    pub fn stretch(&mut self, component: u32, size: usize)
        requires component { component < length self.old }
        requires behind { length (held_by self.old component).content ≤ size }
        requires fits { size ≤ (held_by self.old component).capacity }
        ensures held { Stretches (held_by self.old component) size (held_by self.new component) }
        ensures others { self.new
            ≡ holding self.old component (held_by self.new component).content }
    {
        let area = &mut self.areas[component as usize];
        area.stretch(size);
    }
}
