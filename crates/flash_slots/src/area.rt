//! Room in working memory for a single content.

ghost use Rattle.flash_slots.specs.RamContents.{Appends, Stretches, empty};
ghost use Rattle.std.specs.Prelude.{◌≡◌, ◌≤◌, ◌+◌, ◌++◌, IfOk, length, take};
ghost use Rattle.suit_edge.specs.Ranges.{written};

use std::alloc::{AllocError, Global};
use std::marker::Model;

/// The content would be longer than the component's capacity, which is this many bytes.
#[derive(Clone, Copy, Debug, PartialEq, Eq)]
pub struct TooLarge {
    pub capacity: u64,
}

/// Room for a single content, which is in its first bytes.
#[derive(Drop)]
pub(crate) struct Area {
    room: Vec<u8>,
    used: usize,
}

impl Model for Area {
    ghost use Rattle.flash_slots.specs.RamContents.{Held};
    ghost use Rattle.std.specs.Prelude.{◌≤◌, length, take};

    ghost Value = { Held };

    ghost view = { λ a. record {
      capacity = length a.room.items;
      content = take a.used a.room.items;
    } };

    ghost invariant = { λ a. a.used ≤ length a.room.items };
}

#[tactic(auto, unfolding(suit_edge::specs::Ranges::written))]
fn write_in(room: &mut [u8], from: usize, piece: &[u8])
    requires { from + length piece.now ≤ length room.old }
    ensures { room.new ≡ written room.old from piece.now }
{
    room[from..from + piece.len()].copy_from_slice(piece);
}

fn write_over(room: &mut Vec<u8>, from: usize, piece: &[u8])
    requires { from + length piece.now ≤ length room.old.items }
    ensures bytes { room.new.items ≡ written room.old.items from piece.now }
    ensures long { length room.new.items ≡ length room.old.items }
{
    write_in(room, from, piece);
}

impl Area {
    /// An empty content, with room for `capacity` bytes.
    pub(crate) fn new(alloc: Global, capacity: usize) -> Result<Area, AllocError>
        ensures { IfOk result (λ area. area ≡ empty capacity) }
    {
        Ok(Area {
            room: vec![in alloc; 0; capacity]?,
            used: 0,
        })
    }

    /// Borrows the content.
    pub(crate) fn content(&self) -> &[u8]
        ensures content { result.now ≡ self.now.content }
        ensures fits { length result.now ≤ self.now.capacity }
    {
        &self.room[..self.used]
    }

    /// Empties the content.
    pub(crate) fn clear(&mut self)
        ensures { self.new ≡ empty self.old.capacity }
    {
        self.used = 0;
    }

    /// Appends a piece to the content. If it does not fit, nothing changes.
    pub(crate) fn append(&mut self, piece: &[u8]) -> Result<(), TooLarge>
        ensures { Appends self.old piece.now self.new result }
    {
        if self.room.len() - self.used < piece.len() {
            return Err(TooLarge {
                capacity: self.room.len() as u64,
            });
        }
        let end = self.used + piece.len();
        self.room[self.used..end].copy_from_slice(piece);
        self.used = end;
        Ok(())
    }

    /// Overwrites the content with a piece, from byte `from` on.
    pub(crate) fn put(&mut self, from: usize, piece: &[u8])
        requires { from + length piece.now ≤ length self.old.content }
        ensures capacity { self.new.capacity ≡ self.old.capacity }
        ensures content { self.new.content ≡ written self.old.content from piece.now }
    {
        write_over(&mut self.room, from, piece);
    }

    /// Cuts the content to its first `size` bytes.
    pub(crate) fn cut(&mut self, size: usize)
        requires { size ≤ length self.old.content }
        ensures capacity { self.new.capacity ≡ self.old.capacity }
        ensures content { self.new.content ≡ take size self.old.content }
    {
        self.used = size;
    }

    /// Extends the content to `size` bytes. The new ones may be any.
    pub(crate) fn stretch(&mut self, size: usize)
        requires behind { length self.old.content ≤ size }
        requires fits { size ≤ self.old.capacity }
        ensures { Stretches self.old size self.new }
    {
        self.used = size;
    }
}
