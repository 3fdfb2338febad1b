//! A disk that is read in place.

ghost use Rattle.flash_view.specs.ViewDisk.{ViewState, view_flash, view_obeys};
ghost use Rattle.std.specs.Prelude.{◌≡◌, ◌+◌, ◌≤◌, true, IsTrue, length, slice_range};
ghost use Rattle.suit_edge.specs.Edge.{IfDone};
ghost use Rattle.suit_edge.specs.Faults.{EdgeCounts, counted};
ghost use Rattle.suit_edge.specs.Flash.{Grows, IsSame, IsSettled, Keeps};
ghost use Rattle.suit_edge.specs.Ranges.{Outside, written};
ghost use Rattle.suit_edge.specs.declared.edge.Edge.TheVariants as edge;

use std::marker::Model;
use suit_edge::{Disk, Edge};

/// A disk over the bytes of a flash in memory, which are read in place. Reads and syncs never fail;
/// a write fails and changes nothing.
#[derive(Drop)]
pub struct ViewDisk<'a> {
    bytes: &'a [u8],
    faults: u64,
}

impl<'a> Model for ViewDisk<'a> {
    ghost Value = { ViewState };

    ghost view = { λ d. record { bytes = d.bytes.now; faults = d.faults } };
}

impl<'a> ViewDisk<'a> {
    /// A disk over these bytes, of which no call has failed.
    pub fn new(bytes: &'a [u8]) -> ViewDisk<'a>
        ensures { result ≡ record { bytes = bytes.now; faults = 0 } }
    {
        ViewDisk { bytes, faults: 0 }
    }
}

impl<'a> Disk for ViewDisk<'a> {
    ghost told = { true };

    ghost flash = { λ d. view_flash d.bytes };

    ghost extent = { λ d. length d.bytes };

    ghost faults = { λ d. d.faults };

    ghost obeys = { λ d t. view_obeys d.bytes };

    fn size(&self) -> u64
        ensures { result ≡ length self.now.bytes }
    {
        self.bytes.len() as u64
    }

    #[tactic(auto, using(suit_edge::specs::FlashLaws::same_flash, suit_edge::specs::FlashLaws::grows_start))]
    fn read_at(&mut self, place: u64, room: &mut [u8]) -> Edge
        requires { place + length room.old ≤ length self.old.bytes }
        ensures size { length self.new.bytes ≡ length self.old.bytes }
        ensures counts { EdgeCounts result self.old.faults self.new.faults }
        ensures bytes { IsTrue true
            → IfDone result
            (room.new
            ≡ slice_range (view_flash self.old.bytes).reads place (place + length room.old)) }
        ensures same { IsTrue true
            → IsSame (view_flash self.old.bytes) (view_flash self.new.bytes) }
        ensures grows { IsTrue true
            → Grows (view_flash self.old.bytes) (view_flash self.new.bytes) }
        ensures done { result ≡ edge.Done }
        ensures stays { self.new ≡ self.old }
    {
        let place = place as usize;
        room.copy_from_slice(&self.bytes[place..place + room.len()]);
        Edge::Done
    }

    #[tactic(auto, using(suit_edge::specs::FlashLaws::keeps_start, suit_edge::specs::FlashLaws::grows_start))]
    fn write_at(&mut self, _place: u64, _bytes: &[u8]) -> Edge
        requires { _place + length _bytes.now ≤ length self.old.bytes }
        ensures size { length self.new.bytes ≡ length self.old.bytes }
        ensures counts { EdgeCounts result self.old.faults self.new.faults }
        ensures written { IsTrue true
            → IfDone result
            ((view_flash self.new.bytes).reads
            ≡ written (view_flash self.old.bytes).reads _place _bytes.now) }
        ensures keeps { IsTrue true
            → Keeps (Outside _place (length _bytes.now)) (view_flash self.old.bytes)
            (view_flash self.new.bytes) }
        ensures grows { IsTrue true
            → Grows (view_flash self.old.bytes) (view_flash self.new.bytes) }
        ensures fails { result ≡ edge.Failed }
        ensures stays { self.new
            ≡ record { bytes = self.old.bytes; faults = counted self.old.faults } }
    {
        self.faults = self.faults.saturating_add(1);
        Edge::Failed
    }

    #[tactic(auto, using(suit_edge::specs::FlashLaws::same_flash, suit_edge::specs::FlashLaws::grows_start))]
    fn sync(&mut self) -> Edge
        ensures size { length self.new.bytes ≡ length self.old.bytes }
        ensures counts { EdgeCounts result self.old.faults self.new.faults }
        ensures settled { IsTrue true → IfDone result (IsSettled (view_flash self.new.bytes)) }
        ensures same { IsTrue true
            → IsSame (view_flash self.old.bytes) (view_flash self.new.bytes) }
        ensures grows { IsTrue true
            → Grows (view_flash self.old.bytes) (view_flash self.new.bytes) }
        ensures done { result ≡ edge.Done }
        ensures stays { self.new ≡ self.old }
    {
        Edge::Done
    }
}
