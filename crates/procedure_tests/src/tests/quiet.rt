//! A disk that tells nothing, so that tests need not prove what it holds.

ghost use Rattle.std.specs.Prelude.{◌≡◌, false, length};
ghost use Rattle.suit_edge.specs.MemoryDisk.{memory_flash};

use suit_edge::{Disk, Edge, FuseDisk};

/// A disk whose power fails, behind calls that say nothing about its bytes.
#[derive(Drop)]
pub(crate) struct Quiet {
    pub(crate) disk: FuseDisk,
}

impl Disk for Quiet {
    ghost use Rattle.std.proofs.Common.{rules};

    ghost told = { false };

    ghost flash = { λ q. memory_flash q.disk.disk };

    ghost extent = { λ q. length q.disk.disk.first };

    ghost faults = { λ q. q.disk.faults };

    ghost obeys = { λ q told. absurd (Prim.search rules) };

    fn size(&self) -> u64 {
        self.disk.size()
    }

    fn read_at(&mut self, place: u64, room: &mut [u8]) -> Edge {
        self.disk.read_at(place, room)
    }

    fn write_at(&mut self, place: u64, bytes: &[u8]) -> Edge {
        self.disk.write_at(place, bytes)
    }

    fn sync(&mut self) -> Edge {
        self.disk.sync()
    }
}
