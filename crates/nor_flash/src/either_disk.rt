//! A disk of one of two types.

ghost use Rattle.nor_flash.specs.EitherDisk.{either_flash, either_number, either_obeys};
ghost use Rattle.std.specs.Prelude.{◌&&◌};

use suit_edge::{Disk, Edge};

/// A disk of one of two types. If the contracts of both types say what a disk holds, so do these.
#[derive(Drop)]
pub enum EitherDisk<A, B> {
    First(A),
    Second(B),
}

impl<A: Disk + Drop, B: Disk + Drop> Disk for EitherDisk<A, B> {
    ghost told = { A.told && B.told };

    ghost flash = { λ d. either_flash A.flash B.flash d };

    ghost extent = { λ d. either_number A.extent B.extent d };

    ghost faults = { λ d. either_number A.faults B.faults d };

    ghost obeys = { λ d t.
        either_obeys A.told B.told A.extent B.extent A.flash B.flash A.obeys B.obeys d t };

    fn size(&self) -> u64 {
        match self {
            EitherDisk::First(disk) => disk.size(),
            EitherDisk::Second(disk) => disk.size(),
        }
    }

    fn read_at(&mut self, place: u64, room: &mut [u8]) -> Edge {
        match self {
            EitherDisk::First(disk) => disk.read_at(place, room),
            EitherDisk::Second(disk) => disk.read_at(place, room),
        }
    }

    fn write_at(&mut self, place: u64, bytes: &[u8]) -> Edge {
        match self {
            EitherDisk::First(disk) => disk.write_at(place, bytes),
            EitherDisk::Second(disk) => disk.write_at(place, bytes),
        }
    }

    fn sync(&mut self) -> Edge {
        match self {
            EitherDisk::First(disk) => disk.sync(),
            EitherDisk::Second(disk) => disk.sync(),
        }
    }
}
