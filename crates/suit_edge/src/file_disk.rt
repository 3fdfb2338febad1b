//! A disk in a file.

ghost use Rattle.std.specs.Prelude.{◌≡◌, ℕ, OnErr, OnOk, false};
ghost use Rattle.suit_edge.specs.Faults.{EdgeCounts};
ghost use Rattle.suit_edge.specs.FileDisk.{untold};
ghost use Rattle.suit_edge.specs.declared.edge.Edge.TheVariants as edge;
ghost use Rattle.suit_edge.specs.declared.file_disk.TheConstants.{SIZE};

use crate::{Disk, Edge};
use std::fs::{File, OpenOptions};
use std::io;
use std::marker::Model;
use std::os::unix::fs::FileExt;
use std::rt::Files;

/// The name of the file, in the working directory.
const NAME: &str = "suit.flash";

/// The number of bytes of the disk.
const SIZE: u64 = 4_194_304;

/// A disk of 4,194,304 bytes in the file `suit.flash` of the working directory, which is opened at
/// the first call. A missing file is created with zeros, a shorter one is extended with zeros, and
/// the rest of a longer one is left alone. Its contracts do not say what it holds.
#[derive(Drop)]
pub struct FileDisk<R: Files<File = File> + Drop> {
    rt: R,
    file: Option<File>,
    faults: u64,
}

impl<R: Files<File = File> + Drop> Model for FileDisk<R> {
    // the count of faults
    ghost Value = { ℕ };

    ghost view = { λ d. d.faults };
}

impl<R: Files<File = File> + Drop> FileDisk<R> {
    /// A disk in a file that the runtime reaches. Opens nothing yet.
    pub fn new(rt: R) -> FileDisk<R>
        ensures { result ≡ 0 }
    {
        FileDisk {
            rt,
            file: None,
            faults: 0,
        }
    }
}

// Opens the file and extends it to the size of the disk.
fn open<R: Files<File = File>>(rt: &R) -> io::Result<File> {
    let file = OpenOptions::new()
        .read(true)
        .write(true)
        .create(true)
        .open(rt, NAME)?;
    if file.metadata()?.len() < SIZE {
        file.set_len(SIZE)?;
    }
    Ok(file)
}

// Takes the open file, or opens it at the first call.
fn take<R: Files<File = File>>(rt: &R, file: &mut Option<File>) -> io::Result<File> {
    match file.take() {
        Some(file) => Ok(file),
        None => open(rt),
    }
}

fn read<R: Files<File = File>>(
    rt: &R,
    file: &mut Option<File>,
    place: u64,
    room: &mut [u8],
) -> io::Result<()> {
    let opened = take(rt, file)?;
    let done = opened.read_exact_at(room, place);
    *file = Some(opened);
    done
}

fn write<R: Files<File = File>>(
    rt: &R,
    file: &mut Option<File>,
    place: u64,
    bytes: &[u8],
) -> io::Result<()> {
    let opened = take(rt, file)?;
    let done = opened.write_all_at(bytes, place);
    *file = Some(opened);
    done
}

fn flush<R: Files<File = File>>(rt: &R, file: &mut Option<File>) -> io::Result<()> {
    let opened = take(rt, file)?;
    let done = opened.sync_all();
    *file = Some(opened);
    done
}

// Counts an error as a fault.
fn counts(faults: &mut u64, done: io::Result<()>) -> Edge
    ensures counts { EdgeCounts result faults.old faults.new }
    ensures ok { OnOk done (result ≡ edge.Done) }
    ensures err { OnErr done (result ≡ edge.Failed) }
{
    match done {
        Ok(()) => Edge::Done,
        Err(_) => {
            *faults = faults.saturating_add(1);
            Edge::Failed
        }
    }
}

impl<R: Files<File = File> + Drop> Disk for FileDisk<R> {
    ghost use Rattle.std.proofs.Common.{rules};

    ghost told = { false };

    ghost flash = { λ _. untold };

    ghost extent = { λ _. SIZE };

    ghost faults = { λ d. d };

    ghost obeys = { λ d told. absurd (Prim.search rules) };

    fn size(&self) -> u64 {
        SIZE
    }

    fn read_at(&mut self, place: u64, room: &mut [u8]) -> Edge {
        let done = read(&self.rt, &mut self.file, place, room);
        counts(&mut self.faults, done)
    }

    fn write_at(&mut self, place: u64, bytes: &[u8]) -> Edge {
        let done = write(&self.rt, &mut self.file, place, bytes);
        counts(&mut self.faults, done)
    }

    fn sync(&mut self) -> Edge {
        let done = flush(&self.rt, &mut self.file);
        counts(&mut self.faults, done)
    }
}
