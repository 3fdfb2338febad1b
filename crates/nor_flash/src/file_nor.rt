//! NOR flash in a file.

ghost use Rattle.nor_flash.specs.declared.file_nor.TheConstants.{SIZE};
ghost use Rattle.std.specs.Prelude.{◌≡◌, ◌+◌, ◌%◌, ◌≤◌, ℕ, OnErr, OnOk, false, length};
ghost use Rattle.suit_edge.specs.Faults.{EdgeCounts};
ghost use Rattle.suit_edge.specs.FileDisk.{untold};
ghost use Rattle.suit_edge.specs.declared.edge.Edge.TheVariants as edge;

use crate::{BLOCK, Nor};
use std::fs::{self, File, OpenOptions};
use std::io;
use std::marker::Model;
use std::os::unix::fs::FileExt;
use std::rt::Files;
use suit_edge::Edge;

/// The name of the file, in the working directory.
const NAME: &str = "suit.nor";

/// The size of the device in bytes: 1,028 blocks, of which a disk over it has 1,024.
const SIZE: u64 = 4_210_688;

/// The bytes of an erased block.
const ERASED: [u8; BLOCK] = [0xff; BLOCK];

/// NOR flash of 4,210,688 bytes in the file `suit.nor` of the working directory, which is opened at
/// the first call. A missing file is created, a shorter one is filled up with 0xFF, and the rest of
/// a longer one is left alone. Each program and erase is synced. Its contracts do not say what it
/// holds.
#[derive(Drop)]
pub struct FileNor<R: Files<File = File> + Drop> {
    rt: R,
    file: Option<File>,
    faults: u64,
}

impl<R: Files<File = File> + Drop> Model for FileNor<R> {
    // the count of faults
    ghost Value = { ℕ };

    ghost view = { λ d. d.faults };
}

impl<R: Files<File = File> + Drop> FileNor<R> {
    /// A device in a file that the runtime reaches. Opens nothing yet.
    pub fn new(rt: R) -> FileNor<R>
        ensures { result ≡ 0 }
    {
        FileNor {
            rt,
            file: None,
            faults: 0,
        }
    }

    /// Whether the file exists; it is not created. If that cannot be told, the answer is yes, so
    /// that the first call on the device fails. No contract says which, since only the operating
    /// system knows.
    pub fn is_there(rt: &R) -> bool {
        fs::exists(rt, NAME).unwrap_or(true)
    }
}

// Fills the file with 0xFF from its end up to the size of the device, and syncs it.
fn fill(file: &File, end: u64) -> io::Result<()> {
    let mut place = end;
    while place < SIZE {
        let size = (SIZE - place).min(BLOCK as u64);
        file.write_all_at(&ERASED[..size as usize], place)?;
        place += size;
    }
    file.sync_all()
}

// Opens the file, and fills it up to the size of the device.
fn open<R: Files<File = File>>(rt: &R) -> io::Result<File> {
    let file = OpenOptions::new()
        .read(true)
        .write(true)
        .create(true)
        .open(rt, NAME)?;
    let end = file.metadata()?.len();
    if end < SIZE {
        fill(&file, end)?;
    }
    Ok(file)
}

// Takes the open file, or opens it at the first call.
fn take<R: Files<File = File>>(rt: &R, file: &mut Option<File>) -> io::Result<File> {
    match file.take() {
        Some(file) => Ok(file),
        None => open(rt),
    }
}

fn read<R: Files<File = File>>(
    rt: &R,
    file: &mut Option<File>,
    place: u64,
    room: &mut [u8],
) -> io::Result<()> {
    let opened = take(rt, file)?;
    let done = opened.read_exact_at(room, place);
    *file = Some(opened);
    done
}

// Writes bytes and syncs them.
fn write<R: Files<File = File>>(
    rt: &R,
    file: &mut Option<File>,
    place: u64,
    bytes: &[u8],
) -> io::Result<()> {
    let opened = take(rt, file)?;
    let done = opened
        .write_all_at(bytes, place)
        .and_then(|()| opened.sync_all());
    *file = Some(opened);
    done
}

// Clears, from `place` on, the bits that are not set in `bytes`.
fn program<R: Files<File = File>>(
    rt: &R,
    file: &mut Option<File>,
    place: u64,
    bytes: &[u8],
) -> io::Result<()>
    requires { length bytes.now ≤ 4096 }
{
    let mut room = [0; BLOCK];
    let room = &mut room[..bytes.len()];
    read(rt, file, place, room)?;
    for (byte, new) in room.iter_mut().zip(bytes) {
        *byte &= *new;
    }
    write(rt, file, place, room)
}

// Counts an error as a fault.
fn counts(faults: &mut u64, done: io::Result<()>) -> Edge
    ensures counts { EdgeCounts result faults.old faults.new }
    ensures ok { OnOk done (result ≡ edge.Done) }
    ensures err { OnErr done (result ≡ edge.Failed) }
{
    match done {
        Ok(()) => Edge::Done,
        Err(_) => {
            *faults = faults.saturating_add(1);
            Edge::Failed
        }
    }
}

impl<R: Files<File = File> + Drop> Nor for FileNor<R> {
    ghost use Rattle.std.proofs.Common.{rules};

    ghost told = { false };

    ghost flash = { λ _. untold };

    ghost extent = { λ _. SIZE };

    ghost faults = { λ d. d };

    ghost erases = { λ _. 0 };

    ghost obeys = { λ d told. absurd (Prim.search rules) };

    ghost rests = { λ d told. absurd (Prim.search rules) };

    ghost cells = { λ d told. absurd (Prim.search rules) };

    fn size(&self) -> u64 {
        SIZE
    }

    fn read_at(&mut self, place: u64, room: &mut [u8]) -> Edge {
        let done = read(&self.rt, &mut self.file, place, room);
        counts(&mut self.faults, done)
    }

    fn program(&mut self, place: u64, bytes: &[u8]) -> Edge {
        let done = program(&self.rt, &mut self.file, place, bytes);
        counts(&mut self.faults, done)
    }

    fn erase(&mut self, block: u64) -> Edge {
        let done = write(&self.rt, &mut self.file, BLOCK as u64 * block, &ERASED);
        counts(&mut self.faults, done)
    }
}
