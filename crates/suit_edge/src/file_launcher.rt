//! A launcher that writes images into files.

ghost use Rattle.std.specs.Prelude.{◌≡◌, ◌+◌, ◌≤◌, ◌++◌, [], ℕ, IsTrue, codes, false};
ghost use Rattle.std.specs.Fmt.{decimal};
ghost use Rattle.suit_edge.specs.Flash.{Grows, IsSame};
ghost use Rattle.suit_edge.specs.Launch.{LaunchCounts, LiesWithin};
ghost use Rattle.suit_edge.specs.FileLauncher.{StepCounts};

use crate::{Disk, Edge, Image, Label, Launched, Launcher};
use arrayvec::ArrayString;
use std::fs::{self, File};
use std::io::Write;
use std::marker::Model;
use std::rt::Files;

/// The length in bytes of the longest name, `boot-4294967295.img`.
const LONGEST_NAME: usize = 19;

/// How many bytes of an image are read at once.
const PIECE: usize = 4096;

/// A launcher that writes the image of component C into the file `boot-C.img` of the working
/// directory, and starts nothing. If it fails, the file may hold a part of the image. It allocates
/// nothing, and its contracts do not say what it launched.
#[derive(Drop)]
pub struct FileLauncher<R: Files<File = File> + Drop> {
    rt: R,
    faults: u64,
}

impl<R: Files<File = File> + Drop> Model for FileLauncher<R> {
    // the count of faults
    ghost Value = { ℕ };

    ghost view = { λ l. l.faults };
}

impl<R: Files<File = File> + Drop> FileLauncher<R> {
    /// A launcher into files that the runtime reaches. Opens nothing yet.
    pub fn new(rt: R) -> FileLauncher<R>
        ensures { result ≡ 0 }
    {
        FileLauncher { rt, faults: 0 }
    }
}

// The name of the file of a component's image.
fn image_name(component: u32) -> ArrayString<LONGEST_NAME>
    ensures { result.bytes ≡ (codes "boot-" ++ decimal component) ++ codes ".img" }
{
    let mut digits = itoa::Buffer::new();
    let mut name = ArrayString::new();
    name.push_str("boot-");
    name.push_str(digits.format(component));
    name.push_str(".img");
    name
}

// Appends bytes to a file.
fn append(file: &mut File, bytes: &[u8]) -> Edge {
    match file.write_all(bytes) {
        Ok(()) => Edge::Done,
        Err(_) => Edge::Failed,
    }
}

// Appends a range of the disk to a file. `Failed` means that the file failed.
fn copy_range<D: Disk>(disk: &mut D, place: u64, length: u64, file: &mut File) -> Launched
    requires { place + length ≤ D.extent disk.old }
    ensures size { D.extent disk.new ≡ D.extent disk.old }
    ensures counts { StepCounts result (D.faults disk.old) (D.faults disk.new) }
    ensures same { IsTrue D.told → IsSame (D.flash disk.old) (D.flash disk.new) }
    ensures grows { IsTrue D.told → Grows (D.flash disk.old) (D.flash disk.new) }
{
    // The size fits a `u64`, and so does each place. The proof learns it here.
    let _size = disk.size();
    let mut room = [0u8; PIECE];
    let mut done: u64 = 0;
    while done < length {
        let count = (length - done).min(PIECE as u64);
        match disk.read_at(place + done, &mut room[..count as usize]) {
            Edge::Done => {}
            Edge::Failed => return Launched::DiskFailed,
        }
        match append(file, &room[..count as usize]) {
            Edge::Done => {}
            Edge::Failed => return Launched::Failed,
        }
        done += count;
    }
    Launched::Done
}

// Writes an image into a file.
fn write_image<D: Disk>(disk: &mut D, image: Image<'_>, file: &mut File) -> Launched
    requires { LiesWithin (D.extent disk.old) image }
    ensures size { D.extent disk.new ≡ D.extent disk.old }
    ensures counts { StepCounts result (D.faults disk.old) (D.faults disk.new) }
    ensures same { IsTrue D.told → IsSame (D.flash disk.old) (D.flash disk.new) }
    ensures grows { IsTrue D.told → Grows (D.flash disk.old) (D.flash disk.new) }
{
    match image {
        Image::Flash { place, length } => copy_range(disk, place, length, file),
        Image::Ram(bytes) => match append(file, bytes) {
            Edge::Done => Launched::Done,
            Edge::Failed => Launched::Failed,
        },
    }
}

impl<R: Files<File = File> + Drop> Launcher for FileLauncher<R> {
    ghost told = { false };

    ghost launches = { λ _. [] };

    ghost faults = { λ l. l };

    fn launch<D: Disk>(&mut self, disk: &mut D, image: Image<'_>, label: Label<'_>) -> Launched {
        let Ok(mut file) = fs::create(&self.rt, image_name(label.component).as_str()) else {
            self.faults = self.faults.saturating_add(1);
            return Launched::Failed;
        };
        match write_image(disk, image, &mut file) {
            Launched::Done => Launched::Done,
            Launched::DiskFailed => Launched::DiskFailed,
            Launched::Failed => {
                self.faults = self.faults.saturating_add(1);
                Launched::Failed
            }
        }
    }
}
