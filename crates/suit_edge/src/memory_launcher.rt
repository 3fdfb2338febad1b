//! A launcher in memory.

ghost use Rattle.std.specs.Prelude.{◌≡◌, [], ◌∷◌, ◌++◌, true, IfOk, OnOk, OnErr, IsTrue, Ok};
ghost use Rattle.std.specs.Option.{option_copied};
ghost use Rattle.suit_edge.specs.Calls.{uncalled};
ghost use Rattle.suit_edge.specs.Flash.{Grows, IsSame};
ghost use Rattle.suit_edge.specs.Launch.{AddsLaunch, IsLaunch, LaunchCounts, LiesWithin};
ghost use Rattle.suit_edge.specs.MemoryLauncher.{LauncherState, LaunchesExactly};
ghost use Rattle.suit_edge.specs.declared.launch.Launch.{Launch};
ghost use Rattle.suit_edge.specs.TakenImage.{TakesImage, TakeCounts};

use crate::calls::Calls;
use crate::{Disk, Edge, Image, Label, Launch, Launched, Launcher, Launches};
use det_cbor::Bytes;
use std::alloc::{AllocError, Global};
use std::marker::Model;

/// A launcher that starts nothing, and remembers what it was asked to start.
#[derive(Debug, Drop)]
pub struct MemoryLauncher {
    alloc: Global,
    launches: Launches,
    calls: Calls,
}

impl Model for MemoryLauncher {
    ghost Value = { LauncherState };

    ghost view = { λ l. record { launches = l.launches; calls = l.calls } };
}

impl MemoryLauncher {
    /// A launcher without launches. Launches are counted from 0, and those whose numbers are in
    /// `fails` fail.
    pub fn new(alloc: Global, fails: &[u64]) -> Result<MemoryLauncher, AllocError>
        ensures { IfOk result
            (λ launcher. launcher ≡ record { launches = []; calls = uncalled fails.now }) }
    {
        Ok(MemoryLauncher {
            alloc,
            launches: Launches::new(alloc),
            calls: Calls::new(alloc, fails)?,
        })
    }

    /// The launches so far, oldest first.
    pub fn launches(&self) -> &Launches
        ensures { result.now ≡ self.now.launches }
    {
        &self.launches
    }

    /// How many launches failed because memory ran out.
    pub fn starved(&self) -> u64
        ensures { result ≡ self.now.calls.starved }
    {
        self.calls.starved()
    }
}

// The outcome of copying the bytes of an image.
pub(crate) enum TakenImage {
    Got(Bytes),
    DiskFailed,
    NoMemory,
}

// Copies the bytes of an image.
fn take_image<D: Disk>(alloc: Global, disk: &mut D, image: Image<'_>) -> TakenImage
    requires { LiesWithin (D.extent disk.old) image }
    ensures size { D.extent disk.new ≡ D.extent disk.old }
    ensures counts { TakeCounts result (D.faults disk.old) (D.faults disk.new) }
    ensures taken { TakesImage result image.entry D.told (D.flash disk.old).reads }
    ensures same { IsTrue D.told → IsSame (D.flash disk.old) (D.flash disk.new) }
    ensures grows { IsTrue D.told → Grows (D.flash disk.old) (D.flash disk.new) }
{
    match image {
        Image::Ram(held) => match Bytes::from_slice(alloc, held) {
            Ok(bytes) => TakenImage::Got(bytes),
            Err(_) => TakenImage::NoMemory,
        },
        Image::Flash { place, length } => {
            let Ok(mut room) = vec![in alloc; 0u8; length as usize] else {
                return TakenImage::NoMemory;
            };
            match disk.read_at(place, &mut room) {
                Edge::Done => TakenImage::Got(Bytes::from_vec(room)),
                Edge::Failed => TakenImage::DiskFailed,
            }
        }
    }
}

// Copies bytes that may be absent.
fn copied(alloc: Global, bytes: Option<&[u8]>) -> Result<Option<Bytes>, AllocError>
    ensures { IfOk result (λ copy. copy ≡ option_copied bytes.entry) }
{
    match bytes {
        Some(held) => Ok(Some(Bytes::from_slice(alloc, held)?)),
        None => Ok(None),
    }
}

// A launch of these bytes. The parts of the label are copied.
fn launch_of(alloc: Global, bytes: Bytes, label: Label<'_>) -> Result<Launch, AllocError>
    ensures { IfOk result
        (λ launch. launch
        ≡
        record {
          component = label.entry.component;
          bytes = bytes;
          digest = option_copied label.entry.digest;
          size = label.entry.size;
          args = option_copied label.entry.args;
        }) }
{
    Ok(Launch {
        component: label.component,
        bytes,
        digest: copied(alloc, label.digest)?,
        size: label.size,
        args: copied(alloc, label.args)?,
    })
}

// Appends the launch, unless memory ran out while it was made.
fn note(launches: &mut Launches, launch: Result<Launch, AllocError>) -> Result<(), AllocError>
    ensures ok { OnOk result
        ((added : Launch) × (launch ≡ Ok added) × (launches.new ≡ launches.old ++ added ∷ [])) }
    ensures err { OnErr result (launches.new ≡ launches.old) }
{
    launches.push(launch?)
}

impl Launcher for MemoryLauncher {
    ghost told = { true };

    ghost launches = { λ l. l.launches };

    ghost faults = { λ l. l.calls.faults };

    fn launch<D: Disk>(&mut self, disk: &mut D, image: Image<'_>, label: Label<'_>) -> Launched
        requires { LiesWithin (D.extent disk.old) image }
        ensures size { D.extent disk.new ≡ D.extent disk.old }
        ensures counts { LaunchCounts result self.old.calls.faults self.new.calls.faults
            (D.faults disk.old) (D.faults disk.new) }
        ensures launches { IsTrue true
            → AddsLaunch result self.old.launches self.new.launches
            (IsLaunch image.entry D.told (D.flash disk.old).reads label.entry.component
            (option_copied label.entry.digest) label.entry.size (option_copied label.entry.args)) }
        ensures same { IsTrue D.told → IsSame (D.flash disk.old) (D.flash disk.new) }
        ensures grows { IsTrue D.told → Grows (D.flash disk.old) (D.flash disk.new) }
        ensures exact { LaunchesExactly result self.old self.new (D.faults disk.old)
            (D.faults disk.new) }
    {
        if self.calls.next_fails() {
            return Launched::Failed;
        }
        let bytes = match take_image(self.alloc, disk, image) {
            TakenImage::Got(bytes) => bytes,
            TakenImage::DiskFailed => return Launched::DiskFailed,
            TakenImage::NoMemory => {
                self.calls.starve();
                return Launched::Failed;
            }
        };
        let launch = launch_of(self.alloc, bytes, label);
        match note(&mut self.launches, launch) {
            Ok(()) => Launched::Done,
            Err(_) => {
                self.calls.starve();
                Launched::Failed
            }
        }
    }
}
