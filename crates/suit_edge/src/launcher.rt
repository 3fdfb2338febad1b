//! Starting images.

ghost use Rattle.std.specs.Prelude.{◌≡◌, ℕ, Bool, List, IsTrue};
ghost use Rattle.std.specs.Option.{option_copied};
ghost use Rattle.suit_edge.specs.Flash.{Grows, IsSame};
ghost use Rattle.suit_edge.specs.Launch.{AddsLaunch, IsLaunch, LaunchCounts, LiesWithin};
ghost use Rattle.suit_edge.specs.declared.launch.Launch.{Launch};

use crate::Disk;

/// An image that can be launched.
#[derive(Clone, Copy, Debug)]
pub enum Image<'a> {
    /// `length` bytes of the disk, from `place` on.
    Flash { place: u64, length: u64 },
    /// Bytes in memory.
    Ram(&'a [u8]),
}

/// The label of a launched image: its component, and the digest, size and arguments that its
/// parameters name.
#[derive(Clone, Copy, Debug)]
pub struct Label<'a> {
    /// The index of the component in the manifest.
    pub component: u32,
    /// The digest that the parameters name, if any.
    pub digest: Option<&'a [u8]>,
    /// The size in bytes that they name, if any.
    pub size: Option<u64>,
    /// The arguments that they name, if any.
    pub args: Option<&'a [u8]>,
}

/// The outcome of a launch.
#[derive(Clone, Copy, Debug, PartialEq, Eq)]
pub enum Launched {
    /// The image was launched, and what it started has ended.
    Done,
    /// The disk failed, and its count of faults rose. Nothing was launched.
    DiskFailed,
    /// The launcher failed, and its count of faults rose. Nothing was launched.
    Failed,
}

/// A way to start images.
pub trait Launcher {
    /// Whether the contracts of this type say what was launched.
    ghost told: { Bool };

    /// The launches so far, oldest first.
    ghost launches: { Self → List Launch };

    /// How often a call has failed.
    ghost faults: { Self → ℕ };

    /// Launches the image under its label.
    fn launch<D: Disk>(&mut self, disk: &mut D, image: Image<'_>, label: Label<'_>) -> Launched
        requires { LiesWithin (D.extent disk.old) image }
        ensures size { D.extent disk.new ≡ D.extent disk.old }
        ensures counts { LaunchCounts result (faults self.old) (faults self.new) (D.faults disk.old)
            (D.faults disk.new) }
        ensures launches { IsTrue told
            → AddsLaunch result (launches self.old) (launches self.new)
            (IsLaunch image.entry D.told (D.flash disk.old).reads label.entry.component
            (option_copied label.entry.digest) label.entry.size (option_copied label.entry.args)) }
        ensures same { IsTrue D.told → IsSame (D.flash disk.old) (D.flash disk.new) }
        ensures grows { IsTrue D.told → Grows (D.flash disk.old) (D.flash disk.new) };
}
