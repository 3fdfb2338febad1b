//! A launcher that notes the image to be started, and starts nothing.

ghost use Rattle.flash_view.specs.Noting.{FailsWhere, IsFirstNote, IsUnfit, IsUnnoted, Notes, ViewLaunches, failed_once, launches_of};
ghost use Rattle.std.specs.Option.{option_copied};
ghost use Rattle.std.specs.Prelude.{◌≡◌, true, IsTrue, MatchOption, None};
ghost use Rattle.suit_edge.specs.Faults.{Faulted};
ghost use Rattle.suit_edge.specs.Flash.{Grows, IsSame};
ghost use Rattle.suit_edge.specs.Launch.{AddsLaunch, IsLaunch, LaunchCounts, LiesWithin};

use crate::NotedImage;
use crate::noted_image::note_of;
use crate::standing::{Stood, stands};
use std::marker::Model;
use suit_edge::{Disk, Image, Label, Launched, Launcher};

/// A launcher over a flash in memory. It notes the first image, after checking that the disk reads
/// what the flash holds there, and leaves it to the caller to start it. A launch fails if there is
/// a note already, if the image is in working memory or not inside the flash, if the disk reads
/// other bytes, or if the digest or the arguments are too long for a note.
#[derive(Drop)]
pub struct ViewLauncher<'a> {
    flash: &'a [u8],
    noted: Option<NotedImage>,
    faults: u64,
}

impl<'a> Model for ViewLauncher<'a> {
    ghost Value = { ViewLaunches };

    ghost view = { λ l. record { flash = l.flash.now; noted = l.noted; faults = l.faults } };
}

impl<'a> ViewLauncher<'a> {
    /// A launcher over this flash, which has noted nothing.
    pub fn new(flash: &'a [u8]) -> ViewLauncher<'a>
        ensures { result ≡ record { flash = flash.now; noted = None; faults = 0 } }
    {
        ViewLauncher {
            flash,
            noted: None,
            faults: 0,
        }
    }

    /// The flash that images are noted in.
    pub fn flash(&self) -> &[u8]
        ensures { result.now ≡ self.now.flash }
    {
        self.flash
    }

    /// The image to be started, if one was noted.
    pub fn noted(&self) -> Option<&NotedImage>
        ensures { option_copied result ≡ self.now.noted }
    {
        self.noted.as_ref()
    }
}

impl<'a> ViewLauncher<'a> {
    // Notes an image in the flash, if it fits and there is no note yet.
    fn note_for(&self, image: Image<'_>, label: Label<'_>) -> Option<NotedImage>
        ensures { MatchOption result
            (IsUnnoted image.entry label.entry self.now)
            (IsFirstNote image.entry label.entry self.now) }
    {
        if self.noted.is_some() {
            return None;
        }
        match image {
            Image::Flash { place, length } => note_of(label, place, length).ok(),
            Image::Ram(_) => None,
        }
    }

    // Counts a fault.
    fn count_fault(&mut self)
        ensures counted { self.new ≡ failed_once self.old }
        ensures faulted { Faulted self.old.faults self.new.faults }
    {
        self.faults = self.faults.saturating_add(1);
    }
}

impl<'a> Launcher for ViewLauncher<'a> {
    ghost told = { true };

    ghost launches = { launches_of };

    ghost faults = { λ l. l.faults };

    fn launch<D: Disk>(&mut self, disk: &mut D, image: Image<'_>, label: Label<'_>) -> Launched
        requires { LiesWithin (D.extent disk.old) image }
        ensures size { D.extent disk.new ≡ D.extent disk.old }
        ensures counts { LaunchCounts result self.old.faults self.new.faults (D.faults disk.old)
            (D.faults disk.new) }
        ensures launches { IsTrue true
            → AddsLaunch result (launches_of self.old) (launches_of self.new)
            (IsLaunch image.entry D.told (D.flash disk.old).reads label.entry.component
            (option_copied label.entry.digest) label.entry.size (option_copied label.entry.args)) }
        ensures same { IsTrue D.told → IsSame (D.flash disk.old) (D.flash disk.new) }
        ensures grows { IsTrue D.told → Grows (D.flash disk.old) (D.flash disk.new) }
        ensures notes { Notes result image.entry label.entry self.old self.new }
        ensures fails { IsTrue D.told
            → FailsWhere result
            (IsUnfit image.entry label.entry self.old (D.flash disk.old).reads) }
    {
        let Some(note) = self.note_for(image, label) else {
            self.count_fault();
            return Launched::Failed;
        };
        let Some(bytes) = note.bytes_in(self.flash) else {
            self.count_fault();
            return Launched::Failed;
        };
        match stands(disk, note.place, bytes) {
            Stood::Same => {
                self.noted = Some(note);
                Launched::Done
            }
            Stood::Differs => {
                self.count_fault();
                Launched::Failed
            }
            Stood::DiskFailed => Launched::DiskFailed,
        }
    }
}
