//! What contracts say of the flash, the host and the launcher, before and after calls.

use flash_layout::Trail;
use suit_edge::{Disk, Host, Launcher};

/// Moments of a flash, together with a host and a launcher.
pub(crate) trait Moments<H: Host, L: Launcher>: Disk {
    ghost use Rattle.flash_slots.specs.RamContents.{Held};
    ghost use Rattle.std.specs.Prelude.{List};
    ghost use Rattle.step_machine.specs.Running.{Moment};
    ghost use Rattle.step_machine.specs.declared.machine.Work.{Work};

    /// The state of all three at a moment, with this in working memory: the files and the requests for them, the
    /// contents, the launches, and the counts of faults.
    ghost at: { H → Self → L → List Held → Moment };

    /// The same for the objects that a running procedure works with.
    ghost of_work: { Work H Self L → Moment };
}

impl<H: Host, D: Disk, L: Launcher> Moments<H, L> for D {
    ghost use Rattle.step_machine.specs.Fetching.{asked_at};
    ghost use Rattle.step_machine.specs.Running.{moment};
    ghost use Rattle.step_machine.specs.Steps.{disk_at};

    ghost at = { λ h d l ram. moment
        (record {
          told = H.told;
          files = H.file h;
          asked = asked_at (H.asked h) (H.pulled h);
          faults = H.faults h;
        })
        (disk_at D.told (D.extent d) (D.flash d) (D.faults d))
        (record { told = L.told; launches = L.launches l; faults = L.faults l }) ram };

    ghost of_work = { λ work. moment
        (record {
          told = H.told;
          files = H.file work.host.now;
          asked = asked_at (H.asked work.host.now) (H.pulled work.host.now);
          faults = H.faults work.host.now;
        })
        (disk_at D.told (D.extent work.disk.now) (D.flash work.disk.now) (D.faults work.disk.now))
        (record {
          told = L.told;
          launches = L.launches work.launcher.now;
          faults = L.faults work.launcher.now;
        }) work.ram.now };
}

/// Stages of a procedure: moments of the objects that it works with, together with a trail.
pub(crate) trait Stages<H: Host, L: Launcher, T: Trail>: Disk {
    ghost use Rattle.flash_slots.specs.RamContents.{Held};
    ghost use Rattle.std.specs.Prelude.{List};
    ghost use Rattle.step_machine.specs.Stages.{Stage};
    ghost use Rattle.step_machine.specs.declared.machine.Work.{Work};

    /// The moment, with this in working memory, and the state of the trail.
    ghost at: { H → Self → L → List Held → T → Stage };

    /// The same for the objects that a running procedure works with.
    ghost of_work: { Work H Self L → T → Stage };
}

impl<H: Host, D: Disk, L: Launcher, T: Trail> Stages<H, L, T> for D {
    ghost use Rattle.step_machine.specs.Stages.{stage};

    ghost at = { λ h d l ram t. stage (⟦<D as Moments<H, L>>⟧.at h d l ram) (record {
      told = T.told;
      silent = T.silent;
      left = T.left t;
      list = T.list t;
      room = T.room t;
      ranges = T.ranges t;
      holds = T.holds t;
    }) };

    ghost of_work = { λ work t. stage (⟦<D as Moments<H, L>>⟧.of_work work) (record {
      told = T.told;
      silent = T.silent;
      left = T.left t;
      list = T.list t;
      room = T.room t;
      ranges = T.ranges t;
      holds = T.holds t;
    }) };
}

/// What calls do to a flash.
pub trait Steps: Disk {
    ghost use Rattle.std.specs.Prelude.{ℕ};

    /// The flash was only read, and its count of faults went from before to after as the relation says.
    ghost only_reads: { (ℕ → ℕ → Type 0) → Self → Self → Type 0 };

    /// The flash keeps its size and the images of past moments, and its count of faults went from before to after as
    /// the relation says.
    ghost goes_on: { (ℕ → ℕ → Type 0) → Self → Self → Type 0 };
}

impl<D: Disk> Steps for D {
    ghost use Rattle.step_machine.specs.Steps.{GoesOn, IsOnlyRead, disk_at};

    ghost only_reads = { λ counts a b. IsOnlyRead counts
        (disk_at D.told (D.extent a) (D.flash a) (D.faults a))
        (disk_at D.told (D.extent b) (D.flash b) (D.faults b)) };

    ghost goes_on = { λ counts a b. GoesOn counts
        (disk_at D.told (D.extent a) (D.flash a) (D.faults a))
        (disk_at D.told (D.extent b) (D.flash b) (D.faults b)) };
}

/// What calls do to a host.
pub(crate) trait Pulls: Host {
    ghost use Rattle.std.specs.Prelude.{ℕ};

    /// The host keeps its files, and at most one byte more than this number was pulled.
    ghost pulls: { ℕ → Self → Self → Type 0 };
}

impl<H: Host> Pulls for H {
    ghost use Rattle.step_machine.specs.Fetching.{PullsUpTo};

    ghost pulls = { λ most a b. PullsUpTo H.told most (H.file a) (H.file b) (H.pulled a) (H.pulled b) };
}
