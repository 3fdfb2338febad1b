//! A run of the program, with what follows from its answer by the laws of runs.

ghost use Rattle.std.specs.Prelude.{◌≡◌, ◌≤◌, IsTrue, Some, None};
ghost use Rattle.suit_cli.specs.Program.{
  AsFound,
  EndsIn,
  IsCutOff,
  IsStatus,
  IsUsage,
  KeepsLauncher,
};
ghost use Rattle.suit_cli.specs.Surroundings.{seen};
ghost use Rattle.suit_cli.specs.Words.{RunBoot, task_of};
ghost use Rattle.flash_layout.specs.declared.frame.TheConstants.{HEAD_SIZE};

use det_cbor::Names;
use std::alloc::Global;
use suit_cli::{SeenDisk, SeenHost, SeenLauncher, SeenSink, Status, run, run_laws};
use suit_edge::{Disk, Host, Launcher, Sink};

/// Runs the program. What `run_laws` says of its answer holds of the objects.
pub(crate) fn run_by_laws<H: Host, D: Disk, L: Launcher, K: Sink>(
    alloc: Global,
    words: &Names,
    host: &mut H,
    flash: &mut D,
    launcher: &mut L,
    sink: &mut K,
) -> Status
    requires { HEAD_SIZE ≤ D.extent flash.old }
    ensures size { D.extent flash.new ≡ D.extent flash.old }
    ensures usage { result.0 ≡ 2 →
        IsUsage words.now (⟦<K as SeenSink>⟧.seen sink.old) (⟦<K as SeenSink>⟧.seen sink.new) }
    ensures no_command_is_usage { task_of words.now ≡ None → EndsIn 2 result.0 }
    ensures status { IsStatus result.0 }
    ensures only_launching { KeepsLauncher words.now
        (⟦<L as SeenLauncher>⟧.seen launcher.old) (⟦<L as SeenLauncher>⟧.seen launcher.new) }
    ensures no_host { IsTrue D.told → IsTrue L.told → task_of words.now ≡ Some RunBoot
        → result.0 ≡ 7 → ⊥ }
    ensures starved { result.0 ≡ 11
        → AsFound
        (seen (⟦<H as SeenHost>⟧.seen host.old (⟦<D as SeenDisk>⟧.seen flash.old))
        (⟦<L as SeenLauncher>⟧.seen launcher.old))
        (seen (⟦<H as SeenHost>⟧.seen host.new (⟦<D as SeenDisk>⟧.seen flash.new))
        (⟦<L as SeenLauncher>⟧.seen launcher.new)) }
    ensures cut_off { result.0 ≡ 9 → IsCutOff words.now
        (seen (⟦<H as SeenHost>⟧.seen host.old (⟦<D as SeenDisk>⟧.seen flash.old))
        (⟦<L as SeenLauncher>⟧.seen launcher.old))
        (seen (⟦<H as SeenHost>⟧.seen host.new (⟦<D as SeenDisk>⟧.seen flash.new))
        (⟦<L as SeenLauncher>⟧.seen launcher.new))
        (⟦<K as SeenSink>⟧.seen sink.old) (⟦<K as SeenSink>⟧.seen sink.new) }
{
    run_laws();
    run(alloc, words, host, flash, launcher, sink)
}
