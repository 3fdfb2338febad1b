//! The command `run boot`: starts what is installed.

ghost use Rattle.std.specs.Prelude.{◌≡◌, IsTrue};
ghost use Rattle.flash_layout.specs.Configs.{ConfigOf, Configured, IsAllowed};
ghost use Rattle.suit_cli.specs.Coming.{BootKeeps, BootKeepsBy, BootsBy, Comes, ended_of};
ghost use Rattle.suit_cli.specs.Commands.{does};
ghost use Rattle.suit_cli.specs.Settling.{StaysInOrder};
ghost use Rattle.suit_cli.specs.Words.{RunBoot};

use crate::answer::Answer;
use crate::boot_lines::{BOOT_ROOM, boot_line};
use crate::outside::{SeenDisk, SeenHost, SeenLauncher};
use crate::reply::Stop;
use crate::status::{Config, config_in};
use invoke_proc::{BootBuffer, boot};
use rollback_record::sound_laws;
use std::alloc::Global;
use suit_edge::{Disk, Host, Launcher};

// Boots with this configuration. All memory is taken before anything is started.
fn boot_by<H: Host, D: Disk, L: Launcher>(
    alloc: Global,
    host: &mut H,
    flash: &mut D,
    launcher: &mut L,
    config: &Config,
) -> Answer
    requires allowed { IsAllowed config.now.2 (D.extent flash.old) config.now.0 config.now.1 }
    requires held { IsTrue D.told
        → ConfigOf (D.extent flash.old) (D.flash flash.old).reads
        (Configured config.now.0 config.now.1 config.now.2) }
    ensures answer { BootsBy config.now
        (⟦<L as SeenLauncher>⟧.seen launcher.old) (⟦<L as SeenLauncher>⟧.seen launcher.new)
        (⟦<H as SeenHost>⟧.seen host.old (⟦<D as SeenDisk>⟧.seen flash.old))
        (⟦<H as SeenHost>⟧.seen host.new (⟦<D as SeenDisk>⟧.seen flash.new)) (ended_of result) }
    ensures keeps { IsTrue D.told
        → BootKeepsBy config.now (ended_of result)
        (D.flash flash.old) (D.flash flash.new) }
    ensures unasked { host.new ≡ host.old }
    ensures extent { D.extent flash.new ≡ D.extent flash.old }
    ensures flash { IsTrue D.told → StaysInOrder (D.flash flash.old) (D.flash flash.new)
        (D.faults flash.old) (D.faults flash.new) }
{
    sound_laws();
    let mut line = String::new(alloc);
    match line.reserve(BOOT_ROOM) {
        Ok(()) => {}
        Err(_) => return Answer::Said(Err(Stop::NoMemory)),
    }
    let buffer = match BootBuffer::new(alloc, &config.0, config.2) {
        Ok(buffer) => buffer,
        Err(_) => return Answer::Said(Err(Stop::NoMemory)),
    };
    let end = boot(
        buffer, host, flash, launcher, &config.0, config.2, &config.1,
    );
    let text = boot_line(line, end);
    Answer::Booted(end, text)
}

/// The answer to `run boot`.
pub(crate) fn run_boot<H: Host, D: Disk, L: Launcher>(
    alloc: Global,
    host: &mut H,
    flash: &mut D,
    launcher: &mut L,
) -> Answer
    ensures answer { Comes (does RunBoot) (λ task. RunBoot ≡ task)
        (⟦<L as SeenLauncher>⟧.seen launcher.old) (⟦<L as SeenLauncher>⟧.seen launcher.new)
        (⟦<H as SeenHost>⟧.seen host.old (⟦<D as SeenDisk>⟧.seen flash.old))
        (⟦<H as SeenHost>⟧.seen host.new (⟦<D as SeenDisk>⟧.seen flash.new)) (ended_of result) }
    ensures unasked { host.new ≡ host.old }
    ensures extent { D.extent flash.new ≡ D.extent flash.old }
    ensures flash { IsTrue D.told → StaysInOrder (D.flash flash.old) (D.flash flash.new)
        (D.faults flash.old) (D.faults flash.new) }
    ensures keeps { IsTrue D.told → BootKeeps
        (⟦<H as SeenHost>⟧.seen host.old (⟦<D as SeenDisk>⟧.seen flash.old))
        (ended_of result) (D.flash flash.old) (D.flash flash.new) }
{
    sound_laws();
    match config_in(alloc, flash) {
        Ok(config) => boot_by(alloc, host, flash, launcher, &config),
        Err(stop) => Answer::Said(Err(stop)),
    }
}
