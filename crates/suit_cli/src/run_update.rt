//! The command `run update`: an envelope is accepted, its update procedure run, and the envelope installed.

ghost use Rattle.std.specs.Prelude.{◌≡◌, ◌<◌, ◌^◌, IsTrue, List, length};
ghost use Rattle.flash_layout.specs.Configs.{ConfigOf, Configured, IsAllowed};
ghost use Rattle.flash_layout.specs.Placement.{HaveOtherPlaces};
ghost use Rattle.rollback_record.specs.SoundFlash.{Settled};
ghost use Rattle.suit_envelope.specs.WrapperParts.{HasWrapper};
ghost use Rattle.admission.specs.Admission.{admission_of};
ghost use Rattle.suit_cli.specs.Acceptance.{IsAccepted};
ghost use Rattle.suit_cli.specs.Coming.{
  Comes,
  KeepsAccepted,
  StaysOrKeeps,
  UpdatesBy,
  ended_of,
};
ghost use Rattle.suit_cli.specs.Beginnings.{begins_update};
ghost use Rattle.suit_cli.specs.Commands.{does};
ghost use Rattle.suit_cli.specs.Settling.{StaysInOrder};
ghost use Rattle.suit_cli.specs.Updating.{offer};
ghost use Rattle.suit_cli.specs.Words.{Named, RunUpdate, pairs_of};

use crate::accept::accept;
use crate::answer::Answer;
use crate::input::{LONGEST_FILE, read};
use crate::outside::{SeenDisk, SeenHost, SeenLauncher};
use crate::reply::Stop;
use crate::status::{Config, config_in};
use crate::update_lines::{UPDATE_ROOM, update_line};
use crate::words::uris_named;
use admission::Admitted;
use command_words::UriWords;
use flash_layout::config_laws;
use path_model::play_laws;
use place_laws::installation_laws;
use rollback_record::sound_laws;
use std::alloc::Global;
use step_machine::{Uris, has_identifiers};
use suit_edge::{Disk, Host, Launcher};
use suit_envelope::envelope_laws;
use suit_manifest::{manifest_laws, procedure_laws};
use update_proc::{Update, update};

// Runs the update of an accepted envelope. The room for the line is taken before anything is done.
fn update_by<H: Host, D: Disk, L: Launcher>(
    alloc: Global,
    host: &mut H,
    flash: &mut D,
    launcher: &mut L,
    config: &Config,
    accepted: &Admitted<'_>,
    uris: &Uris,
) -> Answer
    requires allowed { IsAllowed config.now.2 (D.extent flash.old) config.now.0 config.now.1 }
    requires held { IsTrue D.told
        → ConfigOf (D.extent flash.old) (D.flash flash.old).reads
        (Configured config.now.0 config.now.1 config.now.2) }
    requires accepted { IsAccepted config.now.2 config.now.0 config.now.1
        accepted.now.envelope.whole.now (admission_of accepted.now) }
    requires wrapper { HasWrapper accepted.now.envelope.wrapper.now }
    requires other { HaveOtherPlaces accepted.now.manifest.components accepted.now.places }
    requires fits { length accepted.now.envelope.whole.now < 2 ^ 64 }
    ensures answer { UpdatesBy
        (offer config.now.2 config.now.0 config.now.1 accepted.now.envelope.whole.now
        (admission_of accepted.now)) uris.now
        (⟦<L as SeenLauncher>⟧.seen launcher.old) (⟦<L as SeenLauncher>⟧.seen launcher.new)
        (⟦<H as SeenHost>⟧.seen host.old (⟦<D as SeenDisk>⟧.seen flash.old))
        (⟦<H as SeenHost>⟧.seen host.new (⟦<D as SeenDisk>⟧.seen flash.new)) (ended_of result) }
    ensures keeps { IsTrue D.told → Settled (D.flash flash.old)
        → KeepsAccepted
        (offer config.now.2 config.now.0 config.now.1 accepted.now.envelope.whole.now
        (admission_of accepted.now)) uris.now
        (record {
          outside = ⟦<H as SeenHost>⟧.seen host.old (⟦<D as SeenDisk>⟧.seen flash.old);
          launcher = ⟦<L as SeenLauncher>⟧.seen launcher.old;
          flash = D.flash flash.old;
        })
        (record {
          outside = ⟦<H as SeenHost>⟧.seen host.new (⟦<D as SeenDisk>⟧.seen flash.new);
          launcher = ⟦<L as SeenLauncher>⟧.seen launcher.new;
          flash = D.flash flash.new;
        }) (ended_of result) }
    ensures extent { D.extent flash.new ≡ D.extent flash.old }
    ensures flash { IsTrue D.told → StaysInOrder (D.flash flash.old) (D.flash flash.new)
        (D.faults flash.old) (D.faults flash.new) }
{
    sound_laws();
    config_laws();
    play_laws();
    envelope_laws();
    manifest_laws();
    procedure_laws();
    installation_laws();
    has_identifiers(&config.0);
    let mut line = String::new(alloc);
    match line.reserve(UPDATE_ROOM) {
        Ok(()) => {}
        Err(_) => return Answer::Said(Err(Stop::NoMemory)),
    }
    let offered = Update {
        envelope: &accepted.envelope,
        manifest: &accepted.manifest,
        members: &accepted.members,
        places: &accepted.places,
        uris,
    };
    let end = update(alloc, host, flash, launcher, &config.0, config.2, &offered);
    let text = update_line(line, accepted.manifest.sequence, &end);
    Answer::Updated(end, text)
}

/// The answer to `run update NAME [URI=NAME]...`, with the names of files by their URIs.
pub(crate) fn run_update<H: Host, D: Disk, L: Launcher>(
    alloc: Global,
    name: &str,
    uris: &Uris,
    host: &mut H,
    flash: &mut D,
    launcher: &mut L,
) -> Answer
    ensures answer { (named : List Named) → uris.now ≡ pairs_of named
        → Comes (begins_update name.now) (λ task. RunUpdate name.now named ≡ task)
        (⟦<L as SeenLauncher>⟧.seen launcher.old) (⟦<L as SeenLauncher>⟧.seen launcher.new)
        (⟦<H as SeenHost>⟧.seen host.old (⟦<D as SeenDisk>⟧.seen flash.old))
        (⟦<H as SeenHost>⟧.seen host.new (⟦<D as SeenDisk>⟧.seen flash.new)) (ended_of result) }
    ensures extent { D.extent flash.new ≡ D.extent flash.old }
    ensures flash { IsTrue D.told → StaysInOrder (D.flash flash.old) (D.flash flash.new)
        (D.faults flash.old) (D.faults flash.new) }
    ensures keeps { IsTrue D.told → Settled (D.flash flash.old)
        → StaysOrKeeps name.now uris.now
        (record {
          outside = ⟦<H as SeenHost>⟧.seen host.old (⟦<D as SeenDisk>⟧.seen flash.old);
          launcher = ⟦<L as SeenLauncher>⟧.seen launcher.old;
          flash = D.flash flash.old;
        })
        (record {
          outside = ⟦<H as SeenHost>⟧.seen host.new (⟦<D as SeenDisk>⟧.seen flash.new);
          launcher = ⟦<L as SeenLauncher>⟧.seen launcher.new;
          flash = D.flash flash.new;
        }) (ended_of result) }
{
    sound_laws();
    config_laws();
    let config = match config_in(alloc, flash) {
        Ok(config) => config,
        Err(stop) => return Answer::Said(Err(stop)),
    };
    let bytes = match read(alloc, name, LONGEST_FILE, host) {
        Ok(bytes) => bytes,
        Err(stop) => return Answer::Said(Err(stop)),
    };
    let accepted = match accept(alloc, &config.0, config.2, &config.1, bytes.as_slice()) {
        Ok(accepted) => accepted,
        Err(stop) => return Answer::Said(Err(stop)),
    };
    update_by(alloc, host, flash, launcher, &config, &accepted, uris)
}

/// The answer to `run update NAME [URI=NAME]...`.
pub(crate) fn run_update_by<H: Host, D: Disk, L: Launcher>(
    alloc: Global,
    name: &str,
    words: &UriWords<'_>,
    host: &mut H,
    flash: &mut D,
    launcher: &mut L,
) -> Answer
    ensures answer { Comes (does (RunUpdate name.now words.now))
        (λ task. RunUpdate name.now words.now ≡ task)
        (⟦<L as SeenLauncher>⟧.seen launcher.old) (⟦<L as SeenLauncher>⟧.seen launcher.new)
        (⟦<H as SeenHost>⟧.seen host.old (⟦<D as SeenDisk>⟧.seen flash.old))
        (⟦<H as SeenHost>⟧.seen host.new (⟦<D as SeenDisk>⟧.seen flash.new)) (ended_of result) }
    ensures extent { D.extent flash.new ≡ D.extent flash.old }
    ensures flash { IsTrue D.told → StaysInOrder (D.flash flash.old) (D.flash flash.new)
        (D.faults flash.old) (D.faults flash.new) }
    ensures keeps { IsTrue D.told → Settled (D.flash flash.old)
        → StaysOrKeeps name.now (pairs_of words.now)
        (record {
          outside = ⟦<H as SeenHost>⟧.seen host.old (⟦<D as SeenDisk>⟧.seen flash.old);
          launcher = ⟦<L as SeenLauncher>⟧.seen launcher.old;
          flash = D.flash flash.old;
        })
        (record {
          outside = ⟦<H as SeenHost>⟧.seen host.new (⟦<D as SeenDisk>⟧.seen flash.new);
          launcher = ⟦<L as SeenLauncher>⟧.seen launcher.new;
          flash = D.flash flash.new;
        }) (ended_of result) }
{
    sound_laws();
    match uris_named(alloc, words.as_slice()) {
        Ok(uris) => run_update(alloc, name, &uris, host, flash, launcher),
        Err(_) => Answer::Said(Err(Stop::NoMemory)),
    }
}
