//! The command `run status`: what is installed.

ghost use Rattle.std.specs.Prelude.{◌≡◌, ◌++◌, IfOk, IsTrue, string_bytes};
ghost use Rattle.suit_edge.specs.Flash.{IsSame};
ghost use Rattle.suit_params.specs.DigestBytes.{digest_bytes};
ghost use Rattle.flash_layout.specs.Configs.{ConfigOf, Configured, IsAllowed};
ghost use Rattle.suit_cli.specs.declared.reply.Outcome.TheVariants as outcomes;
ghost use Rattle.suit_cli.specs.Lines.{number_line};
ghost use Rattle.suit_cli.specs.Outside.{Outside, with_flash};
ghost use Rattle.suit_cli.specs.Replies.{Makes};
ghost use Rattle.suit_cli.specs.Stages.{Does, ending_of};
ghost use Rattle.suit_cli.specs.Installed.{config_in, record_in, digest_line, record_lines};
ghost use Rattle.suit_cli.specs.Commands.{tells_status};

use crate::components::component_lines;
use crate::outside::SeenDisk;
use crate::reply::{Object, Outcome, Reply, Stop, declined};
use det_cbor::Text;
use flash_layout::{FlashFault, Frame, Key, Layout, Loaded, Record, load_config};
use rollback_record::load_record_by;
use std::alloc::{AllocError, Global};
use suit_edge::Disk;
use suit_params::Digest;

/// The configuration of a flash: its layout, its key and its frame.
pub(crate) type Config = (Layout, Key, Frame);

/// The configuration of a flash that has one.
pub(crate) fn config_in<D: Disk>(alloc: Global, flash: &mut D) -> Result<Config, Stop>
    ensures finds { (here : Outside) → Does config_in
        (with_flash here (⟦<D as SeenDisk>⟧.seen flash.old))
        (with_flash here (⟦<D as SeenDisk>⟧.seen flash.new)) result }
    ensures extent { D.extent flash.new ≡ D.extent flash.old }
    ensures allowed { IfOk result
        (λ config. IsAllowed config.2 (D.extent flash.old) config.0 config.1) }
    ensures same { IsTrue D.told → IsSame (D.flash flash.old) (D.flash flash.new) }
{
    match load_config(alloc, flash) {
        Loaded::Config(layout, key, frame) => Ok((layout, key, frame)),
        Loaded::Blank => Err(declined(Reply::fixed(alloc, Outcome::Unconfigured, "blank\n"))),
        Loaded::BadConfig => Err(declined(Reply::fixed(
            alloc,
            Outcome::Unconfigured,
            "bad config\n",
        ))),
        Loaded::FlashFault => Err(Stop::Fault(Object::Flash)),
        Loaded::NoMemory => Err(Stop::NoMemory),
    }
}

// The record of a flash with this configuration that has one.
fn record_in<D: Disk>(alloc: Global, flash: &mut D, config: &Config) -> Result<Record, Stop>
    requires allowed { IsAllowed config.now.2 (D.extent flash.old) config.now.0 config.now.1 }
    requires held { IsTrue D.told
        → ConfigOf (D.extent flash.old) (D.flash flash.old).reads
        (Configured config.now.0 config.now.1 config.now.2) }
    ensures finds { (here : Outside) → Does (record_in config.now.2)
        (with_flash here (⟦<D as SeenDisk>⟧.seen flash.old))
        (with_flash here (⟦<D as SeenDisk>⟧.seen flash.new)) result }
    ensures extent { D.extent flash.new ≡ D.extent flash.old }
    ensures same { IsTrue D.told → IsSame (D.flash flash.old) (D.flash flash.new) }
{
    match load_record_by(flash, config.2, &config.0) {
        Ok(Some(record)) => Ok(record),
        Ok(None) => Err(declined(Reply::fixed(
            alloc,
            Outcome::NothingInstalled,
            "nothing installed\n",
        ))),
        Err(FlashFault) => Err(Stop::Fault(Object::Flash)),
    }
}

pub(crate) fn number_line(alloc: Global, word: &str, number: u64) -> Result<String, AllocError>
    ensures { IfOk result (λ t. string_bytes t ≡ number_line word.now number) }
{
    format!(in alloc; "{word} {number}\n")
}

fn digest_line(alloc: Global, digest: &Digest) -> Result<String, AllocError>
    ensures { IfOk result (λ t. string_bytes t ≡ digest_line (digest_bytes digest.now)) }
{
    let text = hex::encode(alloc, digest.bytes())?;
    format!(in alloc; "digest {text}\n")
}

// The lines of the record, followed by those of the components.
fn status_lines(alloc: Global, installed: &Record, lines: &str) -> Result<Reply, AllocError>
    ensures { Makes result outcomes.Done (record_lines installed.now ++ lines.now) }
{
    let mut text = Text::new(alloc);
    text.push_str(number_line(alloc, "sequence", installed.sequence)?.as_str())?;
    text.push_str(number_line(alloc, "generation", installed.generation)?.as_str())?;
    text.push_str(number_line(alloc, "bank", u64::from(installed.bank))?.as_str())?;
    text.push_str(digest_line(alloc, &installed.digest)?.as_str())?;
    text.push_str(lines)?;
    Ok(Reply {
        outcome: Outcome::Done,
        text,
    })
}

/// The reply to `run status`. Changes nothing in the flash.
pub(crate) fn status<D: Disk>(alloc: Global, flash: &mut D) -> Result<Reply, Stop>
    ensures answer { (here : Outside) → tells_status
        (with_flash here (⟦<D as SeenDisk>⟧.seen flash.old))
        (with_flash here (⟦<D as SeenDisk>⟧.seen flash.new)) (ending_of result) }
    ensures extent { D.extent flash.new ≡ D.extent flash.old }
    ensures same { IsTrue D.told → IsSame (D.flash flash.old) (D.flash flash.new) }
{
    let config = config_in(alloc, flash)?;
    let installed = record_in(alloc, flash, &config)?;
    let lines = component_lines(alloc, config.0.as_slice(), &installed, flash)?;
    Ok(status_lines(alloc, &installed, lines.as_str())?)
}
