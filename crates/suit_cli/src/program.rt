//! The top call: all that the program does.

ghost use Rattle.std.specs.Prelude.{◌≡◌, ◌≤◌, IsTrue, Some};
ghost use Rattle.flash_layout.specs.declared.frame.TheConstants.{HEAD_SIZE};
ghost use Rattle.command_words.specs.Said.{said};
ghost use Rattle.suit_cli.specs.Words.{RunBoot, task_of};
ghost use Rattle.suit_cli.specs.Stages.{ending_of};
ghost use Rattle.suit_cli.specs.Commands.{does};
ghost use Rattle.suit_cli.specs.Program.{
  Checks,
  ComesTo,
  FlashPasses,
  IfBoots,
  IsCheck,
  Puts,
  PutsText,
  Runs,
};
ghost use Rattle.suit_cli.specs.Settling.{LeavesSound};
ghost use Rattle.suit_cli.specs.Coming.{Answered, Comes, ended_of};
ghost use Rattle.invoke_proc.specs.Booting.{GainsSafe};
ghost use Rattle.rollback_record.specs.SoundFlash.{Settled, Sound};

use crate::answer::Answer;
use crate::boot_lines::boot_status;
use crate::check::check;
use crate::diag::diag;
use crate::drill::drill;
use crate::init::init;
use crate::make::make_envelope;
use crate::migrate::run_migrate;
use crate::outside::{SeenDisk, SeenHost, SeenLauncher, SeenSink};
use crate::reply::{Outcome, Reply, Stop, declined};
use crate::run_boot::run_boot;
use crate::run_update::run_update_by;
use crate::show::show;
use crate::show_description::show_description;
use crate::status::status;
use crate::update_lines::update_status;
use crate::words::lent;
use command_words::{Command, command_of};
use det_cbor::Names;
use rollback_record::sound_laws;
use std::alloc::Global;
use suit_edge::{Disk, Edge, Host, Launcher, Sink};
use suit_envelope::envelope_laws;
use suit_manifest::{manifest_laws, members_laws};

/// The status that the program ends with.
#[derive(Clone, Copy, Debug, PartialEq, Eq)]
pub struct Status(pub u8);

const USAGE: &str =
    "usage: suit make DESCRIPTION KEY OUT | show FILE [KEY] | check FILE | run init DEVICE KEY | run update FILE [URI=NAME]... | run boot | run status | run migrate BASE | drill NUMBER | diag FILE\n";

// The answer to a command.
fn perform<H: Host, D: Disk, L: Launcher>(
    alloc: Global,
    command: Command<'_>,
    host: &mut H,
    flash: &mut D,
    launcher: &mut L,
) -> Answer
    requires { HEAD_SIZE ≤ D.extent flash.old }
    ensures answer { Comes (does (said command.entry)) (λ task. said command.entry ≡ task)
        (⟦<L as SeenLauncher>⟧.seen launcher.old) (⟦<L as SeenLauncher>⟧.seen launcher.new)
        (⟦<H as SeenHost>⟧.seen host.old (⟦<D as SeenDisk>⟧.seen flash.old))
        (⟦<H as SeenHost>⟧.seen host.new (⟦<D as SeenDisk>⟧.seen flash.new)) (ended_of result) }
    ensures unasked { IfBoots (Some (said command.entry)) (host.new ≡ host.old) }
    ensures extent { D.extent flash.new ≡ D.extent flash.old }
    ensures flash { IsTrue D.told → FlashPasses (Some (said command.entry))
        (record {
          outside = ⟦<H as SeenHost>⟧.seen host.old (⟦<D as SeenDisk>⟧.seen flash.old);
          launcher = ⟦<L as SeenLauncher>⟧.seen launcher.old;
          flash = D.flash flash.old;
        })
        (record {
          outside = ⟦<H as SeenHost>⟧.seen host.new (⟦<D as SeenDisk>⟧.seen flash.new);
          launcher = ⟦<L as SeenLauncher>⟧.seen launcher.new;
          flash = D.flash flash.new;
        }) (ended_of result) }
{
    match command {
        Command::Make {
            description,
            key,
            out,
        } => Answer::Said(make_envelope(alloc, description, key, out, host)),
        Command::Describe { file } => Answer::Said(show_description(alloc, file, host)),
        Command::Show { file, key } => Answer::Said(show(alloc, file, key, host)),
        Command::Check { file } => Answer::Said(check(alloc, file, host)),
        Command::Init { device, key } => Answer::Said(init(alloc, device, key, host, flash)),
        Command::Update { file, uris } => {
            run_update_by(alloc, file, &uris, host, flash, launcher)
        }
        Command::Boot => run_boot(alloc, host, flash, launcher),
        Command::Status => Answer::Said(status(alloc, flash)),
        Command::Migrate { base } => Answer::Said(run_migrate(alloc, base, flash)),
        Command::Drill { number } => Answer::Said(drill(alloc, number)),
        Command::Diagnose { file } => Answer::Said(diag(alloc, file, host)),
    }
}

// The answer to the words.
fn answer<H: Host, D: Disk, L: Launcher>(
    alloc: Global,
    words: &Names,
    host: &mut H,
    flash: &mut D,
    launcher: &mut L,
) -> Answer
    requires { HEAD_SIZE ≤ D.extent flash.old }
    ensures answer { ComesTo words.now
        (⟦<L as SeenLauncher>⟧.seen launcher.old) (⟦<L as SeenLauncher>⟧.seen launcher.new)
        (⟦<H as SeenHost>⟧.seen host.old (⟦<D as SeenDisk>⟧.seen flash.old))
        (⟦<H as SeenHost>⟧.seen host.new (⟦<D as SeenDisk>⟧.seen flash.new)) (ended_of result) }
    ensures unasked { IfBoots (task_of words.now) (host.new ≡ host.old) }
    ensures extent { D.extent flash.new ≡ D.extent flash.old }
    ensures flash { IsTrue D.told → FlashPasses (task_of words.now)
        (record {
          outside = ⟦<H as SeenHost>⟧.seen host.old (⟦<D as SeenDisk>⟧.seen flash.old);
          launcher = ⟦<L as SeenLauncher>⟧.seen launcher.old;
          flash = D.flash flash.old;
        })
        (record {
          outside = ⟦<H as SeenHost>⟧.seen host.new (⟦<D as SeenDisk>⟧.seen flash.new);
          launcher = ⟦<L as SeenLauncher>⟧.seen launcher.new;
          flash = D.flash flash.new;
        }) (ended_of result) }
{
    sound_laws();
    let words = match lent(alloc, words) {
        Ok(words) => words,
        Err(_) => return Answer::Said(Err(Stop::NoMemory)),
    };
    match command_of(alloc, words.as_slice()) {
        Ok(Some(command)) => perform(alloc, command, host, flash, launcher),
        Ok(None) => Answer::Said(Err(declined(Reply::fixed(alloc, Outcome::Usage, USAGE)))),
        Err(_) => Answer::Said(Err(Stop::NoMemory)),
    }
}

// Puts a text in one call, and returns this status, or that of a fault of the sink.
fn put_text<K: Sink>(out: &mut K, status: u8, text: &str) -> Status
    ensures { PutsText
        (⟦<K as SeenSink>⟧.seen out.old) (⟦<K as SeenSink>⟧.seen out.new) status text.now result.0 }
{
    match out.put(text.as_bytes()) {
        Edge::Done => Status(status),
        Edge::Failed => Status(9),
    }
}

// Puts the lines of a reply, or the reason that there is none.
fn put_said<K: Sink>(out: &mut K, said: Result<Reply, Stop>) -> Status
    ensures { Puts
        (⟦<K as SeenSink>⟧.seen out.old) (⟦<K as SeenSink>⟧.seen out.new)
        (Answered (ending_of said)) result.0 }
{
    match said {
        Ok(reply) | Err(Stop::Declined(reply)) => {
            put_text(out, reply.outcome.status(), reply.text.as_str())
        }
        Err(Stop::Fault(object)) => put_text(out, object.status(), object.line()),
        Err(Stop::NoMemory) => put_text(out, 11, "out of memory\n"),
    }
}

// Puts the lines of an answer.
fn put<K: Sink>(out: &mut K, answer: Answer) -> Status
    ensures { Puts
        (⟦<K as SeenSink>⟧.seen out.old) (⟦<K as SeenSink>⟧.seen out.new)
        (ended_of answer) result.0 }
{
    match answer {
        Answer::Said(said) => put_said(out, said),
        Answer::Booted(end, lines) => put_text(out, boot_status(&end), lines.as_str()),
        Answer::Updated(end, lines) => put_text(out, update_status(&end), lines.as_str()),
    }
}

/// Runs the program. The words leave out its name. The flash must have at least 49,152 bytes, the head of layout version 1:
/// the root stands in it too. What follows of each run is the law `run_laws`.
pub fn run<H: Host, D: Disk, L: Launcher, K: Sink>(
    alloc: Global,
    words: &Names,
    host: &mut H,
    flash: &mut D,
    launcher: &mut L,
    out: &mut K,
) -> Status
    requires { HEAD_SIZE ≤ D.extent flash.old }

    // The answer to the words: stage by stage from what the host and the flash tell, or from a boot or an update, of
    // which the launcher tells as well. Its lines are put, whole or up to a fault of the sink, and its status is returned.
    // By this very answer the flash was kept at each moment. Of a settled flash, `run update` leaves the old record and the
    // contents of all slots that it may not write, or the new record and the contents that its procedure made, which was
    // played to its end; where it was not, the old record stands. `run boot` leaves all but slots that its procedure may write.
    // `run migrate` leaves layout version 1 or 2, each telling what the flash told.
    ensures runs { Runs words.now
        (record {
          outside = ⟦<H as SeenHost>⟧.seen host.old (⟦<D as SeenDisk>⟧.seen flash.old);
          launcher = ⟦<L as SeenLauncher>⟧.seen launcher.old;
          sink = ⟦<K as SeenSink>⟧.seen out.old;
          flash = D.flash flash.old;
        })
        (record {
          outside = ⟦<H as SeenHost>⟧.seen host.new (⟦<D as SeenDisk>⟧.seen flash.new);
          launcher = ⟦<L as SeenLauncher>⟧.seen launcher.new;
          sink = ⟦<K as SeenSink>⟧.seen out.new;
          flash = D.flash flash.new;
        }) result.0 }

    // The headline: yes exactly where each invoke is covered on every path of both procedures, and otherwise a path
    // where one is not.
    ensures check { IsTrue H.told → IsCheck words.now → Checks words.now
        (⟦<H as SeenHost>⟧.seen host.old (⟦<D as SeenDisk>⟧.seen flash.old))
        (⟦<K as SeenSink>⟧.seen out.old) (⟦<K as SeenSink>⟧.seen out.new) result.0 }

    // Each launch has its digest, and its size where one is in force, whatever the host is and gives: of `run boot` on a sound
    // flash.
    ensures launches { IsTrue D.told → IsTrue L.told
        → (task_of words.now ≡ Some RunBoot → Sound (D.flash flash.old).reads)
        → GainsSafe (L.launches launcher.old) (L.launches launcher.new) }

    // What power loss leaves of a settled flash is sound at each moment, and goes on from what was read at the start; at the
    // end the flash is settled again, unless it counted a fault.
    ensures sound { IsTrue D.told → Settled (D.flash flash.old)
        → LeavesSound (D.flash flash.old) (D.flash flash.new)
        (D.faults flash.old) (D.faults flash.new) }

    // The flash keeps its size, and `run boot` leaves the host alone.
    ensures size { D.extent flash.new ≡ D.extent flash.old }
    ensures unasked { task_of words.now ≡ Some RunBoot → host.new ≡ host.old }
{
    envelope_laws();
    manifest_laws();
    members_laws();
    sound_laws();
    let answer = answer(alloc, words, host, flash, launcher);
    put(out, answer)
}
