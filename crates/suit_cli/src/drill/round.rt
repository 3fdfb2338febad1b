//! A round of a drill: an update, which may be cut by a loss of power, and a boot.

ghost use Rattle.std.specs.Bool.{OnTrue};
ghost use Rattle.std.specs.Prelude.{◌≡◌, IfOk, IsSome, IsTrue, OnOk, option_map};
ghost use Rattle.author.specs.FileNames.{file_names};
ghost use Rattle.author.specs.Files.{has_files};
ghost use Rattle.author.specs.Held.{value_of};
ghost use Rattle.author.specs.MadeEnvelopes.{IsMadeOf};
ghost use Rattle.conformance.specs.Rounds.{said_by};
ghost use Rattle.suit_edge.specs.MemoryDisk.{memory_flash};
ghost use Rattle.suit_edge.specs.MemoryHost.{file_in};
ghost use Rattle.suit_cli.specs.Coming.{ended_of, ended_status};
ghost use Rattle.suit_cli.specs.DrillDevice.{key_bytes};
ghost use Rattle.suit_cli.specs.DrillRounds.{
  AreWords,
  AsksUpdate,
  BootsRound,
  HostsRound,
  IsAtRest,
  IsNextImage,
  RunsRound,
  UpdatesRound,
  ends_so,
  have_starved,
  is_whole,
  uris_asked,
};
ghost use Rattle.command_words.specs.Said.{said};

use crate::answer::Answer;
use crate::drill::device::KEY;
use crate::drill::judging::{answer_status, is_installed};
use crate::drill::tally::RoundEnd;
use crate::run_boot::run_boot;
use crate::run_update::run_update;
use crate::words::uris_named;
use author::{MakeFault, bytes_of, make};
use command_words::{Command, command_of};
use conformance::{Draw, Round, round};
use det_cbor::{Bytes, Names};
use rollback_record::sound_laws;
use std::alloc::{AllocError, Global};
use step_machine::Uris;
use suit_edge::{FuseDisk, MemoryDisk, MemoryHost, MemoryLauncher};

/// The file of a round's envelope.
const ENVELOPE: &str = "drill.suit";

/// The file that is fetched.
const GOT: &str = "got.bin";

/// The status of a fault of the flash.
const FLASH_FAULT: u8 = 8;

// The envelope of a round.
fn envelope_of(alloc: Global, round: &Round) -> Result<Bytes, AllocError>
    requires { IsTrue (has_files round.now.files (file_names (value_of round.now.description))) }
    ensures { IfOk result
        (IsMadeOf (value_of round.now.description) round.now.files key_bytes) }
{
    match make(alloc, &round.description, &round.files, &KEY) {
        Ok(envelope) => Ok(envelope),
        // No round's envelope comes near the limits of its length: memory ran out.
        Err(MakeFault::NoMemory | MakeFault::TooLong(_)) => Err(AllocError),
    }
}

// A host with the envelope and the file that is fetched.
fn host_of(alloc: Global, round: &Round) -> Result<MemoryHost, AllocError>
    requires { IsTrue (has_files round.now.files (file_names (value_of round.now.description))) }
    ensures { IfOk result (HostsRound (said_by round.now)) }
{
    let mut host = MemoryHost::new(alloc, &[])?;
    let envelope = envelope_of(alloc, round)?;
    host.add(ENVELOPE, envelope.as_slice())?;
    host.add(GOT, bytes_of(&round.files, GOT))?;
    Ok(host)
}

// The file names by URI, if the command is an update.
fn uris_asked(alloc: Global, command: Option<Command<'_>>) -> Result<Option<Uris>, AllocError>
    ensures { IfOk result (λ uris. uris ≡ uris_asked (option_map said command.entry)) }
{
    Ok(match command {
        Some(Command::Update { uris, .. }) => Some(uris_named(alloc, uris.as_slice())?),
        Some(
            Command::Make { .. }
            | Command::Describe { .. }
            | Command::Show { .. }
            | Command::Check { .. }
            | Command::Init { .. }
            | Command::Boot
            | Command::Status
            | Command::Migrate { .. }
            | Command::Drill { .. }
            | Command::Diagnose { .. },
        )
        | None => None,
    })
}

// The file names by URI that `run update` gets with these words.
fn uris_of(alloc: Global, words: &Names) -> Result<Uris, AllocError>
    requires { AreWords words.now }
    ensures { IfOk result (AsksUpdate words.now) }
{
    let mut all = Vec::new(alloc);
    all.push("run")?;
    all.push("update")?;
    all.push(ENVELOPE)?;
    for word in words.as_slice() {
        all.push(word.as_str())?;
    }
    let command = command_of(alloc, all.as_slice())?;
    let uris = uris_asked(alloc, command)?;
    match uris {
        Some(uris) => Ok(uris),
        None => unreachable!(),
    }
}

// Whether a status says that no object failed and memory did not run out.
fn is_whole(status: u8) -> bool
    ensures { result ≡ is_whole status }
{
    !matches!(status, 7 | 8 | 10 | 11)
}

// Ends the drill if an object failed. Only a fuse makes calls fail; otherwise memory ran out.
fn ends_whole(answer: &Answer) -> Result<(), AllocError>
    ensures { OnOk result (IsTrue (is_whole (ended_status (ended_of answer.now)))) }
{
    if is_whole(answer_status(answer)) {
        Ok(())
    } else {
        Err(AllocError)
    }
}

// How an update ended, if nothing failed in it.
fn end_of(answer: &Answer) -> Result<RoundEnd, AllocError>
    ensures { IfOk result (ends_so (ended_of answer.now)) }
{
    ends_whole(answer)?;
    if is_installed(answer) {
        Ok(RoundEnd::Installed)
    } else {
        Ok(RoundEnd::Stopped)
    }
}

// Whether one of these ran out of memory in a call.
fn have_starved(host: &MemoryHost, fuse: &FuseDisk, launcher: &MemoryLauncher) -> bool
    ensures { result
        ≡ have_starved
        (record { host = host.now; fuse = fuse.now; launcher = launcher.now }) }
{
    host.starved() > 0 || fuse.starved() > 0 || launcher.starved() > 0
}

// Whether the round wanted a power loss and the answer shows it.
fn is_cut(round: &Round, answer: &Answer) -> bool
    ensures { OnTrue result
        (IsSome round.now.cut × (ended_status (ended_of answer.now) ≡ 8)) }
{
    round.cut.is_some() && answer_status(answer) == FLASH_FAULT
}

// Runs the update of a round. The flash takes as many calls as the round drew and refuses the others. If the update fails
// by that, the round is cut, and goes on with what the power loss leaves.
fn update_on(
    alloc: Global,
    round: &Round,
    host: &mut MemoryHost,
    flash: MemoryDisk,
) -> Result<(MemoryDisk, RoundEnd), AllocError>
    requires words { AreWords round.now.words }
    requires ready { IsAtRest flash }
    ensures updates { IfOk result (λ left. UpdatesRound (said_by round.now)
        (file_in host.old.files) (memory_flash flash).reads (memory_flash left.0).reads left.1) }
    ensures lives { IfOk result
        (λ left. IsNextImage (memory_flash flash).reads (memory_flash left.0).reads) }
    ensures ready { IfOk result (λ left. IsAtRest left.0) }
    ensures files { OnOk result (file_in host.new.files ≡ file_in host.old.files) }
{
    sound_laws();
    let uris = uris_of(alloc, &round.words)?;
    let mut launcher = MemoryLauncher::new(alloc, &[])?;
    let mut fuse = FuseDisk::new(flash, round.cut.unwrap_or(u64::MAX));
    let answer = run_update(alloc, ENVELOPE, &uris, host, &mut fuse, &mut launcher);
    if have_starved(host, &fuse, &launcher) {
        return Err(AllocError);
    }
    let flash = fuse.into_disk();
    if is_cut(round, &answer) {
        let left = flash.after_loss(alloc, round.choice)?;
        return Ok((left, RoundEnd::Cut));
    }
    let end = end_of(&answer)?;
    Ok((flash, end))
}

// Boots. The flash refuses no call, so an object fails only if memory runs out.
fn boot_on(
    alloc: Global,
    host: &mut MemoryHost,
    flash: MemoryDisk,
    launcher: &mut MemoryLauncher,
) -> Result<MemoryDisk, AllocError>
    requires { IsAtRest flash }
    ensures boots { IfOk result (λ left. BootsRound (file_in host.old.files)
        (memory_flash flash).reads (memory_flash left).reads
        launcher.old.launches launcher.new.launches) }
    ensures lives { IfOk result
        (λ left. IsNextImage (memory_flash flash).reads (memory_flash left).reads) }
    ensures ready { IfOk result IsAtRest }
{
    sound_laws();
    let mut fuse = FuseDisk::new(flash, u64::MAX);
    let answer = run_boot(alloc, host, &mut fuse, launcher);
    if have_starved(host, &fuse, launcher) {
        return Err(AllocError);
    }
    ends_whole(&answer)?;
    Ok(fuse.into_disk())
}

/// Draws the round with this sequence number and runs it on a flash. Returns the flash and how the update ended.
pub(crate) fn run_round(
    alloc: Global,
    draw: &mut Draw,
    sequence: u64,
    flash: MemoryDisk,
    launcher: &mut MemoryLauncher,
) -> Result<(MemoryDisk, RoundEnd), AllocError>
    requires { IsAtRest flash }
    ensures runs { IfOk result (λ left. RunsRound sequence
        (record {
          draws = draw.old;
          image = (memory_flash flash).reads;
          launches = launcher.old.launches;
        })
        (record {
          draws = draw.new;
          image = (memory_flash left.0).reads;
          launches = launcher.new.launches;
        }) left.1) }
    ensures ready { IfOk result (λ left. IsAtRest left.0) }
{
    let round = round(alloc, draw, sequence)?;
    let mut host = host_of(alloc, &round)?;
    let (flash, end) = update_on(alloc, &round, &mut host, flash)?;
    let flash = boot_on(alloc, &mut host, flash, launcher)?;
    Ok((flash, end))
}
