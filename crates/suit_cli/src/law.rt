//! Laws of the answers to the words and of each command, however they are computed.

ghost use Rattle.suit_cli.specs.BootEndLaws.{BootEndLaws};
ghost use Rattle.suit_cli.specs.RunLaws.{RunLaws};
ghost use Rattle.suit_cli.specs.CommandLaws.{CheckLaws, ShowLaws};
ghost use Rattle.suit_cli.specs.DescribingLaws.{DescribingLaws};
ghost use Rattle.suit_cli.specs.DiagLaws.{DiagLaws};
ghost use Rattle.suit_cli.specs.MakeLaws.{MakeLaws};
ghost use Rattle.suit_cli.specs.MigrateLaws.{MigrateLaws};
ghost use Rattle.suit_cli.specs.DrillLaws.{DrillLaws};
ghost use Rattle.suit_cli.specs.FlashLaws.{InitLaws, StatusLaws};
ghost use Rattle.suit_cli.specs.UpdateEndLaws.{UpdateEndLaws};
ghost use Rattle.suit_cli.specs.UpdateLaws.{UpdateLaws};

use admission::admission_laws;
use cbor_diag::notation_laws;
use flash_layout::config_laws;
use invoke_proc::boot_laws;
use rollback_record::record_laws;
use suit_envelope::envelope_laws;
use suit_manifest::{manifest_laws, members_laws};

/// Does nothing. Its contract has the laws of `check FILE` over a host that tells what it holds: the status and the
/// lines of each reply have their cause in the file, and where a cause stands, each answer is that reply, unless the
/// host failed or memory ran out. Only the path that is printed is left open.
pub fn check_laws()
    ensures { CheckLaws }
{
    envelope_laws();
    manifest_laws();
    members_laws();
}

/// Does nothing. Its contract has the laws of `show FILE KEY` over a host that tells what it holds: where it stops and
/// with which line, and that it shows the manifest of the file under the key otherwise, with status 0 exactly where
/// the envelope is authentic.
pub fn show_laws()
    ensures { ShowLaws }
{
    envelope_laws();
    manifest_laws();
}

/// Does nothing. Its contract has the laws of `show FILE` over a host that tells what it holds: each reply has its
/// cause in the file, and where a cause stands, each answer is that reply, unless the host failed or memory ran out.
pub fn describing_laws()
    ensures { DescribingLaws }
{
    envelope_laws();
    manifest_laws();
    members_laws();
}

/// Does nothing. Its contract has the laws of `diag FILE` over a host that tells what it holds: each reply has its cause
/// in the file, and where a cause stands, each answer is that reply, unless the host failed or memory ran out. Where it
/// prints no item, `check FILE` says the same; and files whose items it prints alike are the same.
pub fn diag_laws()
    ensures { DiagLaws }
{
    notation_laws();
    envelope_laws();
    manifest_laws();
    members_laws();
}

/// Does nothing. Its contract has the laws of `make DESCRIPTION KEY OUT` over a host that tells what it holds: each
/// reply has its cause, in the order of the checks, and where a cause stands, each answer is that reply, unless the
/// host failed or memory ran out. Where it is done, the described envelope is stored, authentic under the key;
/// otherwise, and after memory ran out, the files are as they were; and whatever it ends with, so are all but the one
/// that it names.
pub fn make_laws()
    ensures { MakeLaws }
{}

/// Does nothing. Its contract has the laws of `run init DEVICE KEY`: each reply has its cause, in the order of the
/// checks, and where a cause stands, each answer is that reply, unless an object failed or memory ran out. Where it is
/// done, the flash has the described layout and the key, no record and each slot empty; and otherwise, and after memory
/// ran out, the flash is as it was.
pub fn init_laws()
    ensures { InitLaws }
{}

/// Does nothing. Its contract has the laws of `run status` over a flash that tells what it holds: each reply has its
/// cause, and where a cause stands, each answer is that reply, unless the flash failed or memory ran out. The flash
/// stays as it is.
pub fn status_laws()
    ensures { StatusLaws }
{
    config_laws();
    record_laws();
}

/// Does nothing. Its contract has the laws of `run migrate BASE` over a flash that tells what it holds: each reply has its
/// cause, and where a cause stands, each answer is that reply, unless the flash failed or memory ran out. Where it is done,
/// the flash has layout version 2 with that base, and tells what it told; and otherwise, and after memory ran out, the flash
/// is as it was.
pub fn migrate_laws()
    ensures { MigrateLaws }
{
    config_laws();
}

/// Does nothing. Its contract has the laws of `run update FILE` over a host and a flash that tell what they hold,
/// before anything is done: each reply has its cause, in the order of the checks, and where a cause stands, each answer
/// is that reply, unless an object failed or memory ran out; only the path that is printed is left open. Where the
/// bytes of the file are accepted, no answer is such a reply.
pub fn update_laws()
    ensures { UpdateLaws }
{
    config_laws();
    admission_laws();
}

/// Does nothing. Its contract has the laws of an update that `run update FILE` began, over objects that tell what they hold:
/// the file was accepted, and each end has its cause. It was refused beside the record, or its procedure was played to that
/// end; or the flash failed outside of it, or memory ran out. And where the record has a verdict on the file, each end is
/// the one that this leads to, but for such a failure.
pub fn update_end_laws()
    ensures { UpdateEndLaws }
{
    config_laws();
    envelope_laws();
    manifest_laws();
}

/// Does nothing. Its contract has the laws of `run boot` over a flash and a launcher that tell what they hold: each end has
/// its cause. Nothing was started for the first thing that is wrong in configuration, record and bank; or the recorded
/// manifest's procedure was played to that end; or the flash failed outside of it, or memory ran out. And where one of these
/// things is wrong, or a manifest is started, each end is of that cause, but for such a failure. Memory runs out only before
/// anything is launched or written.
pub fn boot_end_laws()
    ensures { BootEndLaws }
{
    config_laws();
    record_laws();
    boot_laws();
}

/// Does nothing. Its contract has the laws of every run, which follow from its answer and the put of it, as `run` has
/// them: yes and no of `check`, in both directions; which files stay, and which are asked for; what each status of a
/// fault says of the counts; usage, exactly where the words are no command; which statuses there are; which part of the
/// lines is put where the output failed; what stays where memory ran out; that `run boot` does not end with a fault of
/// the host; and that only `run boot` and `run update` launch anything.
pub fn run_laws()
    ensures { RunLaws }
{
    record_laws();
    envelope_laws();
    manifest_laws();
    members_laws();
}

/// Does nothing. Its contract has the laws of `drill NUMBER`: the line's counts of rounds add up to 200, and no launch is
/// wrong; and where the update of a round is cut, the image that is left holds the same as before, or an update that had
/// begun left it.
pub fn drill_laws()
    ensures { DrillLaws }
{}
