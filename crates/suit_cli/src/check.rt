//! The command `check`: judges a file.

ghost use Rattle.std.specs.Prelude.{◌^◌};
ghost use Rattle.suit_envelope.specs.Said.{said_by};
ghost use Rattle.suit_envelope.specs.Places.{MembersEndBelow};
ghost use Rattle.suit_cli.specs.Outside.{Flashed};
ghost use Rattle.suit_cli.specs.Stages.{Tells, ending_of};
ghost use Rattle.suit_cli.specs.Envelopes.{ManifestOf};
ghost use Rattle.suit_cli.specs.Commands.{judges_manifest, judges_file, checks};

use crate::accept::{members_in, opened_in, refusal_stop};
use crate::input::{LONGEST_FILE, read};
use crate::outside::SeenHost;
use crate::reply::{Outcome, Reply, Stop};
use admission::{NotAdmitted, Opened, judge};
use std::alloc::Global;
use suit_edge::Host;
use suit_manifest::procedure_laws;

// Judges an envelope's manifest.
fn judge_manifest(alloc: Global, file: &Opened<'_>) -> Result<Reply, Stop>
    requires places { MembersEndBelow (2 ^ 64) (said_by file.now.envelope) }
    requires manifest { ManifestOf (said_by file.now.envelope) file.now.manifest }
    ensures { Tells (judges_manifest (said_by file.now.envelope) file.now.manifest) result }
{
    procedure_laws();
    let members = members_in(alloc, file)?;
    match judge(alloc, &file.manifest, members) {
        Ok(()) => {}
        Err(refusal) => return Err(refusal_stop(alloc, NotAdmitted::from(refusal))),
    }
    Ok(Reply::fixed(alloc, Outcome::Done, "update safe\ninvocation safe\n")?)
}

// Judges a file's bytes.
fn judge_file(alloc: Global, bytes: &[u8]) -> Result<Reply, Stop>
    ensures { Tells (judges_file bytes.now) result }
{
    let file = opened_in(alloc, bytes)?;
    judge_manifest(alloc, &file)
}

/// The reply to `check NAME`.
pub(crate) fn check<H: Host>(alloc: Global, name: &str, host: &mut H) -> Result<Reply, Stop>
    ensures { (flash : Flashed) → checks name.now
        (⟦<H as SeenHost>⟧.seen host.old flash) (⟦<H as SeenHost>⟧.seen host.new flash)
        (ending_of result) }
{
    let bytes = read(alloc, name, LONGEST_FILE, host)?;
    judge_file(alloc, bytes.as_slice())
}
