//! The command `show` without a key: the description of an envelope.

ghost use Rattle.std.specs.Prelude.{◌<◌, ◌^◌, IfOk, length, string_bytes};
ghost use Rattle.suit_envelope.specs.Said.{said_by};
ghost use Rattle.suit_envelope.specs.Places.{MembersEndBelow};
ghost use Rattle.suit_cli.specs.Outside.{Flashed};
ghost use Rattle.suit_cli.specs.Stages.{Finds, Tells, ending_of};
ghost use Rattle.suit_cli.specs.Envelopes.{ManifestOf};
ghost use Rattle.suit_cli.specs.Describing.{there_in, text_in, IsDescription};
ghost use Rattle.suit_cli.specs.Commands.{describes_manifest, describes_file, describes};

use crate::accept::{differs, opened_in, taken};
use crate::input::{LONGEST_FILE, read};
use crate::outside::SeenHost;
use crate::reply::{Reply, Stop, declined};
use admission::Opened;
use describe::{describe, describe_laws, members_there};
use std::alloc::{AllocError, Global};
use suit_edge::Host;
use suit_envelope::{Envelope, MemberBytes, MemberName, member};
use suit_manifest::{Manifest, Members, TextMember};

// The members that stand apart and are in the envelope.
fn there_in(alloc: Global, envelope: &Envelope<'_>, manifest: &Manifest) -> Result<Members, Stop>
    requires few { length manifest.now.components < 2 ^ 32 }
    requires places { MembersEndBelow (2 ^ 64) (said_by envelope.now) }
    ensures { Finds (there_in (said_by envelope.now) manifest.now) result }
{
    taken(alloc, members_there(alloc, envelope, manifest))
}

// Whether the text is the one that the manifest states.
fn text_in(alloc: Global, envelope: &Envelope<'_>, manifest: &Manifest) -> Result<(), Stop>
    ensures { Finds (text_in (said_by envelope.now) manifest.now) result }
{
    match &manifest.text {
        TextMember::Empty => Ok(()),
        TextMember::Here(_) => Ok(()),
        TextMember::Apart(stated) => match member(envelope, MemberName::Text, stated) {
            MemberBytes::Got(_) => Ok(()),
            MemberBytes::Severed => Ok(()),
            MemberBytes::Differs { .. } => Err(declined(differs(alloc, MemberName::Text))),
        },
    }
}

// The text of the description.
fn description_text(
    alloc: Global,
    envelope: &Envelope<'_>,
    manifest: &Manifest,
    members: &Members,
) -> Result<String, AllocError>
    ensures { IfOk result (λ text. IsDescription envelope.now.whole.now
        (said_by envelope.now) manifest.now members.now (string_bytes text)) }
{
    describe_laws();
    describe(alloc, envelope, manifest, members)?.to_string(alloc)
}

// Reads the members and the text, and describes the manifest.
fn describe_manifest(alloc: Global, file: &Opened<'_>) -> Result<Reply, Stop>
    requires places { MembersEndBelow (2 ^ 64) (said_by file.now.envelope) }
    requires manifest { ManifestOf (said_by file.now.envelope) file.now.manifest }
    ensures { Tells (describes_manifest file.now.envelope.whole.now
        (said_by file.now.envelope) file.now.manifest) result }
{
    let members = there_in(alloc, &file.envelope, &file.manifest)?;
    text_in(alloc, &file.envelope, &file.manifest)?;
    let description = description_text(alloc, &file.envelope, &file.manifest, &members)?;
    Ok(Reply::line(description)?)
}

// The description of the envelope in a file's bytes.
fn describe_file(alloc: Global, bytes: &[u8]) -> Result<Reply, Stop>
    ensures { Tells (describes_file bytes.now) result }
{
    let file = opened_in(alloc, bytes)?;
    describe_manifest(alloc, &file)
}

/// The reply to `show NAME`.
pub(crate) fn show_description<H: Host>(
    alloc: Global,
    name: &str,
    host: &mut H,
) -> Result<Reply, Stop>
    ensures { (flash : Flashed) → describes name.now
        (⟦<H as SeenHost>⟧.seen host.old flash) (⟦<H as SeenHost>⟧.seen host.new flash)
        (ending_of result) }
{
    let bytes = read(alloc, name, LONGEST_FILE, host)?;
    describe_file(alloc, bytes.as_slice())
}
