//! Opens and accepts envelopes, or says why they are refused.

ghost use Rattle.std.specs.Prelude.{◌≡◌, ◌<◌, ◌≤◌, ◌^◌, IfOk, codes, length};
ghost use Rattle.flash_layout.specs.Frames.{bank_size};
ghost use Rattle.flash_layout.specs.Layouts.{IsKey};
ghost use Rattle.flash_layout.specs.Placement.{HaveOtherPlaces};
ghost use Rattle.suit_envelope.specs.Places.{MembersEndBelow};
ghost use Rattle.suit_envelope.specs.Said.{said_by};
ghost use Rattle.suit_envelope.specs.WrapperParts.{HasWrapper};
ghost use Rattle.admission.specs.Refusals.{of_members};
ghost use Rattle.suit_cli.specs.Acceptance.{FindsAccepted, accepts};
ghost use Rattle.suit_cli.specs.Accepting.{IsTaken};
ghost use Rattle.suit_cli.specs.Envelopes.{members_in};
ghost use Rattle.suit_cli.specs.Lines.{number_line};
ghost use Rattle.suit_cli.specs.Opening.{Opens};
ghost use Rattle.suit_cli.specs.Refusals.{StopsAs, unsafe_lines};
ghost use Rattle.suit_cli.specs.Replies.{Makes};
ghost use Rattle.suit_cli.specs.Stages.{Finds};
ghost use Rattle.suit_cli.specs.Texts.{differs_line, name_text, severed_line, too_wide_line};
ghost use Rattle.suit_cli.specs.declared.reply.Outcome.TheVariants as outcomes;

use crate::reply::{Outcome, Reply, Stop, declined};
use crate::show::authenticity_line;
use crate::status::number_line;
use admission::{Admitted, NotAdmitted, Opened, Procedure, admit, open};
use det_cbor::Text;
use flash_layout::{Frame, Key, Layout, MOST_ENTRIES, bank_size};
use invoke_proc::key_bytes;
use std::alloc::{AllocError, Global};
use suit_envelope::MemberName;
use suit_manifest::{MemberFault, Members, members_of};

// ---- refusals

fn name_text(name: MemberName) -> &'static str
    ensures { result.now ≡ name_text name }
{
    match name {
        MemberName::PayloadFetch => "payload-fetch",
        MemberName::Install => "install",
        MemberName::Text => "text",
    }
}

// The lines that stand before those of an unsafe path.
fn unsafe_lines(procedure: Procedure) -> &'static str
    ensures { result.now ≡ unsafe_lines procedure }
{
    match procedure {
        Procedure::Update => "update unsafe\n",
        Procedure::Invocation => "update safe\ninvocation unsafe\n",
    }
}

// The reply for a member that is missing.
fn severed(alloc: Global, name: MemberName) -> Result<Reply, AllocError>
    ensures { Makes result outcomes.Severed (severed_line name) }
{
    Reply::named(alloc, Outcome::Severed, "severed ", name_text(name))
}

/// The reply for a member with another digest.
pub(crate) fn differs(alloc: Global, name: MemberName) -> Result<Reply, AllocError>
    ensures { Makes result outcomes.Differs (differs_line name) }
{
    let name = name_text(name);
    let line = format!(in alloc; "member {name} differs\n")?;
    Ok(Reply {
        outcome: Outcome::Differs,
        text: Text::from_string(line),
    })
}

// The reply for a component that the layout does not have.
fn unknown(alloc: Global, component: u32) -> Result<Reply, AllocError>
    ensures { Makes result outcomes.UnknownComponent
        (number_line (codes "unknown component") component) }
{
    let line = number_line(alloc, "unknown component", u64::from(component))?;
    Ok(Reply {
        outcome: Outcome::UnknownComponent,
        text: Text::from_string(line),
    })
}

// The reply for a procedure that is too wide to judge.
fn too_wide(alloc: Global, width: u64) -> Result<Reply, AllocError>
    ensures { Makes result outcomes.TooWide (too_wide_line width) }
{
    let line = format!(in alloc; "too wide: {width}\n")?;
    Ok(Reply {
        outcome: Outcome::TooWide,
        text: Text::from_string(line),
    })
}

/// Stops with the reason why bytes are refused.
pub(crate) fn refusal_stop(alloc: Global, refusal: NotAdmitted<'_>) -> Stop
    ensures { StopsAs refusal.entry result }
{
    match refusal {
        NotAdmitted::NoEnvelope(refusal)
        | NotAdmitted::NoManifest(refusal)
        | NotAdmitted::NoSequence(refusal) => declined(Reply::refused(alloc, &refusal)),
        NotAdmitted::TooLong(_) => declined(Reply::named(
            alloc,
            Outcome::TooLong,
            "too long ",
            "envelope",
        )),
        NotAdmitted::NotAuthentic(answer) => declined(Reply::fixed(
            alloc,
            Outcome::NotAuthentic,
            authenticity_line(answer),
        )),
        NotAdmitted::UnknownComponent(component) => declined(unknown(alloc, component)),
        NotAdmitted::Severed(name) => declined(severed(alloc, name)),
        NotAdmitted::Differs { name, .. } => declined(differs(alloc, name)),
        NotAdmitted::TooWide { width, .. } => declined(too_wide(alloc, width)),
        NotAdmitted::Unsafe { procedure, path } => {
            declined(Reply::with_path(alloc, unsafe_lines(procedure), &path))
        }
        NotAdmitted::NoMemory => Stop::NoMemory,
    }
}

// ---- stages

/// The longest trimmed envelope that is checked or shown, in bytes.
const LONGEST_SHOWN: u32 = 65_536;

/// The envelope in a file's bytes, if it is short enough, and its manifest.
pub(crate) fn opened_in(alloc: Global, bytes: &[u8]) -> Result<Opened<'_>, Stop>
    ensures { Opens bytes.now result }
{
    match open(alloc, bytes, LONGEST_SHOWN) {
        Ok(opened) => Ok(opened),
        Err(refusal) => Err(refusal_stop(alloc, NotAdmitted::from(refusal))),
    }
}

// Stops because a member is missing or wrong.
fn lack(alloc: Global, fault: MemberFault) -> Stop
    ensures { StopsAs (of_members fault) result }
{
    refusal_stop(alloc, NotAdmitted::from(fault))
}

/// The members, or the stop that says what is wrong with one.
pub(crate) fn taken(alloc: Global, members: Result<Members, MemberFault>) -> Result<Members, Stop>
    ensures { IsTaken members result }
{
    match members {
        Ok(members) => Ok(members),
        Err(fault) => Err(lack(alloc, fault)),
    }
}

/// The members that stand apart. `payload-fetch` is judged completely before `install`.
pub(crate) fn members_in(alloc: Global, file: &Opened<'_>) -> Result<Members, Stop>
    requires few { length file.now.manifest.components < 2 ^ 32 }
    requires places { MembersEndBelow (2 ^ 64) (said_by file.now.envelope) }
    ensures { Finds (members_in (said_by file.now.envelope) file.now.manifest) result }
{
    taken(alloc, members_of(alloc, &file.envelope, &file.manifest))
}

// The longest trimmed envelope that a bank of the flash holds, in bytes.
fn longest_trimmed(frame: Frame) -> u32
    ensures { result ≡ bank_size frame }
{
    bank_size(frame) as u32
}

/// The update that a file offers to a flash with this layout, frame and key.
pub(crate) fn accept<'a>(
    alloc: Global,
    layout: &Layout,
    frame: Frame,
    key: &Key,
    bytes: &'a [u8],
) -> Result<Admitted<'a>, Stop>
    requires entries { length layout.now ≤ MOST_ENTRIES }
    requires key { IsKey key.now }
    ensures finds { FindsAccepted (accepts frame layout.now key.now bytes.now) result }
    ensures wrapper { IfOk result (λ a. HasWrapper a.envelope.wrapper.now) }
    ensures whole { IfOk result (λ a. a.envelope.whole.now ≡ bytes.now) }
    ensures other { IfOk result (λ a. HaveOtherPlaces a.manifest.components a.places) }
{
    match admit(alloc, layout, key_bytes(key), bytes, longest_trimmed(frame)) {
        Ok(admitted) => Ok(admitted),
        Err(refusal) => Err(refusal_stop(alloc, refusal)),
    }
}
