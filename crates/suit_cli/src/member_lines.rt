//! Lines of a manifest's members.

ghost use Rattle.std.specs.Prelude.{◌≡◌, ◌++◌, IfOk, OnOk, string_bytes};
ghost use Rattle.suit_envelope.specs.Members.{member_of};
ghost use Rattle.suit_envelope.specs.Said.{said_by};
ghost use Rattle.suit_envelope.specs.declared.severed.MemberName.TheVariants as names;
ghost use Rattle.suit_cli.specs.Texts.{member_texts, member_line};
ghost use Rattle.suit_cli.specs.Shown.{state_of, StandsApart, HasState, TextHasState, AddsMembers};

use det_cbor::Text;
use std::alloc::{AllocError, Global};
use suit_commands::Sequence;
use suit_envelope::{Envelope, MemberBytes, MemberName, member};
use suit_manifest::{Manifest, Member, TextMember};
use suit_params::Digest;

/// Where a member stands, if anywhere.
#[derive(Clone, Copy, Debug, PartialEq, Eq)]
pub(crate) enum MemberState {
    /// The manifest holds it.
    Here,
    /// There is none.
    Absent,
    /// The manifest states its digest, and the envelope holds it.
    Apart,
    /// The envelope holds one with another digest.
    Differs,
    /// The envelope does not hold it.
    Severed,
}

fn state_of(sequence: &Option<Sequence>) -> MemberState
    ensures { result ≡ state_of sequence.now }
{
    match sequence {
        None => MemberState::Absent,
        Some(_) => MemberState::Here,
    }
}

// The state of a member whose digest is stated.
fn apart(envelope: &Envelope<'_>, name: MemberName, stated: &Digest) -> MemberState
    ensures { StandsApart (member_of (said_by envelope.now) name) stated.now result }
{
    match member(envelope, name, stated) {
        MemberBytes::Got(_) => MemberState::Apart,
        MemberBytes::Severed => MemberState::Severed,
        MemberBytes::Differs { .. } => MemberState::Differs,
    }
}

fn severable(envelope: &Envelope<'_>, name: MemberName, member: &Member) -> MemberState
    ensures { HasState (member_of (said_by envelope.now) name) member.now result }
{
    match member {
        Member::Empty => MemberState::Absent,
        Member::Here(_) => MemberState::Here,
        Member::Apart(stated) => apart(envelope, name, stated),
    }
}

fn text_state(envelope: &Envelope<'_>, member: &TextMember) -> MemberState
    ensures { TextHasState (member_of (said_by envelope.now) names.Text) member.now result }
{
    match member {
        TextMember::Empty => MemberState::Absent,
        TextMember::Here(_) => MemberState::Here,
        TextMember::Apart(stated) => apart(envelope, MemberName::Text, stated),
    }
}

fn member_texts(alloc: Global, name: &str, state: &str) -> Result<String, AllocError>
    ensures { IfOk result (λ t. string_bytes t ≡ member_texts name.now state.now) }
{
    format!(in alloc; "member {name} {state}\n")
}

fn member_line(alloc: Global, name: &str, state: MemberState) -> Result<String, AllocError>
    ensures { IfOk result (λ t. string_bytes t ≡ member_line name.now state) }
{
    match state {
        MemberState::Here => member_texts(alloc, name, "here"),
        MemberState::Absent => member_texts(alloc, name, "none"),
        MemberState::Apart => member_texts(alloc, name, "apart"),
        MemberState::Differs => member_texts(alloc, name, "differs"),
        MemberState::Severed => member_texts(alloc, name, "severed"),
    }
}

// Adds the line of a member.
fn push_member(
    alloc: Global,
    text: &mut Text,
    name: &str,
    state: MemberState,
) -> Result<(), AllocError>
    ensures { OnOk result (text.new ≡ text.old ++ member_line name.now state) }
{
    let line = member_line(alloc, name, state)?;
    text.push_str(line.as_str())
}

/// Adds a line for each sequence of the manifest, and for the text.
pub(crate) fn push_members(
    alloc: Global,
    text: &mut Text,
    envelope: &Envelope<'_>,
    manifest: &Manifest,
) -> Result<(), AllocError>
    ensures { OnOk result (AddsMembers (said_by envelope.now) manifest.now text.old text.new) }
{
    let fetch = severable(envelope, MemberName::PayloadFetch, &manifest.payload_fetch);
    let install = severable(envelope, MemberName::Install, &manifest.install);
    push_member(alloc, text, "shared", state_of(&manifest.shared))?;
    push_member(alloc, text, "validate", state_of(&manifest.validate))?;
    push_member(alloc, text, "load", state_of(&manifest.load))?;
    push_member(alloc, text, "invoke", state_of(&manifest.invoke))?;
    push_member(alloc, text, "payload-fetch", fetch)?;
    push_member(alloc, text, "install", install)?;
    push_member(alloc, text, "text", text_state(envelope, &manifest.text))
}
