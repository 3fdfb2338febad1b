//! The severed members that the envelope holds.

ghost use Rattle.std.specs.Prelude.{◌≡◌, IfOk, IfErr, option_map};
ghost use Rattle.suit_envelope.specs.Said.{said_by};
ghost use Rattle.suit_manifest.specs.declared.manifest.Members.{Members};
ghost use Rattle.suit_manifest.specs.declared.members.MemberFault.{MemberFault};
ghost use Rattle.suit_manifest.specs.MembersApart.{CanTakeMembers, HasMembers, LacksMembers, IsLackBy, IsTakenAs, IsLackedAs};
ghost use Rattle.describe.specs.Again.{AreThere};
ghost use Rattle.describe.specs.MembersThere.{if_held, only_there};

use std::alloc::{AllocError, Global};
use suit_envelope::Envelope;
use suit_manifest::{Manifest, Member, MemberFault, Members, TextMember, members_of};

// A severed member, if the envelope holds it.
fn if_held(held: Option<&[u8]>, member: &Member) -> Member
    ensures { result ≡ if_held (option_map (λ s. s.now) held.entry) member.now }
{
    match held {
        None => Member::Empty,
        Some(_) => match member {
            Member::Empty => Member::Empty,
            Member::Here(_) => Member::Empty,
            Member::Apart(stated) => Member::Apart(*stated),
        },
    }
}

// The manifest with those severed members that are held, and no other members.
fn only_there(
    alloc: Global,
    envelope: &Envelope<'_>,
    manifest: &Manifest,
) -> Result<Manifest, AllocError>
    ensures { IfOk result (λ m. m ≡ only_there (said_by envelope.now) manifest.now) }
{
    Ok(Manifest {
        sequence: manifest.sequence,
        components: manifest.components.copy(alloc)?,
        shared: None,
        reference: None,
        validate: None,
        load: None,
        invoke: None,
        payload_fetch: if_held(envelope.payload_fetch, &manifest.payload_fetch),
        install: if_held(envelope.install, &manifest.install),
        text: TextMember::Empty,
    })
}

/// Reads the severed members that the envelope holds. Works like `members_of`, but leaves out the members that the
/// envelope lacks, and so never returns `Severed`.
///
/// Needs fewer than 2^32 components, and an envelope whose members end at places below 2^64, as those of
/// `decode_envelope` do.
pub fn members_there(
    alloc: Global,
    envelope: &Envelope<'_>,
    manifest: &Manifest,
) -> Result<Members, MemberFault>
    requires { CanTakeMembers (said_by envelope.now) manifest.now }
    ensures ok { IfOk result
        (HasMembers (said_by envelope.now) (only_there (said_by envelope.now) manifest.now)) }
    ensures refused { IfErr result (IsLackBy
        (LacksMembers (said_by envelope.now) (only_there (said_by envelope.now) manifest.now))) }
    ensures every_members { (members : Members)
        → HasMembers (said_by envelope.now) (only_there (said_by envelope.now) manifest.now) members
        → IsTakenAs members result }
    ensures every_fault { (fault : MemberFault)
        → LacksMembers (said_by envelope.now) (only_there (said_by envelope.now) manifest.now) fault
        → IsLackedAs fault result }
    ensures there { IfOk result (AreThere (said_by envelope.now) manifest.now) }
{
    match only_there(alloc, envelope, manifest) {
        Ok(there) => members_of(alloc, envelope, &there),
        Err(_) => Err(MemberFault::NoMemory),
    }
}
