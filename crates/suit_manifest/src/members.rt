//! The severed members of a manifest, taken from its envelope.

ghost use Rattle.std.specs.Prelude.{◌≡◌, IfOk, IfErr};
ghost use Rattle.suit_envelope.specs.Said.{said_by};
ghost use Rattle.suit_manifest.specs.declared.manifest.Members.{Members};
ghost use Rattle.suit_manifest.specs.declared.members.MemberFault.{MemberFault};
ghost use Rattle.suit_manifest.specs.MembersApart.{CanTakeMembers, HasMembers, content_fault, LacksMembers, IsLackBy, IsTakenAs, IsLackedAs};

use crate::plans::component_count;
use crate::severable::apart;
use crate::{Manifest, Members};
use std::alloc::Global;
use suit_envelope::{Envelope, MemberName};
use suit_params::{Digest, Fault, Refusal};

/// Why a severed member cannot be had.
#[derive(Clone, Copy, Debug, PartialEq, Eq)]
pub enum MemberFault {
    /// The manifest states the member's digest, but the envelope does not hold the member.
    Severed(MemberName),
    /// The digest that the manifest states is not that of the member's byte string in the envelope.
    Differs {
        name: MemberName,
        stated: Digest,
        found: Digest,
    },
    /// The member has the stated digest, but its content is refused as a sequence. The place is in
    /// bytes from the start of the envelope.
    Refused(Refusal),
    NoMemory,
}

impl From<Fault> for MemberFault {
    ghost from_gives = { λ f m. m ≡ content_fault f };

    fn from(fault: Fault) -> MemberFault {
        match fault {
            Fault::Refused(refusal) => MemberFault::Refused(refusal),
            Fault::NoMemory => MemberFault::NoMemory,
        }
    }
}

// Does the work of `members_of`.
#[tactic(auto, using(crate::proofs::BothMembers::fetch_lacks))]
fn both(alloc: Global, envelope: &Envelope<'_>, manifest: &Manifest) -> Result<Members, MemberFault>
    requires { CanTakeMembers (said_by envelope.now) manifest.now }
    ensures ok { IfOk result (HasMembers (said_by envelope.now) manifest.now) }
    ensures refused { IfErr result (IsLackBy (LacksMembers (said_by envelope.now) manifest.now)) }
{
    let count = component_count(manifest);
    let name = MemberName::PayloadFetch;
    let place = envelope.payload_fetch_place;
    let first = apart(alloc, envelope, name, place, &manifest.payload_fetch, count)?;
    let name = MemberName::Install;
    let place = envelope.install_place;
    let second = apart(alloc, envelope, name, place, &manifest.install, count)?;
    Ok(Members {
        payload_fetch: first,
        install: second,
    })
}

/// Takes the members whose digests the manifest states from its envelope
/// (draft-ietf-suit-manifest-25, sections 8.4 and 8.5). Each must have the stated digest. Its
/// content is decoded as a sequence for the manifest's number of components, at its place in the
/// envelope. A member that the envelope holds is ignored if the manifest does not state its digest.
///
/// Payload-fetch is judged completely before install. Of each, the order is: it is present, it has
/// the digest, it follows the grammar. Allocates only for the sequences.
///
/// The manifest must have fewer than 2^32 components, and the envelope's members must end at places
/// below 2^64, as those of `decode_envelope` do.
pub fn members_of(
    alloc: Global,
    envelope: &Envelope<'_>,
    manifest: &Manifest,
) -> Result<Members, MemberFault>
    requires { CanTakeMembers (said_by envelope.now) manifest.now }
    ensures ok { IfOk result (HasMembers (said_by envelope.now) manifest.now) }
    ensures refused { IfErr result (IsLackBy (LacksMembers (said_by envelope.now) manifest.now)) }
    ensures every_members { (members : Members)
        → HasMembers (said_by envelope.now) manifest.now members → IsTakenAs members result }
    ensures every_fault { (fault : MemberFault)
        → LacksMembers (said_by envelope.now) manifest.now fault → IsLackedAs fault result }
{
    both(alloc, envelope, manifest)
}
