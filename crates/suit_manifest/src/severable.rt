//! A single severed member of a manifest.

ghost use Rattle.std.specs.Prelude.{◌<◌, ◌^◌, ◌+◌, false, length, IfOk, IfErr};
ghost use Rattle.suit_params.specs.Refusing.{SaysWhole};
ghost use Rattle.suit_commands.specs.Allowed.{levels_allowed};
ghost use Rattle.suit_commands.specs.Sequences.{SaysSequence};
ghost use Rattle.suit_envelope.specs.Places.{EndsBelow};
ghost use Rattle.suit_manifest.specs.MembersApart.{held_in, IsTaken, HasMember, LacksTaken, LacksMember, RefusesContent, IsLackBy};

use crate::{Member, MemberFault};
use std::alloc::Global;
use suit_commands::{Sequence, decode_sequence};
use suit_envelope::{Envelope, MemberBytes, MemberName, member};
use suit_params::Digest;

// Decodes a member's content as a sequence.
fn decoded(alloc: Global, content: &[u8], place: u64, count: u32) -> Result<Sequence, MemberFault>
    requires { place + length content.now < 2 ^ 64 }
    ensures ok { IfOk result
        (λ s. SaysWhole (SaysSequence false count levels_allowed) place content.now s) }
    ensures refused { IfErr result (RefusesContent count place content.now) }
{
    Ok(decode_sequence(alloc, content, place, false, count)?)
}

// The sequence of a member whose digest is stated. `place` is that of its content.
#[tactic(auto, using(crate::proofs::Taking::got_place, crate::proofs::Taking::got_taken, crate::proofs::Taking::got_refused, crate::proofs::Taking::severed, crate::proofs::Taking::differs))]
fn taken(
    alloc: Global,
    envelope: &Envelope<'_>,
    name: MemberName,
    place: u64,
    stated: &Digest,
    count: u32,
) -> Result<Sequence, MemberFault>
    requires { EndsBelow (2 ^ 64) (held_in envelope.now name) place }
    ensures ok { IfOk result (IsTaken count (held_in envelope.now name) place stated.now) }
    ensures refused { IfErr result
        (IsLackBy (LacksTaken name count (held_in envelope.now name) place stated.now)) }
{
    match member(envelope, name, stated) {
        MemberBytes::Got(content) => decoded(alloc, content, place, count),
        MemberBytes::Severed => Err(MemberFault::Severed(name)),
        MemberBytes::Differs { stated, found } => Err(MemberFault::Differs {
            name,
            stated,
            found,
        }),
    }
}

/// The sequence of a member, if it is severed. `place` is that of its content.
pub(crate) fn apart(
    alloc: Global,
    envelope: &Envelope<'_>,
    name: MemberName,
    place: u64,
    member: &Member,
    count: u32,
) -> Result<Option<Sequence>, MemberFault>
    requires { EndsBelow (2 ^ 64) (held_in envelope.now name) place }
    ensures ok { IfOk result (HasMember count (held_in envelope.now name) place member.now) }
    ensures refused { IfErr result
        (IsLackBy (LacksMember name count (held_in envelope.now name) place member.now)) }
{
    match member {
        Member::Empty => Ok(None),
        Member::Here(_) => Ok(None),
        Member::Apart(stated) => {
            let sequence = taken(alloc, envelope, name, place, stated, count)?;
            Ok(Some(sequence))
        }
    }
}
