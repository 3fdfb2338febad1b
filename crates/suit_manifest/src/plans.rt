//! The two procedures of a manifest.

ghost use Rattle.std.specs.Prelude.{◌≡◌, ◌<◌, ◌^◌, length};
ghost use Rattle.suit_commands.specs.Plans.{lent_tree, plan_tree};
ghost use Rattle.suit_manifest.specs.Manifests.{count_said};
ghost use Rattle.suit_manifest.specs.Procedures.{tree_or_empty, member_tree, update_tree, invocation_tree};

use crate::{Manifest, Member, Members};
use suit_commands::{Plan, Sequence};

fn lent(sequence: &Option<Sequence>) -> Option<&Sequence>
    ensures { lent_tree result ≡ tree_or_empty sequence.now }
{
    sequence.as_ref()
}

// The sequence of a severable member, wherever it is.
fn lent_member<'a>(member: &'a Member, apart: &'a Option<Sequence>) -> Option<&'a Sequence>
    ensures { lent_tree result ≡ member_tree member.now apart.now }
{
    match member {
        Member::Empty => None,
        Member::Here(sequence) => Some(sequence),
        Member::Apart(_) => lent(apart),
    }
}

/// The number of components.
pub(crate) fn component_count(manifest: &Manifest) -> u32
    requires { length manifest.now.components < 2 ^ 32 }
    ensures { result ≡ count_said manifest.now }
{
    manifest.components.len() as u32
}

/// The update procedure (draft-ietf-suit-manifest-25, section 6.4): payload-fetch, install and
/// validate, each after the shared sequence. An absent member counts as empty, and a member that
/// the manifest holds is never taken from the severed ones. Allocates nothing. The manifest must
/// have fewer than 2^32 components; one of the grammar has at most eight.
pub fn update_plan<'a>(manifest: &'a Manifest, members: &'a Members) -> Plan<'a>
    requires { length manifest.now.components < 2 ^ 32 }
    ensures { plan_tree result ≡ update_tree manifest.now members.now }
{
    Plan {
        shared: lent(&manifest.shared),
        first: lent_member(&manifest.payload_fetch, &members.payload_fetch),
        second: lent_member(&manifest.install, &members.install),
        third: lent(&manifest.validate),
        count: component_count(manifest),
    }
}

/// The invocation procedure (draft-ietf-suit-manifest-25, section 6.4): validate, load and invoke,
/// each after the shared sequence. An absent member counts as empty. Allocates nothing. The
/// manifest must have fewer than 2^32 components; one of the grammar has at most eight.
pub fn invocation_plan<'a>(manifest: &'a Manifest) -> Plan<'a>
    requires { length manifest.now.components < 2 ^ 32 }
    ensures { plan_tree result ≡ invocation_tree manifest.now }
{
    Plan {
        shared: lent(&manifest.shared),
        first: lent(&manifest.validate),
        second: lent(&manifest.load),
        third: lent(&manifest.invoke),
        count: component_count(manifest),
    }
}
