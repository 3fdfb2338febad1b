//! The number of pairs in a manifest's maps.

ghost use Rattle.std.specs.Prelude.{◌≡◌};
ghost use Rattle.det_cbor.specs.DataItem.{pair_count};
ghost use Rattle.suit_manifest.specs.ManifestMaking.{pairs_of, row_pairs, text_item, held_item, severed_item, text_member_item, common_rows, manifest_rows};

use crate::{Manifest, Member, TextMember};
use det_cbor::Text;
use suit_commands::Sequence;

// How many pairs a sequence takes: 1 if there is one, and otherwise 0. The next three functions do
// the same for their values.
fn held_count(sequence: &Option<Sequence>) -> u64
    ensures { result ≡ pairs_of (held_item sequence.now) }
{
    match sequence {
        Some(_) => 1,
        None => 0,
    }
}

fn reference_count(reference: &Option<Text>) -> u64
    ensures { result ≡ pairs_of (text_item reference.now) }
{
    match reference {
        Some(_) => 1,
        None => 0,
    }
}

fn severed_count(member: &Member) -> u64
    ensures { result ≡ pairs_of (severed_item member.now) }
{
    match member {
        Member::Empty => 0,
        Member::Here(_) | Member::Apart(_) => 1,
    }
}

fn text_count(text: &TextMember) -> u64
    ensures { result ≡ pairs_of (text_member_item text.now) }
{
    match text {
        TextMember::Empty => 0,
        TextMember::Here(_) | TextMember::Apart(_) => 1,
    }
}

/// The number of pairs in the map of the common part.
#[tactic(auto, using(crate::proofs::RowCounts::row_counted, crate::proofs::RowCounts::few_pairs))]
pub(crate) fn common_count(manifest: &Manifest) -> u64
    ensures { result ≡ pair_count (row_pairs (common_rows manifest.now)) }
{
    1 + held_count(&manifest.shared)
}

/// The number of pairs in the map of the manifest.
#[tactic(auto, using(crate::proofs::RowCounts::row_counted, crate::proofs::RowCounts::few_pairs))]
pub(crate) fn manifest_count(manifest: &Manifest) -> u64
    ensures { result ≡ pair_count (row_pairs (manifest_rows manifest.now)) }
{
    let held = held_count(&manifest.validate)
        + held_count(&manifest.load)
        + held_count(&manifest.invoke);
    let severed = severed_count(&manifest.payload_fetch) + severed_count(&manifest.install);
    3 + reference_count(&manifest.reference) + held + severed + text_count(&manifest.text)
}
