//! The common part of a manifest, borrowed from an item that was judged before.

ghost use Rattle.std.specs.Prelude.{◌≡◌, ◌≤◌, length, IfOk};
ghost use Rattle.det_cbor.specs.HeadReading.{map_ok};
ghost use Rattle.suit_manifest.specs.Elements.{held_at, only_at};
ghost use Rattle.suit_manifest.specs.CommonReading.{common_values_from, common_pairs_from, common_at};
ghost use Rattle.manifest_view.specs.Views.{common_of};

use crate::LentIdentifiers;
use crate::components::lend_components;
use crate::values::lend_optional;
use det_cbor::Cursor;
use suit_cursor::LentSequence;
use suit_manifest::{CommonValues, common_values, needed};
use suit_params::{Refusal, only_item, read_content, read_map};

/// The common part of a manifest (draft-ietf-suit-manifest-25, section 8.4.5).
#[derive(Drop)]
pub(crate) struct Common<'a> {
    pub(crate) components: LentIdentifiers<'a>,
    pub(crate) shared: Option<LentSequence<'a>>,
}

// Borrows the common part from the values of its map.
fn lend_values<'a>(place: u64, values: CommonValues<'a>) -> Result<Common<'a>, Refusal>
    ensures says { map_ok common_of result
        ≡ common_values_from place values.entry }
    ensures few { IfOk result (λ common. length common.components ≤ 8) }
{
    let item = needed(place, 2, values.components)?;
    let components = lend_components(item)?;
    let shared = lend_optional(values.shared, true, components.len() as u32)?;
    Ok(Common { components, shared })
}

// Borrows the common part from a map of `pairs` pairs.
fn lend_pairs<'a>(map: Cursor<'a>, place: u64, pairs: u64) -> Result<Common<'a>, Refusal>
    ensures says { map_ok common_of result ≡ common_pairs_from place pairs map.entry }
    ensures few { IfOk result (λ common. length common.components ≤ 8) }
{
    let values = common_values(map, pairs)?;
    lend_values(place, values)
}

// Borrows the common part from a whole item. Unknown keys are refused first, then missing ones, and
// then the first bad value.
fn lend_item<'a>(mut item: Cursor<'a>) -> Result<Common<'a>, Refusal>
    ensures says { map_ok common_of result ≡ common_at item.entry }
    ensures few { IfOk result (λ common. length common.components ≤ 8) }
{
    let place = item.place();
    let pairs = read_map(&mut item)?;
    lend_pairs(item, place, pairs)
}

/// Borrows the common part that a byte string holds.
pub(crate) fn lend_common<'a>(mut item: Cursor<'a>) -> Result<Common<'a>, Refusal>
    ensures says { map_ok common_of result ≡ held_at (only_at common_at) item.entry }
    ensures few { IfOk result (λ common. length common.components ≤ 8) }
{
    let content = read_content(&mut item)?;
    let item = only_item(content)?;
    lend_item(item)
}
