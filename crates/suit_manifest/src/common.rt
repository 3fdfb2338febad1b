//! Reading the common part of a manifest, from an item that was judged before.

ghost use Rattle.std.specs.Prelude.{◌≡◌, ◌≤◌, length, IfOk};
ghost use Rattle.suit_params.specs.Answering.{Gives};
ghost use Rattle.suit_manifest.specs.Elements.{held_at};
ghost use Rattle.suit_manifest.specs.MapReading.{may};
ghost use Rattle.suit_manifest.specs.CommonReading.{shared_at, common_found, common_values_from, common_pairs_from, common_at};
ghost use Rattle.suit_commands.specs.Allowed.{levels_inside};
ghost use Rattle.suit_commands.specs.SequenceReading.{whole_sequence};

use crate::components::read_components;
use crate::pairs::{Pairs, needed};
use det_cbor::Cursor;
use std::alloc::Global;
use suit_commands::{Sequence, decode_sequence};
use suit_params::{Fault, Identifiers, Refusal, bytes_left, read_content, read_map};

/// The common part of a manifest (draft-ietf-suit-manifest-25, section 8.4.5).
#[derive(Debug, Drop)]
pub(crate) struct Common {
    pub(crate) components: Identifiers,
    pub(crate) shared: Option<Sequence>,
}

/// Reads a byte string that holds a sequence. Component indices must be below `count`.
pub(crate) fn read_sequence(
    alloc: Global,
    mut item: Cursor<'_>,
    shared: bool,
    count: u32,
) -> Result<Sequence, Fault>
    ensures { Gives (λ s. s) result
        (held_at (whole_sequence shared count levels_inside) item.entry) }
{
    let content = read_content(&mut item)?;
    let place = content.place();
    decode_sequence(alloc, bytes_left(content), place, shared, count)
}

/// Reads a byte string that holds a sequence, if there is one.
pub(crate) fn read_optional(
    alloc: Global,
    item: Option<Cursor<'_>>,
    shared: bool,
    count: u32,
) -> Result<Option<Sequence>, Fault>
    ensures { Gives (λ s. s) result
        (may (held_at (whole_sequence shared count levels_inside)) item.entry) }
{
    match item {
        Some(item) => Ok(Some(read_sequence(alloc, item, shared, count)?)),
        None => Ok(None),
    }
}

/// The values in the common part's map, each as a cursor over its item.
#[derive(Debug, Drop)]
pub struct CommonValues<'a> {
    pub components: Option<Cursor<'a>>,
    pub shared: Option<Cursor<'a>>,
}

/// Finds the values in a map of `count` pairs, and refuses the first unknown key. The map was
/// judged before, and the cursor is after its head. Allocates nothing.
pub fn common_values<'a>(map: Cursor<'a>, count: u64) -> Result<CommonValues<'a>, Refusal>
    ensures { result ≡ common_found (record { map = map.entry; left = count }) }
{
    let mut pairs = Pairs { map, left: count };
    let components = pairs.take(2)?;
    let shared = pairs.take(4)?;
    pairs.end()?;
    Ok(CommonValues { components, shared })
}

// Reads the common part from the values of its map.
fn read_values(alloc: Global, place: u64, values: CommonValues<'_>) -> Result<Common, Fault>
    ensures says { Gives (λ c. record { components = c.components; shared = c.shared }) result
        (common_values_from place values.entry) }
    ensures few { IfOk result (λ c. length c.components ≤ 8) }
{
    let item = needed(place, 2, values.components)?;
    let components = read_components(alloc, item)?;
    let shared = read_optional(alloc, values.shared, true, components.len() as u32)?;
    Ok(Common { components, shared })
}

// Reads the common part from a map of `pairs` pairs.
fn read_pairs(alloc: Global, map: Cursor<'_>, place: u64, pairs: u64) -> Result<Common, Fault>
    ensures says { Gives (λ c. record { components = c.components; shared = c.shared }) result
        (common_pairs_from place pairs map.entry) }
    ensures few { IfOk result (λ c. length c.components ≤ 8) }
{
    let values = common_values(map, pairs)?;
    read_values(alloc, place, values)
}

/// Reads a whole item as the common part. Unknown keys are refused first, then missing ones, and
/// then the first bad value.
pub(crate) fn read_common(alloc: Global, mut item: Cursor<'_>) -> Result<Common, Fault>
    ensures says { Gives (λ c. record { components = c.components; shared = c.shared }) result
        (common_at item.entry) }
    ensures few { IfOk result (λ c. length c.components ≤ 8) }
{
    let place = item.place();
    let pairs = read_map(&mut item)?;
    read_pairs(alloc, item, place, pairs)
}
