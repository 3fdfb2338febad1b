//! Reading the identifiers of a manifest's components, from an item that was judged before.

ghost use Rattle.std.specs.Prelude.{◌≡◌, ◌-◌, ◌<◌, ◌≤◌, length, IfOk};
ghost use Rattle.suit_params.specs.Answering.{Gives};
ghost use Rattle.suit_manifest.specs.Elements.{all_from};
ghost use Rattle.suit_manifest.specs.ComponentsReading.{part_at, identifier_at, apart_from, ids_from, counted_ids, components_at};

use det_cbor::{Bytes, Cursor};
use std::alloc::Global;
use suit_params::{
    Fault, Identifier, Identifiers, Refusal, Why, copy_left, first_like, read_array, read_content,
    read_item, refused, same_place,
};

/// The most components that a manifest may have.
pub const MAX_COMPONENTS: u64 = 8;

// Reads a byte string, and copies its content.
fn read_part(alloc: Global, mut item: Cursor<'_>) -> Result<Bytes, Fault>
    ensures { Gives (λ b. b) result (part_at item.entry) }
{
    let content = read_content(&mut item)?;
    Ok(copy_left(alloc, content)?)
}

// Reads the next `count` byte strings.
fn read_parts(alloc: Global, mut items: Cursor<'_>, count: u64) -> Result<Identifier, Fault>
    ensures { Gives (λ id. id) result (all_from part_at count items.entry) }
{
    let mut parts = Identifier::new(alloc);
    for _ in 0..count {
        let item = read_item(&mut items)?;
        parts.push(read_part(alloc, item)?)?;
    }
    Ok(parts)
}

// Reads a whole item as an identifier, which must take at most 64 bytes.
fn read_identifier(alloc: Global, mut item: Cursor<'_>) -> Result<Identifier, Fault>
    ensures { Gives (λ id. id) result (identifier_at item.entry) }
{
    let place = item.place();
    let size = item.left();
    let count = read_array(&mut item)?;
    let parts = read_parts(alloc, item, count)?;
    if 64 < size {
        Ok(refused(place, Why::LongIdentifier)?)
    } else {
        Ok(parts)
    }
}

// Reads the next `count` identifiers.
fn read_identifiers(alloc: Global, mut items: Cursor<'_>, count: u64) -> Result<Identifiers, Fault>
    ensures says { Gives (λ ids. ids) result (all_from identifier_at count items.entry) }
    ensures all { IfOk result (λ ids. length ids ≡ count) }
{
    let mut ids = Identifiers::new(alloc);
    for _ in 0..count {
        let item = read_item(&mut items)?;
        ids.push(read_identifier(alloc, item)?)?;
    }
    Ok(ids)
}

// Refuses two equal identifiers: the second is as early as possible, and then the first. The first
// identifier has none before it.
fn judge_apart(ids: &Identifiers, mut items: Cursor<'_>) -> Result<(), Refusal>
    ensures { result ≡ apart_from ids.now 1 (length ids.now - 1) items.entry }
{
    for last in 1..ids.len() {
        read_item(&mut items)?;
        if let Some(first) = first_like(ids.as_slice(), last) {
            return refused(items.place(), Why::TwoAlike(first as u64, last as u64));
        }
    }
    Ok(())
}

fn read_apart(alloc: Global, mut items: Cursor<'_>, count: u64) -> Result<Identifiers, Fault>
    ensures says { Gives (λ ids. ids) result (ids_from count items.entry) }
    ensures all { IfOk result (λ ids. length ids ≡ count) }
{
    let again = same_place(&mut items);
    let ids = read_identifiers(alloc, items, count)?;
    judge_apart(&ids, again)?;
    Ok(ids)
}

// Reads the next `count` identifiers of an array whose place is `place`.
fn read_counted(
    alloc: Global,
    items: Cursor<'_>,
    place: u64,
    count: u64,
) -> Result<Identifiers, Fault>
    ensures says { Gives (λ ids. ids) result (counted_ids place count items.entry) }
    ensures few { IfOk result (λ ids. length ids ≤ 8) }
{
    if count == 0 {
        Ok(refused(place, Why::Shape)?)
    } else if MAX_COMPONENTS < count {
        Ok(refused(place, Why::TooMany(count))?)
    } else {
        read_apart(alloc, items, count)
    }
}

/// Reads a whole item as the identifiers of components. Too many are refused first, then the first
/// one that is malformed or too long, and then two that are equal.
pub(crate) fn read_components(alloc: Global, mut item: Cursor<'_>) -> Result<Identifiers, Fault>
    ensures says { Gives (λ ids. ids) result (components_at item.entry) }
    ensures few { IfOk result (λ ids. length ids ≤ 8) }
{
    let place = item.place();
    let count = read_array(&mut item)?;
    read_counted(alloc, item, place, count)
}
