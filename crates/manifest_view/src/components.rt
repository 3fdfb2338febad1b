//! The identifiers of a manifest's components, judged in place.

ghost use Rattle.std.specs.Prelude.{◌≡◌, ◌-◌, ◌≤◌, length, IfOk};
ghost use Rattle.det_cbor.specs.HeadReading.{map_ok};
ghost use Rattle.suit_manifest.specs.Elements.{all_from};
ghost use Rattle.suit_manifest.specs.ComponentsReading.{part_at, identifier_at, apart_from, ids_from, counted_ids, components_at};

use crate::LentIdentifiers;
use det_cbor::Cursor;
use suit_manifest::MAX_COMPONENTS;
use suit_params::{
    Refusal, Why, first_like, read_array, read_content, read_item, refused, same_place,
};

// Judges a byte string.
fn judge_part(mut item: Cursor<'_>) -> Result<(), Refusal>
    ensures { result ≡ map_ok (λ _. tt) (part_at item.entry) }
{
    read_content(&mut item)?;
    Ok(())
}

// Judges the next `count` byte strings.
fn judge_parts(mut items: Cursor<'_>, count: u64) -> Result<(), Refusal>
    ensures { result ≡ map_ok (λ _. tt) (all_from part_at count items.entry) }
{
    for _ in 0..count {
        let item = read_item(&mut items)?;
        judge_part(item)?;
    }
    Ok(())
}

// Judges a whole item as an identifier, which must take at most 64 bytes.
fn judge_identifier(mut item: Cursor<'_>) -> Result<(), Refusal>
    ensures { result ≡ map_ok (λ _. tt) (identifier_at item.entry) }
{
    let place = item.place();
    let size = item.left();
    let count = read_array(&mut item)?;
    judge_parts(item, count)?;
    if 64 < size {
        refused(place, Why::LongIdentifier)
    } else {
        Ok(())
    }
}

// Judges the next `count` identifiers.
fn judge_identifiers(mut items: Cursor<'_>, count: u64) -> Result<(), Refusal>
    ensures { result ≡ map_ok (λ _. tt) (all_from identifier_at count items.entry) }
{
    for _ in 0..count {
        let item = read_item(&mut items)?;
        judge_identifier(item)?;
    }
    Ok(())
}

// Judges the next `count` identifiers, and borrows them.
fn lend_identifiers<'a>(mut items: Cursor<'a>, count: u64) -> Result<LentIdentifiers<'a>, Refusal>
    ensures says { result ≡ all_from identifier_at count items.entry }
    ensures all { IfOk result (λ ids. length ids ≡ count) }
{
    let again = same_place(&mut items);
    judge_identifiers(items, count)?;
    Ok(LentIdentifiers {
        cursor: again,
        left: count,
    })
}

// Refuses two equal identifiers: the second is as early as possible, and then the first. The first
// identifier has none before it.
fn judge_apart(ids: &mut LentIdentifiers<'_>, mut items: Cursor<'_>) -> Result<(), Refusal>
    ensures apart { result ≡ apart_from ids.old 1 (length ids.old - 1) items.entry }
    ensures same { ids.new ≡ ids.old }
{
    for last in 1..ids.len() {
        read_item(&mut items)?;
        if let Some(first) = first_like(ids.copy(), last as usize) {
            return refused(items.place(), Why::TwoAlike(first as u64, last));
        }
    }
    Ok(())
}

fn lend_apart<'a>(mut items: Cursor<'a>, count: u64) -> Result<LentIdentifiers<'a>, Refusal>
    ensures says { result ≡ ids_from count items.entry }
    ensures all { IfOk result (λ ids. length ids ≡ count) }
{
    let again = same_place(&mut items);
    let mut ids = lend_identifiers(items, count)?;
    judge_apart(&mut ids, again)?;
    Ok(ids)
}

// Borrows the next `count` identifiers of an array whose place is `place`.
fn lend_counted<'a>(
    items: Cursor<'a>,
    place: u64,
    count: u64,
) -> Result<LentIdentifiers<'a>, Refusal>
    ensures says { result ≡ counted_ids place count items.entry }
    ensures few { IfOk result (λ ids. length ids ≤ 8) }
{
    if count == 0 {
        refused(place, Why::Shape)
    } else if MAX_COMPONENTS < count {
        refused(place, Why::TooMany(count))
    } else {
        lend_apart(items, count)
    }
}

/// Borrows the identifiers of components from a whole item. Too many are refused first, then the
/// first one that is malformed or too long, and then two that are equal.
pub(crate) fn lend_components<'a>(mut item: Cursor<'a>) -> Result<LentIdentifiers<'a>, Refusal>
    ensures says { result ≡ components_at item.entry }
    ensures few { IfOk result (λ ids. length ids ≤ 8) }
{
    let place = item.place();
    let count = read_array(&mut item)?;
    lend_counted(item, place, count)
}
