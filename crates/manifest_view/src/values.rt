//! The values in a manifest's map, borrowed from items that were judged before.

ghost use Rattle.std.specs.Prelude.{◌≡◌};
ghost use Rattle.det_cbor.specs.HeadReading.{map_ok};
ghost use Rattle.suit_commands.specs.Allowed.{levels_inside};
ghost use Rattle.suit_commands.specs.SequenceReading.{whole_sequence};
ghost use Rattle.suit_manifest.specs.Elements.{held_at};
ghost use Rattle.suit_manifest.specs.MapReading.{may};
ghost use Rattle.suit_manifest.specs.ManifestReading.{text_at, severed_at, text_member_at, severed_in, text_in};
ghost use Rattle.manifest_view.specs.Views.{member_of, text_of, lent_text, content_at};

use crate::{MemberView, TextView};
use det_cbor::{Cursor, HeadKind};
use suit_cursor::LentSequence;
use suit_manifest::read_text;
use suit_params::{Refusal, bytes_left, digest_of, only_item, read_content, read_head, same_place};

/// Borrows a text, if there is one.
pub(crate) fn lend_reference<'a>(item: Option<Cursor<'a>>) -> Result<Option<&'a str>, Refusal>
    ensures { map_ok lent_text result ≡ may text_at item.entry }
{
    match item {
        Some(item) => Ok(Some(read_text(item)?)),
        None => Ok(None),
    }
}

// Borrows the sequence that a byte string holds. Component indices must be below `count`.
fn lend_sequence<'a>(
    mut item: Cursor<'a>,
    shared: bool,
    count: u32,
) -> Result<LentSequence<'a>, Refusal>
    ensures { result ≡ held_at (whole_sequence shared count levels_inside) item.entry }
{
    let content = read_content(&mut item)?;
    let place = content.place();
    LentSequence::new(bytes_left(content), place, shared, count)
}

/// Borrows the sequence that a byte string holds, if there is one.
pub(crate) fn lend_optional<'a>(
    item: Option<Cursor<'a>>,
    shared: bool,
    count: u32,
) -> Result<Option<LentSequence<'a>>, Refusal>
    ensures { result ≡ may (held_at (whole_sequence shared count levels_inside)) item.entry }
{
    match item {
        Some(item) => Ok(Some(lend_sequence(item, shared, count)?)),
        None => Ok(None),
    }
}

// Borrows a severable member: a digest, or a byte string that holds a sequence.
#[tactic(auto, unfolding(suit_manifest::specs::ManifestReading::severed_at))]
fn lend_severed<'a>(mut item: Cursor<'a>, count: u32) -> Result<MemberView<'a>, Refusal>
    ensures { map_ok member_of result ≡ severed_at count item.entry }
{
    let mut ahead = same_place(&mut item);
    let head = read_head(&mut ahead)?;
    match head.kind {
        HeadKind::Array => Ok(MemberView::Apart(digest_of(item)?)),
        _ => Ok(MemberView::Here(lend_sequence(item, false, count)?)),
    }
}

/// Borrows a severable member, if there is one.
pub(crate) fn lend_member<'a>(
    item: Option<Cursor<'a>>,
    count: u32,
) -> Result<MemberView<'a>, Refusal>
    ensures { map_ok member_of result ≡ severed_in count item.entry }
{
    match item {
        Some(item) => lend_severed(item, count),
        None => Ok(MemberView::Empty),
    }
}

// Borrows the content of a byte string that holds one item.
fn lend_content<'a>(mut item: Cursor<'a>) -> Result<&'a [u8], Refusal>
    ensures { map_ok (λ b. b.now) result ≡ content_at item.entry }
{
    let mut content = read_content(&mut item)?;
    let again = same_place(&mut content);
    only_item(again)?;
    Ok(bytes_left(content))
}

// Borrows the text: a digest, or a byte string that holds one item.
#[tactic(auto, unfolding(suit_manifest::specs::ManifestReading::text_member_at))]
fn lend_text_item<'a>(mut item: Cursor<'a>) -> Result<TextView<'a>, Refusal>
    ensures { map_ok text_of result ≡ text_member_at item.entry }
{
    let mut ahead = same_place(&mut item);
    let head = read_head(&mut ahead)?;
    match head.kind {
        HeadKind::Array => Ok(TextView::Apart(digest_of(item)?)),
        _ => Ok(TextView::Here(lend_content(item)?)),
    }
}

/// Borrows the text, if there is one.
pub(crate) fn lend_text_member<'a>(item: Option<Cursor<'a>>) -> Result<TextView<'a>, Refusal>
    ensures { map_ok text_of result ≡ text_in item.entry }
{
    match item {
        Some(item) => lend_text_item(item),
        None => Ok(TextView::Empty),
    }
}
